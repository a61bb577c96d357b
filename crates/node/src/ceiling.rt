// The ceiling of a node: what every plan that is sought there is worth less than. At the best plan's cost only a table before its table will do, so where no table
// inside the node comes before it, that cost is out too.
ghost use Rattle.std.specs.Prelude.{◌/◌, ◌≤◌, ◌<◌, ◌^◌, length};
ghost use Rattle.plan.specs.Posing.{problem_by};
ghost use Rattle.node.specs.Facts.{FactsFor, LowIn, LowTable, Ceils};
ghost use Rattle.node.specs.Narrowing.{Ready};
ghost use Rattle.node.specs.Sought.{limit_of};

use crate::order::earlier;
use crate::tables::tabled;
use crate::{Facts, Limit, Node};
use plan::Problem;
use price::worths::worth;

// What a slot holds at least: its lowest choice, and 255 where its owner is banned.
fn low_in(ban: u64, owner: u32, choices: u64) -> u8
    ensures { LowIn ban owner choices result }
{
    if bitset::has(ban, owner) {
        return 255;
    }
    bitset::lowest(choices) as u8
}

// A table that no table of a plan inside the node comes before.
fn low_table(slots: &[u16], ban: u64, choices: &[u64; 256]) -> [u8; 256]
    requires { length slots.now / 4 ≤ 256 }
    ensures { LowTable slots.now ban choices.now result }
{
    tabled(slots, choices, |owner, all| low_in(ban, owner, all))
}

pub fn ceiling(
    problem: &Problem,
    facts: &Facts,
    limit: Limit,
    plan: &[u8],
    node: Node,
    choices: &[u64; 256],
) -> u64
    requires ready { Ready (problem_by problem.now) node limit plan.now }
    requires facts { FactsFor problem.now facts.now }
    ensures fits { result < 2 ^ 63 }
    ensures over { Ceils (problem_by problem.now) facts.now.rates.scale (limit_of limit plan.now) node choices.now result }
{
    let scale = facts.rates.scale;
    match limit {
        Limit::Under(bound) => worth(scale, bound),
        Limit::Before(best) => {
            let top = worth(scale, best.cost);
            let table = low_table(problem.slots, node.ban, choices);
            if earlier(&table[..plan.len()], plan) {
                return top + 1;
            }
            top
        }
    }
}
