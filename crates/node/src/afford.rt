// What a node can afford: where its floor is at the ceiling or above, no plan that is sought is left; and an entry whose price would lift the floor that far is in
// none.
ghost use Rattle.std.specs.Prelude.{ℕ};
ghost use Rattle.pacsolve.specs.Listing.{Asked};
ghost use Rattle.plan.specs.Posing.{problem_by};
ghost use Rattle.node.specs.Facts.{FactsFor, Beyond};
ghost use Rattle.node.specs.Narrowing.{Ready, Narrowed};
ghost use Rattle.node.specs.Sought.{limit_of};

use crate::banned::ban_all;
use crate::ceiling::ceiling;
use crate::{Facts, Limit, Node};
use plan::Problem;
use price::floor::{lay, too_dear};

// The entries that no plan below the limit can pay for beside the sum: all, where the sum alone is as much.
fn beyond_means(price: &[u64; 64], sum: u64, limit: u64, open: u64) -> u64
    ensures { Beyond price.now sum limit result }
{
    if limit <= sum {
        return u64::MAX;
    }
    too_dear(price, limit - sum, open)
}

pub fn afford(
    problem: &Problem,
    facts: &Facts,
    limit: Limit,
    plan: &[u8],
    node: Node,
    choices: &[u64; 256],
    price: &mut [u64; 64],
) -> Option<Node>
    requires ready { Ready (problem_by problem.now) node limit plan.now }
    requires facts { FactsFor problem.now facts.now }
    ensures { (q : Asked) → Narrowed (problem_by problem.now) q (limit_of limit plan.now) node choices.now result choices.now }
{
    let must = node.must;
    let ground = lay(&facts.rates, &facts.spans, must, choices, price);
    let top = ceiling(problem, facts, limit, plan, node, choices);
    let out = beyond_means(price, ground.sum, top + ground.credit, !must);
    ban_all(node, out)
}
