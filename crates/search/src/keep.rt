// A node where every slot of a must entry has one choice holds one plan at most: it is put to the six conditions, to what is asked for and to the limit.
ghost use Rattle.basis.specs.Tests.{Decides};
ghost use Rattle.plan.specs.Posing.{problem_by};
ghost use Rattle.node.specs.Narrowing.{Ready};
ghost use Rattle.node.specs.Order.{AfterGiven, Sooner};
ghost use Rattle.node.specs.Sought.{CostedGiven, asked_of};
ghost use Rattle.search.specs.Picks.{Settles};
ghost use Rattle.search.specs.Walks.{Walked};

use crate::table::table_of;
use node::order::{after_given, sooner};
use node::{Given, Limit, Node};
use pacsolve::{Cost, Listed, Plan};
use plan::Problem;
use plan::judging::judge;

// Whether a plan is asked for and lies below the limit.
fn sought(given: Option<Given>, limit: Limit, best_table: &[u8], cost: Cost, table: &[u8]) -> bool
    ensures { Decides result (AfterGiven given.entry cost table.now × Sooner limit best_table.now cost table.now) }
{
    after_given(given, cost, table) && sooner(limit, best_table, cost, table)
}

pub fn keep(
    problem: &Problem,
    given: Option<Given>,
    node: Node,
    choices: &[u64; 256],
    limit: Limit,
    plan: &mut [u8],
) -> Limit
    requires ready { Ready (problem_by problem.now) node limit plan.old }
    requires given_costed { CostedGiven (problem_by problem.now) given }
    requires settles { Settles problem.now.slots.now node.must choices.now }
    ensures { Walked (problem_by problem.now) (asked_of given.entry) node choices.now limit plan.old result plan.new }
{
    let set = node.must;
    let table = table_of(problem.slots, set, choices);
    let candidate = &table[..plan.len()];
    let its = Plan {
        set,
        table: candidate,
    };
    let Ok(cost) = judge(problem, &its) else {
        return limit;
    };
    if !sought(given, limit, plan, cost, candidate) {
        return limit;
    }
    plan.copy_from_slice(candidate);
    Limit::Before(Listed { set, cost })
}
