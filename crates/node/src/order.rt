// Which of two plans comes first: the one of lower cost and, at equal cost, the one whose table is lower at the first slot where the two differ.
ghost use Rattle.basis.specs.Tests.{Decides};
ghost use Rattle.pacsolve.specs.Cost.{numbers};
ghost use Rattle.pacsolve.specs.Order.{Earlier};
ghost use Rattle.node.specs.Order.{Ahead, AfterGiven, Sooner};

use crate::{Given, Limit};
use pacsolve::Cost;

// A table that ends before the two differ is not earlier, and nothing is earlier than it; the library's order of slices puts it first.
pub fn earlier(a: &[u8], b: &[u8]) -> bool
    ensures { Decides result (Earlier a.now b.now) }
{
    for (x, y) in a.iter().zip(b) {
        if x != y {
            return x < y;
        }
    }
    false
}

// (A name for the derived order, whose promise is about the numbers of a cost.)
fn cheaper(a: Cost, b: Cost) -> bool
    ensures { Decides result (Earlier (numbers a) (numbers b)) }
{
    a < b
}

fn ahead(a: Cost, s: &[u8], b: Cost, t: &[u8]) -> bool
    ensures { Decides result (Ahead a s.now b t.now) }
{
    cheaper(a, b) || (a == b && earlier(s, t))
}

// Whether a plan comes after the one that is given, where one is.
pub fn after_given(given: Option<Given>, cost: Cost, table: &[u8]) -> bool
    ensures { Decides result (AfterGiven given.entry cost table.now) }
{
    match given {
        Some(past) => ahead(past.cost, past.plan.table, cost, table),
        None => true,
    }
}

// Whether a plan is below the limit.
pub fn sooner(limit: Limit, best_table: &[u8], cost: Cost, table: &[u8]) -> bool
    ensures { Decides result (Sooner limit best_table.now cost table.now) }
{
    match limit {
        Limit::Under(bound) => cheaper(cost, bound),
        Limit::Before(best) => ahead(cost, table, best.cost, best_table),
    }
}
