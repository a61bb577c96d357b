// The walk over nodes: a node is narrowed, a slot is decided in every way that is left, and a node with nothing to decide holds one plan.
ghost use Rattle.std.specs.Prelude.{◌≡◌, ℕ, ◌^◌, ◌<◌, bit_or};
ghost use Rattle.plan.specs.Posing.{problem_by};
ghost use Rattle.node.specs.Facts.{FactsFor};
ghost use Rattle.node.specs.Narrowing.{Ready};
ghost use Rattle.node.specs.Sought.{CostedGiven, asked_of};
ghost use Rattle.search.specs.Picks.{Halved};
ghost use Rattle.search.specs.Walks.{Walked};

use crate::Pick;
use crate::choose::choose;
use crate::keep::keep;
use crate::pick_slot::pick;
use node::narrow::narrow;
use node::{Facts, Given, Limit, Node};
use plan::Problem;

// A choice of several, and the others.
#[derive(Clone, Copy)]
struct Halves {
    one: u64,
    rest: u64,
}

// Any choice will do: one that must be there anyway if there is one, else the cheapest.
fn halve(all: u64, must: u64, price: &[u64; 64]) -> Halves
    ensures fits { all < 2 ^ 64 }
    ensures parted { ¬ (all ≡ 0) → (e : ℕ) × Halved all result.one result.rest e }
{
    let e = choose(all, must, price);
    let one = bitset::with(0, e);
    let rest = bitset::without(all, e);
    Halves { one, rest }
}

// A node with the only choice of a slot as a must.
fn forced(node: Node, only: u64) -> Node
    ensures fits { only < 2 ^ 64 }
    ensures forced { result ≡ record { must = bit_or node.must only; ban = node.ban } }
{
    Node {
        must: node.must | only,
        ban: node.ban,
    }
}

// (The problem, the facts and the given plan stay parameters of their own: narrow, pick and keep each take others of them, so a struct would be taken apart at every call.)
pub fn walk(
    problem: &Problem,
    facts: &Facts,
    given: Option<Given>,
    node: Node,
    choices: &[u64; 256],
    limit: Limit,
    plan: &mut [u8],
) -> Limit
    requires ready { Ready (problem_by problem.now) node limit plan.old }
    requires given_costed { CostedGiven (problem_by problem.now) given }
    requires known { FactsFor problem.now facts.now }
    ensures { Walked (problem_by problem.now) (asked_of given.entry) node choices.now limit plan.old result plan.new }
{
    let mut at = node;
    let mut left = *choices;
    let mut found = limit;
    let mut price = [0u64; 64];
    // (What is narrowed next is made in the loop, so this is no `for`.)
    while let Some(next) = narrow(problem, facts, found, plan, at, &mut left, &mut price) {
        at = next;
        match pick(problem.slots, at.must, &left, &price) {
            Pick::Dead => return found,
            Pick::Complete => return keep(problem, given, at, &left, found, plan),
            Pick::Force(s) => at = forced(at, left[s]),
            Pick::Split(s) => {
                let halves = halve(left[s], at.must, &price);
                left[s] = halves.one;
                found = walk(problem, facts, given, at, &left, found, plan);
                left[s] = halves.rest;
            }
        }
    }
    found
}
