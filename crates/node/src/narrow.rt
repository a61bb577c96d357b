// Narrowing a node: only what no plan that is sought has is dropped. Each step keeps that promise whatever the others did, so the order of the steps and the number
// of rounds are free: the cheap steps come first, and a round that drops nothing is the last.
ghost use Rattle.bitset.specs.Bits.{Member};
ghost use Rattle.pacsolve.specs.Listing.{Asked};
ghost use Rattle.catalogue.specs.Spans.{Spans};
ghost use Rattle.plan.specs.declared.Problem.{Problem as LentProblem};
ghost use Rattle.plan.specs.Posing.{problem_by};
ghost use Rattle.node.specs.Facts.{FactsFor};
ghost use Rattle.node.specs.Steps.{Settled};
ghost use Rattle.node.specs.Sought.{limit_of};
ghost use Rattle.node.specs.Narrowing.{Ready, Narrowed};

use crate::afford::afford;
use crate::clash_ban::clash_banned;
use crate::forced_arrows::forced_arrows;
use crate::grounded::grounded;
use crate::settle::settle;
use crate::within_reach::within_reach;
use crate::{Facts, Limit, Node};
use catalogue::spans::SlotSpans;
use plan::Problem;

// Rounds after which a node is taken as it is. Each but the last drops something, and few drop something to the end.
const ROUNDS: u32 = 64;

// What slots with few choices and what clashes tell.
fn sorted_out(facts: &Facts, node: Node, choices: &mut [u64; 256]) -> Option<Node>
    ensures { (q : LentProblem) → FactsFor q facts.now → Settled (problem_by q) node result choices.old choices.new }
{
    let settled = settle(&facts.spans, node, choices)?;
    clash_banned(settled, &facts.clash)
}

// What the walks of a plan tell: it has no cycles where they are forbidden, and all of it is reached.
fn walked_through(
    problem: &Problem,
    spans: &SlotSpans,
    node: Node,
    choices: &mut [u64; 256],
) -> Option<Node>
    requires spans { Spans problem.now.slots.now spans.now.first }
    requires rooted { Member node.must problem.now.settings.root }
    ensures { Settled (problem_by problem.now) node result choices.old choices.new }
{
    let settings = problem.settings;
    let standing = grounded(spans, settings, node, choices)?;
    let pointed = forced_arrows(spans, settings, standing, choices)?;
    within_reach(spans, pointed, choices)
}

// One round: as soon as a cheap step drops something, the round is over.
fn once(
    problem: &Problem,
    facts: &Facts,
    limit: Limit,
    plan: &[u8],
    node: Node,
    choices: &mut [u64; 256],
    price: &mut [u64; 64],
) -> Option<Node>
    requires ready { Ready (problem_by problem.now) node limit plan.now }
    requires facts { FactsFor problem.now facts.now }
    ensures { (q : Asked) → Narrowed (problem_by problem.now) q (limit_of limit plan.now) node choices.old result choices.new }
{
    let sorted = sorted_out(facts, node, choices)?;
    if sorted != node {
        return Some(sorted);
    }
    let walked = walked_through(problem, &facts.spans, sorted, choices)?;
    if walked != sorted {
        return Some(walked);
    }
    afford(problem, facts, limit, plan, walked, choices, price)
}

pub fn narrow(
    problem: &Problem,
    facts: &Facts,
    limit: Limit,
    plan: &[u8],
    node: Node,
    choices: &mut [u64; 256],
    price: &mut [u64; 64],
) -> Option<Node>
    requires ready { Ready (problem_by problem.now) node limit plan.now }
    requires facts { FactsFor problem.now facts.now }
    ensures { (q : Asked) → Narrowed (problem_by problem.now) q (limit_of limit plan.now) node choices.old result choices.new }
{
    let mut at = node;
    for _ in 0..ROUNDS {
        let next = once(problem, facts, limit, plan, at, choices, price)?;
        if next == at {
            return Some(next);
        }
        at = next;
    }
    Some(at)
}
