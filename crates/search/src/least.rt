// The least plan of those asked for: the walk from the node that every plan is inside of, narrowed once, in rounds. A round looks below a bound on the first number of
// the cost; where it finds a plan, that is the least of all, and where it finds none there is none below the bound. So any rising bounds are right.
ghost use Rattle.std.specs.Prelude.{List, ℕ, ◌⊎◌, ◌≡◌, ◌+◌, ◌/◌, ◌≤◌, ◌<◌, Some, length};
ghost use Rattle.bitset.specs.Changes.{With};
ghost use Rattle.catalogue.specs.declared.Settings.{Settings as Setting};
ghost use Rattle.catalogue.specs.Spans.{Rising};
ghost use Rattle.catalogue.specs.Survey.{tabled};
ghost use Rattle.plan.specs.Posing.{problem_by};
ghost use Rattle.price.specs.Floor.{Moderate};
ghost use Rattle.price.specs.Worth.{Apart};
ghost use Rattle.node.specs.Facts.{FactsFor, FactsOf};
ghost use Rattle.node.specs.Sought.{asked_of};
ghost use Rattle.search.specs.Found.{Posed, Whole, Above, Found, FoundUnder, firstly};

use crate::walk::walk;
use catalogue::spans::SlotSpans;
use node::clash::{alikes, clashes};
use node::narrow::narrow;
use node::{Facts, Given, Limit, Node};
use pacsolve::{Cost, Listed};
use plan::Problem;
use plan::costs::weight;
use price::Rates;
use price::floor::{Ground, lay};
use price::packages::base_prices;
use price::worths::scale;

// More than the first number of any cost: all weights together, or the other numbers, which stay below 128.
fn above(entries: &[u16]) -> u32
    requires { length entries.now / 5 ≤ 64 }
    ensures most { result ≤ 4194432 }
    ensures above { (slots objectives fits : List ℕ) (settings : Setting) → Above (tabled entries.now slots settings objectives fits) result }
{
    weight(entries, u64::MAX) + 128
}

// No plan yet, and a bound on the first number of the cost.
fn under(bound: u32) -> Limit
    ensures { result ≡ Limit.Under (firstly bound) }
{
    Limit::Under(Cost {
        first: bound,
        second: 0,
        third: 0,
    })
}

// What the search works out of the tables.
fn facts_of(entries: &[u16], slots: &[u16], objectives: &[u8], mode: u8) -> Facts
    requires few_entries { length entries.now / 5 ≤ 64 }
    requires few_slots { length slots.now / 4 ≤ 256 }
    requires rising { Rising slots.now }
    requires apart { Apart objectives.now }
    ensures { FactsOf entries.now slots.now objectives.now mode result }
{
    let alike = alikes(entries);
    let scale = scale(objectives);
    Facts {
        spans: SlotSpans::of(slots),
        clash: clashes(entries, mode, &alike),
        rates: Rates {
            alike,
            base: base_prices(entries, objectives, scale),
            scale,
        },
    }
}

// The node that every plan is inside of.
fn root_alone(root: u32) -> Node
    ensures must { With 0 root result.must }
    ensures free { result.ban ≡ 0 }
{
    Node {
        must: bitset::with(0, root),
        ban: 0,
    }
}

// The first number that a floor comes to, and no more than a bound.
fn first_of(ground: Ground, unit: u64, top: u32) -> u32 {
    let most = u64::from(top);
    let first = ground.sum.saturating_sub(ground.credit).checked_div(unit);
    first.map_or(0, |first| first.min(most) as u32)
}

// A bound to begin with: the floor of the node, or the given plan's cost. No promise rests on it.
fn guess(facts: &Facts, given: Option<Given>, must: u64, left: &[u64; 256], top: u32) -> u32
    requires { Moderate facts.now.rates.base facts.now.rates.scale }
{
    let mut price = [0u64; 64];
    let ground = lay(&facts.rates, &facts.spans, must, left, &mut price);
    let low = first_of(ground, facts.rates.scale.first, top);
    given.map_or(low, |known| low.max(known.cost.first))
}

// One round.
fn round(
    problem: &Problem,
    facts: &Facts,
    given: Option<Given>,
    node: Node,
    left: &[u64; 256],
    bound: u32,
    plan: &mut [u8],
) -> Option<Listed>
    requires posed { Posed (problem_by problem.now) given plan.old }
    requires whole { Whole (problem_by problem.now) (asked_of given) (Some node) left.now }
    requires known { FactsFor problem.now facts.now }
    ensures { FoundUnder (problem_by problem.now) (asked_of given.entry) (firstly bound) plan.old result plan.new }
{
    match walk(problem, facts, given, node, left, under(bound), plan) {
        Limit::Before(best) => Some(best),
        Limit::Under(_) => None,
    }
}

// A bound with more, and no more than the top.
fn raised(bound: u32, more: u32, top: u32) -> u32
    ensures { (result ≡ top) ⊎ ((result ≡ bound + more) × (result < top)) }
{
    bound.saturating_add(more).min(top)
}

// Rounds with bounds that rise ever faster, up to the top, which is above every cost.
fn rounds(
    problem: &Problem,
    facts: &Facts,
    given: Option<Given>,
    node: Node,
    left: &[u64; 256],
    top: u32,
    plan: &mut [u8],
) -> Option<Listed>
    requires posed { Posed (problem_by problem.now) given plan.old }
    requires whole { Whole (problem_by problem.now) (asked_of given) (Some node) left.now }
    requires known { FactsFor problem.now facts.now }
    requires most { top ≤ 4194432 }
    requires above { Above (problem_by problem.now) top }
    ensures { Found (problem_by problem.now) (asked_of given.entry) plan.old result plan.new }
{
    let mut bound = guess(facts, given, node.must, left, top);
    let mut more: u32 = 1;
    // (The bound and its step are carried from round to round, and the last bound ends it, so this stays a loop.)
    loop {
        bound = raised(bound, more, top);
        let best = round(problem, facts, given, node, left, bound, plan);
        if best.is_some() || bound == top {
            return best;
        }
        more *= 2;
    }
}

pub fn least(problem: &Problem, given: Option<Given>, plan: &mut [u8]) -> Option<Listed>
    requires { Posed (problem_by problem.now) given plan.old }
    ensures { Found (problem_by problem.now) (asked_of given.entry) plan.old result plan.new }
{
    let facts = facts_of(
        problem.entries,
        problem.slots,
        problem.objectives,
        problem.settings.mode,
    );
    let top = above(problem.entries);
    let root = root_alone(problem.settings.root as u32);
    let mut left = *problem.fits;
    let mut price = [0u64; 64];
    let node = narrow(
        problem,
        &facts,
        under(top),
        plan,
        root,
        &mut left,
        &mut price,
    )?;
    rounds(problem, &facts, given, node, &left, top, plan)
}
