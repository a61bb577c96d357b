// A member of a plan is reached from the root along choices. The reach is grown from what must be there, by the choices of the slots of each entry in it; what it
// leaves out is banned.
ghost use Rattle.std.specs.Prelude.{List, ℕ, ◌+◌, ◌<◌, slice_index};
ghost use Rattle.bitset.specs.Bits.{Member};
ghost use Rattle.catalogue.specs.declared.Settings.{Settings as Setting};
ghost use Rattle.catalogue.specs.Spans.{Spans};
ghost use Rattle.catalogue.specs.Survey.{tabled};
ghost use Rattle.node.specs.Reaching.{Taken, OutOfReach};
ghost use Rattle.node.specs.Steps.{Settled};

use crate::Node;
use crate::banned::ban_all;
use catalogue::spans::SlotSpans;

// The reach with the choices of an entry's slots.
fn taken(spans: &SlotSpans, e: u32, choices: &[u64; 256], reach: u64) -> u64
    requires { e < 64 }
    ensures { Taken (slice_index spans.now.first e) (slice_index spans.now.first (e + 1)) choices.now reach result }
{
    let mut found = reach;
    let at = e as usize;
    for s in spans.first[at]..spans.first[at + 1] {
        found |= choices[s];
    }
    found
}

// What is outside the reach. Each entry in the reach is passed once: then its slots have their choices in it. The work grows as it is done, so this stays a loop.
fn out_of_reach(spans: &SlotSpans, choices: &[u64; 256], must: u64) -> u64
    ensures { (slots : List ℕ) → Spans slots spans.now.first → OutOfReach slots choices.now must result }
{
    let mut reach = must;
    let mut passed = 0;
    while reach & !passed != 0 {
        let e = bitset::lowest(reach & !passed);
        passed = bitset::with(passed, e);
        reach = taken(spans, e, choices, reach);
    }
    !reach
}

// What the choices do not lead to is in no plan.
pub fn within_reach(spans: &SlotSpans, node: Node, choices: &[u64; 256]) -> Option<Node>
    ensures { (entries slots objectives fits : List ℕ) (settings : Setting) → Spans slots spans.now.first → Member node.must settings.root → Settled (tabled entries slots settings objectives fits) node result choices.now choices.now }
{
    let out = out_of_reach(spans, choices, node.must);
    ban_all(node, out)
}
