// What follows at a node from slots with no choice or a single one. A slot of a member names a member, so no banned entry is a choice. Where no choice is left,
// the slot's owner cannot be there; where one is left and the owner must be there, so must that one.
ghost use Rattle.std.specs.Prelude.{Some, List, ℕ, ◌+◌, ◌<◌, slice_index};
ghost use Rattle.catalogue.specs.Spans.{Spans};
ghost use Rattle.node.specs.declared.Node.{Node as ANode};
ghost use Rattle.node.specs.Settling.{SlotSettled, SlotsOf, SettledBy};

use crate::Node;
use crate::banned::ban_all;
use crate::holds::{Held, all_but, held_by};
use catalogue::spans::SlotSpans;

// What one slot makes of a node, by the choices that are left of it.
fn settle_slot(node: Node, owner: u32, left: u64) -> Option<Node>
    ensures { SlotSettled node owner left result }
{
    let owned = bitset::has(node.must, owner);
    let Node { must, ban } = node;
    match held_by(left) {
        Held::Nothing if owned => None,
        Held::Nothing => Some(Node {
            must,
            ban: bitset::with(ban, owner),
        }),
        Held::One(e) if owned => Some(Node {
            must: bitset::with(must, e),
            ban,
        }),
        _ => Some(node),
    }
}

// The slots of entry e. What was settled before stays settled.
fn settle_entry(spans: &SlotSpans, node: Node, e: u32, choices: &mut [u64; 256]) -> Option<Node>
    requires { e < 64 }
    ensures { (slots old : List ℕ) (before : ANode) → SlotsOf slots e (slice_index spans.now.first e) (slice_index spans.now.first (e + 1)) → SettledBy slots before (Some node) old choices.old → SettledBy slots before result old choices.new }
{
    let mut known = node;
    let at = e as usize;
    for s in spans.first[at]..spans.first[at + 1] {
        let left = all_but(choices[s], known.ban);
        choices[s] = left;
        known = settle_slot(known, e, left)?;
    }
    Some(known)
}

// An entry that is banned has no slot to settle.
pub fn settle(spans: &SlotSpans, node: Node, choices: &mut [u64; 256]) -> Option<Node>
    ensures { (slots : List ℕ) → Spans slots spans.now.first → SettledBy slots node result choices.old choices.new }
{
    let mut known = node;
    for e in bitset::members(!node.ban) {
        known = settle_entry(spans, known, e, choices)?;
    }
    ban_all(known, 0)
}
