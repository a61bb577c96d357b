// Where the slots of each entry stand: an array of 65, so that the slots of entry e are those from `first[e]` on, before `first[e + 1]`.
ghost use Rattle.std.specs.Prelude.{ℕ, ◌/◌, ◌≤◌, length, get_or};
ghost use Rattle.catalogue.specs.Spans.{Rising, Spans, Bounded, Past};

use crate::fields::{OWNER, slot_field};

// The spans of at most 256 slots.
#[derive(Clone, Copy)]
pub struct SlotSpans {
    pub first: [usize; 65],
    pub ghost bounded: { Bounded first },
}

impl SlotSpans {
    pub fn of(slots: &[u16]) -> SlotSpans
        requires few { length slots.now / 4 ≤ 256 }
        ensures { Rising slots.now → Spans slots.now result.first }
    {
        SlotSpans {
            first: spans(slots),
        }
    }
}

// The first slot, of those from `from` on, whose owner is e or above; the end where there is none.
fn past(slots: &[u16], from: usize, e: usize) -> usize
    requires { from ≤ length slots.now / 4 }
    ensures { Past slots.now from e result }
{
    let count = slots.len() / 4;
    (from..count)
        .find(|s| e <= usize::from(slot_field(slots, *s, OWNER)))
        .unwrap_or(count)
}

// The spans of the slots of all entries.
pub fn spans(slots: &[u16]) -> [usize; 65]
    ensures within { (e : ℕ) → e ≤ 64 → get_or result e 0 ≤ length slots.now / 4 }
    ensures spans { Rising slots.now → Spans slots.now result }
{
    let mut first = [0usize; 65];
    let mut at: usize = 0;
    for (e, start) in first.iter_mut().enumerate() {
        at = past(slots, at, e);
        *start = at;
    }
    first
}
