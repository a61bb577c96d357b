// The refusals of the slot table, all 3: its shape, its owners and its marks in the text.
ghost use Rattle.basis.specs.Tests.{Decides};
ghost use Rattle.catalogue.specs.Refusals.{SlotsMisshapen, OwnerMissing, OwnersFall, MarksCross, EndPastText};
ghost use Rattle.catalogue.specs.Parts.{tables, slots_alone};
ghost use Rattle.std.specs.Prelude.{[]};

use crate::fields::{END, OWNER, START, slot_field};

// Not a multiple of four, or over 256 slots.
pub fn slots_misshapen(slots: &[u16]) -> bool
    ensures { Decides result (SlotsMisshapen (slots_alone slots.now)) }
{
    let n = slots.len();
    n % 4 != 0 || n / 4 > 256
}

// An owner that is no entry.
pub fn owner_missing(entries: &[u16], slots: &[u16]) -> bool
    ensures { Decides result (OwnerMissing (tables entries.now slots.now [])) }
{
    let count = entries.len() / 5;
    (0..slots.len() / 4).any(|s| usize::from(slot_field(slots, s, OWNER)) >= count)
}

// An owner below the one before.
pub fn owners_fall(slots: &[u16]) -> bool
    ensures { Decides result (OwnersFall (slots_alone slots.now)) }
{
    (1..slots.len() / 4).any(|s| slot_field(slots, s, OWNER) < slot_field(slots, s - 1, OWNER))
}

// A start after its end.
pub fn marks_cross(slots: &[u16]) -> bool
    ensures { Decides result (MarksCross (slots_alone slots.now)) }
{
    (0..slots.len() / 4).any(|s| slot_field(slots, s, END) < slot_field(slots, s, START))
}

// An end past the text.
pub fn end_past_text(slots: &[u16], text: &[u8]) -> bool
    ensures { Decides result (EndPastText (tables [] slots.now text.now)) }
{
    (0..slots.len() / 4).any(|s| usize::from(slot_field(slots, s, END)) > text.len())
}
