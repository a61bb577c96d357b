// The order of the refusals: the rows are tested in turn, and the first that applies refuses.
ghost use Rattle.std.specs.Prelude.{◌/◌, ◌≤◌, length};
ghost use Rattle.catalogue.specs.Tables.{lent_of};
ghost use Rattle.catalogue.specs.Steps.{Numbered, shape_rows, setup_rows};

use crate::Lent;
use crate::entries::{entries_misshapen, entry_twice};
use crate::setup::{
    buffer_misfits, cycles_unknown, mode_unknown, objective_twice, objective_unknown,
    objectives_misnumbered, root_missing,
};
use crate::slots::{end_past_text, marks_cross, owner_missing, owners_fall, slots_misshapen};
use crate::table::FewEntries;
use crate::weights::weights_overflow;
use basis::Refusal;

// 1 to 3, what is tested before any part of the text is cut.
pub fn shape_refusal(lent: &Lent) -> Result<(), Refusal>
    ensures { Numbered (shape_rows (lent_of lent.now)) result }
{
    if entries_misshapen(lent.entries) {
        return Err(Refusal::Entries);
    }
    if entry_twice(FewEntries::of(lent.entries)) {
        return Err(Refusal::EntryTwice);
    }
    if slots_misshapen(lent.slots)
        || owner_missing(lent.entries, lent.slots)
        || owners_fall(lent.slots)
        || marks_cross(lent.slots)
        || end_past_text(lent.slots, lent.text)
    {
        return Err(Refusal::Slots);
    }
    Ok(())
}

// 5 to 8, what is tested after every constraint is read.
pub fn setup_refusal(lent: &Lent, room: usize) -> Result<(), Refusal>
    requires { length lent.now.entries.now / 5 ≤ 64 }
    ensures { Numbered (setup_rows (lent_of lent.now) room) result }
{
    if root_missing(lent.entries, lent.settings) {
        return Err(Refusal::Root);
    }
    if mode_unknown(lent.settings)
        || cycles_unknown(lent.settings)
        || objectives_misnumbered(lent.objectives)
        || objective_unknown(lent.objectives)
        || objective_twice(lent.objectives)
    {
        return Err(Refusal::Settings);
    }
    if buffer_misfits(lent.slots, room) {
        return Err(Refusal::Size);
    }
    if weights_overflow(FewEntries::of(lent.entries)) {
        return Err(Refusal::Weights);
    }
    Ok(())
}
