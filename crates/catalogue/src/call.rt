// The survey that every call but read begins with: the refusals 1 to 8 in their order, and where none applies the set of the entries that fit each slot.
ghost use Rattle.catalogue.specs.Tables.{lent_of};
ghost use Rattle.catalogue.specs.Survey.{Surveys};

use crate::Lent;
use crate::index::index_slots;
use crate::packing::keys;
use crate::refusals::{setup_refusal, shape_refusal};
use crate::table::FewEntries;
use basis::Refusal;

// No text is cut before 1 to 3 are tested, and every constraint is read before 5 to 8 are.
// (The last answer has a name, so that an edit which asks another step for it is refused for what that answers.)
pub fn survey(lent: &Lent, room: usize) -> Result<[u64; 256], Refusal>
    ensures { Surveys (lent_of lent.now) room result }
{
    shape_refusal(lent)?;
    let entries = FewEntries::of(lent.entries);
    let packed = keys(entries);
    let fits = index_slots(lent, &packed[..entries.count()])?;
    let rest = setup_refusal(lent, room);
    rest?;
    Ok(fits)
}
