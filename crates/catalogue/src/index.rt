// The sets of the entries that fit each slot, one bit per entry: for each slot its constraint is read once for all versions, and what satisfies it is met with the
// entries of the wanted package. A constraint that is not read is refused by 4.
ghost use Rattle.std.specs.Prelude.{◌/◌, ◌<◌, length};
ghost use Rattle.catalogue.specs.Tables.{lent_of, slot_count};
ghost use Rattle.catalogue.specs.Parts.{entries_alone};
ghost use Rattle.catalogue.specs.Steps.{Shaped, Keys, OfPackage, Finds, FindsAll};

use crate::Lent;
use crate::fields::{END, PACKAGE, START, WANTED, entry_field, slot_field};
use crate::table::FewEntries;
use basis::Refusal;

// The set of the entries of a package.
fn of_package(entries: FewEntries, wanted: u16) -> u64
    ensures { OfPackage (entries_alone entries.entry.numbers.now) wanted (length entries.entry.numbers.now / 5) result }
{
    let mut set: u64 = 0;
    for e in 0..entries.count() {
        if entry_field(entries.numbers, e, PACKAGE) == wanted {
            set = bitset::with(set, e as u32);
        }
    }
    set
}

// The set of the entries that fit slot s. The slot's part of the text is cut only where no row on the tables applies.
fn slot_fits(lent: &Lent, keys: &[u64], s: usize) -> Result<u64, Refusal>
    requires shaped { Shaped (lent_of lent.now) }
    requires keys { Keys lent.now.entries.now keys.now }
    requires s_bound { s < slot_count (lent_of lent.now) }
    ensures { Finds (lent_of lent.now) s result }
{
    let start = usize::from(slot_field(lent.slots, s, START));
    let end = usize::from(slot_field(lent.slots, s, END));
    let Some(set) = constraint::select(&lent.text[start..end], keys) else {
        return Err(Refusal::Constraint);
    };
    let wanted = slot_field(lent.slots, s, WANTED);
    Ok(set & of_package(FewEntries::of(lent.entries), wanted))
}

// The sets of all slots. The first constraint that is not read ends it.
pub fn index_slots(lent: &Lent, keys: &[u64]) -> Result<[u64; 256], Refusal>
    requires shaped { Shaped (lent_of lent.now) }
    requires keys { Keys lent.now.entries.now keys.now }
    ensures { FindsAll (lent_of lent.now) result }
{
    let mut fits = [0u64; 256];
    for s in 0..lent.slots.len() / 4 {
        fits[s] = slot_fits(lent, keys, s)?;
    }
    Ok(fits)
}
