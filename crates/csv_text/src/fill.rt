// Pass two over a text that is in the layout and within the limits: it fills the lent tables.
ghost use Rattle.csv_text.specs.Filling.{Underway, Fills, Fillable, Filled, EntryRoom, Declares, SlotRoom, Wants};

use crate::count::{Progress, START};
use crate::line;
use crate::line::{EntryParts, Record, SlotParts};
use crate::packages::Names;

// Past an entry's line, whose five numbers are written behind those before it.
fn declare(
    text: &[u8],
    here: Progress,
    entry: EntryParts,
    names: &mut Names,
    entries: &mut [u16],
) -> Progress
    requires { EntryRoom text.now here entry names.old entries.old }
    ensures { Declares text.now here entry names.old entries.old result names.new entries.new }
{
    let from = here.at + 2;
    let name_end = from + entry.name;
    let package = names.number(text, from, name_end);
    let row = 5 * here.entries;
    entries[row..row + 5].copy_from_slice(&[
        package as u16,
        entry.version.major,
        entry.version.minor,
        entry.version.patch,
        entry.weight,
    ]);
    Progress {
        at: from + entry.used,
        entries: here.entries + 1,
        slots: here.slots,
    }
}

// Past a slot's line. Its owner is the entry last declared.
fn want(
    text: &[u8],
    here: Progress,
    slot: SlotParts,
    names: &mut Names,
    slots: &mut [u16],
) -> Progress
    requires { SlotRoom text.now here slot names.old slots.old }
    ensures { Wants text.now here slot names.old slots.old result names.new slots.new }
{
    let from = here.at + 2;
    let name = from + 3;
    let name_end = name + slot.name;
    let package = names.number(text, name, name_end);
    let owner = here.entries - 1;
    let start = name_end + 1;
    let end = start + slot.constraint;
    let row = 4 * here.slots;
    slots[row..row + 4].copy_from_slice(&[owner as u16, package as u16, start as u16, end as u16]);
    Progress {
        at: from + slot.used,
        entries: here.entries,
        slots: here.slots + 1,
    }
}

// Past one line more.
fn next(
    text: &[u8],
    here: Progress,
    names: &mut Names,
    entries: &mut [u16],
    slots: &mut [u16],
) -> Progress
    requires { Underway text.now here names.old entries.old slots.old }
    ensures { Fills text.now here names.old entries.old slots.old result names.new entries.new slots.new }
{
    let from = here.at + 2;
    match line::parse(&text[from..]) {
        Some(Record::Entry(entry)) => declare(text, here, entry, names, entries),
        Some(Record::Slot(slot)) => want(text, here, slot, names, slots),
        // (It does not come to that: the text is in the layout.)
        None => here,
    }
}

// All lines of a text.
pub fn tables(text: &[u8], entries: &mut [u16], slots: &mut [u16])
    requires { Fillable text.now entries.old slots.old }
    ensures { Filled text.now entries.old slots.old entries.new slots.new }
{
    let mut names = Names::none();
    let mut here = START;
    // (How far the text is read is told by the record that was read, so this stays a loop.)
    while here.at + 2 < text.len() {
        here = next(text, here, &mut names, entries, slots);
    }
}
