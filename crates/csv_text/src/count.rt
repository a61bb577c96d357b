// Pass one over the text: whether it is in the layout, and how many entries and slots it declares. It writes nothing.
ghost use Rattle.csv_text.specs.Walk.{Unfinished, Advances, Counts};

use crate::line::Record;
use crate::{line, word};

// How far the text is read, and how many entries and slots were declared so far.
#[derive(Clone, Copy)]
pub struct Progress {
    pub at: usize,
    pub entries: usize,
    pub slots: usize,
}

// Before the first record: what follows the header.
pub const START: Progress = Progress {
    at: word::HEADER,
    entries: 0,
    slots: 0,
};

// Past one line more: the record behind the CR LF at `here.at`. There is none where the text is outside the layout, as with a slot before any entry.
fn advance(text: &[u8], here: Progress) -> Option<Progress>
    requires { Unfinished text.now here }
    ensures { Advances text.now here result }
{
    let from = here.at + 2;
    match line::parse(&text[from..])? {
        Record::Entry(entry) => Some(Progress {
            at: from + entry.used,
            entries: here.entries + 1,
            slots: here.slots,
        }),
        Record::Slot(slot) => {
            if here.entries == 0 {
                return None;
            }
            Some(Progress {
                at: from + slot.used,
                entries: here.entries,
                slots: here.slots + 1,
            })
        }
    }
}

// What all lines of a text declare, if it is in the layout.
pub fn lines(text: &[u8]) -> Option<Progress>
    ensures { Counts text.now result }
{
    if text.len() > 65535 || !word::headed(text) {
        return None;
    }
    // It stays a loop: an iterator of records would carry the same state, and say no sooner where the text is outside the layout.
    let mut here = START;
    while here.at + 2 < text.len() {
        here = advance(text, here)?;
    }
    Some(here)
}
