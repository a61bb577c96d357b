// The records of one plan's members: the text is walked once, and each entry's line that is a member's gives a record.
ghost use Rattle.report.specs.Telling.{MemberRoom, MemberTold, Underway, Tells, Tellable, AllTold};

use crate::put::Output;
use csv_text::line;
use csv_text::line::{EntryParts, Record};

// A plan that is shown: its set, and its number in the output.
#[derive(Clone, Copy)]
pub struct Shown {
    pub set: u64,
    pub number: u8,
}

// How far the text is read, and how many entries were declared so far.
#[derive(Clone, Copy)]
pub struct Place {
    pub at: usize,
    pub entries: u32,
}

// The record of the entry whose line a text begins with, where it is a member. Its version field ends with the next comma.
fn member(rest: &[u8], entry: EntryParts, plan: Shown, index: u32, output: &mut Output)
    requires { MemberRoom rest.now entry plan output.old }
    ensures { MemberTold rest.now entry plan index output.old output.new }
{
    if !bitset::has(plan.set, index) {
        return;
    }
    let version = entry.name + 1;
    let end = version + csv_text::plain_bytes(&rest[version..]);
    output.member(plan.number, &rest[..end]);
}

// Past one line more.
fn next(text: &[u8], plan: Shown, here: Place, output: &mut Output) -> Place
    requires { Underway text.now plan here output.old }
    ensures { Tells text.now plan here output.old result output.new }
{
    let from = here.at + 2;
    let rest = &text[from..];
    match line::parse(rest) {
        Some(Record::Entry(entry)) => {
            member(rest, entry, plan, here.entries, output);
            Place {
                at: from + entry.used,
                entries: here.entries + 1,
            }
        }
        Some(Record::Slot(slot)) => Place {
            at: from + slot.used,
            entries: here.entries,
        },
        // (It does not come to that: the text is in the layout.)
        None => here,
    }
}

// All members of a plan.
pub fn all(text: &[u8], plan: Shown, output: &mut Output)
    requires { Tellable text.now plan output.old }
    ensures { AllTold text.now plan output.old output.new }
{
    let mut here = Place {
        at: csv_text::HEADER,
        entries: 0,
    };
    // (How far the text is read is told by the record that was read, so this stays a loop.)
    while here.at + 2 < text.len() {
        here = next(text, plan, here, output);
    }
}
