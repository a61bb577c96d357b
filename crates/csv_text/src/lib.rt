// Reading a catalogue from text: the answer, and the public call.
#![tactic(auto)]

use basis::Refusal;

mod count;
mod field;
mod fill;
pub mod line;
mod packages;
mod word;

ghost use Rattle.csv_text.specs.Reading.{Reads};

pub use field::plain_bytes;
pub use word::HEADER;

// The numbers of entries and slots that the tables hold.
#[derive(Clone, Copy)]
pub struct Sheet {
    pub entries: u16,
    pub slots: u16,
}

// Fills lent tables of 320 and 1024 numbers from a text. A refusal leaves both as they were.
pub fn read(text: &[u8], entries: &mut [u16], slots: &mut [u16]) -> Result<Sheet, Refusal>
    ensures { Reads text.now entries.old slots.old result entries.new slots.new }
{
    if entries.len() != 320 || slots.len() != 1024 {
        return Err(Refusal::Size);
    }
    let Some(counted) = count::lines(text) else {
        return Err(Refusal::Text);
    };
    if counted.entries == 0 || counted.entries > 64 {
        return Err(Refusal::Entries);
    }
    if counted.slots > 256 {
        return Err(Refusal::Slots);
    }
    fill::tables(text, entries, slots);
    Ok(Sheet {
        entries: counted.entries as u16,
        slots: counted.slots as u16,
    })
}
