// What boxplan prints for a text, put into a lent buffer.
#![tactic(auto)]

mod members;
mod plans;
mod put;

ghost use Rattle.report.specs.Output.{Printed};

use put::Output;

// The output for a text, and its length. 32,768 bytes are enough for the header and eight plans of 64 members.
pub fn output(text: &[u8], out: &mut [u8; 32768]) -> usize
    ensures { Printed text.now out.old result out.new }
{
    let mut output = Output {
        bytes: out,
        filled: 0,
    };
    let mut entries = [0u16; 320];
    let mut slots = [0u16; 1024];
    match csv_text::read(text, &mut entries, &mut slots) {
        Err(refusal) => output.refusal(refusal),
        Ok(sheet) => {
            let declared = 5 * sheet.entries as usize;
            let wanted = 4 * sheet.slots as usize;
            plans::listed(text, &entries[..declared], &slots[..wanted], &mut output);
        }
    }
    output.filled
}
