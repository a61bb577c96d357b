// boxplan: reads a catalogue's text from standard input and writes its plans, or the refusal's number, to standard output.
#![tactic(auto)]

ghost use Rattle.std.specs.Prelude.{◌≤◌, length};

use std::io::{self, Read, Write};

// Reads until the buffer is full, the input ends or a read fails, and says how many bytes stand at its start. It stays a loop over `read`: there is no heap for
// `read_to_end`, and `read_exact` does not say how many bytes it has read where the input ends early.
fn fill<R: Read>(from: &mut R, buffer: &mut [u8]) -> usize
    ensures { result ≤ length buffer.new }
{
    let mut filled = 0;
    while filled < buffer.len() {
        let Ok(more) = from.read(&mut buffer[filled..]) else {
            break;
        };
        if more == 0 {
            break;
        }
        filled += more;
    }
    filled
}

// A text of 65,535 bytes is the longest that read takes, so one byte more is all that has to be read to refuse a longer one. An output that cannot be written
// to ends the program as one that can.
fn main(rt: HostRuntime) {
    let mut text = [0u8; 65536];
    let length = fill(&mut rt.reader(), &mut text);
    let mut out = [0u8; 32768];
    let printed = report::output(&text[..length], &mut out);
    let _ = io::writer(&rt).write_all(&out[..printed]);
}
