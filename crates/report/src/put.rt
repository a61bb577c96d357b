// Bytes put into the output, each behind those before it.
ghost use Rattle.std.specs.Prelude.{◌∷◌, ◌++◌, ◌+◌, ◌≤◌, ◌<◌, length};
ghost use Rattle.basis.specs.Rows.{number_of};
ghost use Rattle.csv_text.specs.Layout.{crlf};
ghost use Rattle.report.specs.Output.{decimal, refusing};
ghost use Rattle.report.specs.Adding.{Adds, Room};

use basis::Refusal;

// A lent buffer, and how far it is filled.
#[derive(Drop)]
pub struct Output<'a> {
    pub bytes: &'a mut [u8],
    pub filled: usize,
}

impl Output<'_> {
    // Puts bytes behind those that are there.
    pub fn put(&mut self, bytes: &[u8])
        requires { Room self.old (length bytes.now) }
        ensures { Adds self.old bytes.now self.new }
    {
        let end = self.filled + bytes.len();
        self.bytes[self.filled..end].copy_from_slice(bytes);
        self.filled = end;
    }

    // A member's record: the plan's number, and the package and version fields, as they stand in the text.
    pub fn member(&mut self, number: u8, fields: &[u8])
        requires one_digit { number < 10 }
        requires room { Room self.old (4 + length fields.now) }
        ensures { Adds self.old ((48 + number) ∷ 44 ∷ (fields.now ++ crlf)) self.new }
    {
        self.put(&[b'0' + number, b',']);
        self.put(fields);
        self.put(b"\r\n");
    }

    // A number in decimal and CR LF.
    // (Two digits by hand: what is promised is the bytes themselves, `decimal`.)
    fn line(&mut self, number: u8)
        requires { Room self.old 4 }
        ensures { Adds self.old (decimal number ++ crlf) self.new }
    {
        if number < 10 {
            self.put(&[b'0' + number, b'\r', b'\n']);
        } else {
            self.put(&[b'0' + number / 10, b'0' + number % 10, b'\r', b'\n']);
        }
    }

    // The output of a refusal.
    pub fn refusal(&mut self, refusal: Refusal)
        requires { Room self.old 13 }
        ensures { Adds self.old (refusing (number_of refusal)) self.new }
    {
        self.put(b"refusal\r\n");
        self.line(u8::from(refusal));
    }
}
