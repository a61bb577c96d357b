// Packages are numbered by first appearance: the names that have been seen are kept as marks in the text.
ghost use Rattle.std.specs.Prelude.{◌≡◌, ◌<◌, ◌≤◌, List, [], ℕ, length};
ghost use Rattle.csv_text.specs.Numbering.{part, known, Room, Numbers};

// Where a name begins and ends in a text of at most 65,535 bytes.
#[derive(Clone, Copy)]
pub struct Mark {
    pub start: u16,
    pub end: u16,
}

// The names that have been seen: the first `count` of `seen`.
#[derive(Drop)]
pub struct Names {
    pub seen: [Mark; 320],
    pub count: usize,
}

impl Names {
    pub fn none() -> Names
        ensures empty { (text : List ℕ) → known text result ≡ [] }
        ensures room { (text : List ℕ) → length text ≤ 65535 → Room text result }
    {
        Names {
            seen: [Mark { start: 0, end: 0 }; 320],
            count: 0,
        }
    }

    // The number of the name between two places in the text, which is kept where it is new.
    pub fn number(&mut self, text: &[u8], start: usize, end: usize) -> usize
        requires room { Room text.now self.old }
        requires few { self.old.count < 320 }
        requires ordered { start ≤ end }
        requires within { end ≤ length text.now }
        ensures numbered { Numbers text.now self.old (part text.now start end) result self.new }
        ensures small { result < 320 }
    {
        let name = &text[start..end];
        let place = self.seen[..self.count]
            .iter()
            .position(|mark| &text[usize::from(mark.start)..usize::from(mark.end)] == name)
            .unwrap_or(self.count);
        if place == self.count {
            self.seen[self.count] = Mark {
                start: start as u16,
                end: end as u16,
            };
            self.count += 1;
        }
        place
    }
}
