// The numbers of one entry and of one slot, read out of the lent tables. No index goes past a table's end: outside the table the answer is 0.
ghost use Rattle.std.specs.Prelude.{◌≡◌, ◌+◌, ◌*◌, get_or};

// The fields of an entry.
pub const PACKAGE: usize = 0;

pub const MAJOR: usize = 1;

pub const MINOR: usize = 2;

pub const PATCH: usize = 3;

pub const WEIGHT: usize = 4;

// The fields of a slot: the entry that it belongs to, the package that it asks for, and where its constraint starts and ends in the text.
pub const OWNER: usize = 0;

pub const WANTED: usize = 1;

pub const START: usize = 2;

pub const END: usize = 3;

// Field k of a row, in a table of WIDTH numbers a row. Where the place is past all that an index can say, it is past the table too.
fn field<const WIDTH: usize>(table: &[u16], row: usize, k: usize) -> u16
    ensures { result ≡ get_or table.now (row * WIDTH + k) 0 }
{
    let place = row.saturating_mul(WIDTH).saturating_add(k);
    table.get(place).copied().unwrap_or(0)
}

// Field k of entry e.
pub fn entry_field(entries: &[u16], e: usize, k: usize) -> u16
    ensures { result ≡ get_or entries.now (e * 5 + k) 0 }
{
    field::<5>(entries, e, k)
}

// Field k of slot s.
pub fn slot_field(slots: &[u16], s: usize, k: usize) -> u16
    ensures { result ≡ get_or slots.now (s * 4 + k) 0 }
{
    field::<4>(slots, s, k)
}
