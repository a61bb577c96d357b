// Which entries may not stand beside each other (condition 5), and which are of one package: a row of 64 bits for each entry, made once per call.
ghost use Rattle.std.specs.Prelude.{◌↔◌, ◌≡◌, ℕ, ◌≤◌, ◌<◌};
ghost use Rattle.plan.specs.Pairs.{field};
ghost use Rattle.node.specs.Clashing.{Placed, Row, Rows, Shared, Clashes, Alikes};

use catalogue::fields::{MAJOR, PACKAGE, entry_field};
use plan::packages::{CARGO, PIP};

// How many entries there are that a set has a place for.
fn placed(entries: &[u16]) -> usize
    ensures small { result ≤ 64 }
    ensures each { (e : ℕ) → (e < result) ↔ Placed entries.now e }
{
    (entries.len() / 5).min(64)
}

// The entries whose field k is that of e. A placed entry is whole, so its fields are read without a test of the table's end.
fn equal_row(entries: &[u16], k: usize, e: usize) -> u64
    requires { k < 5 }
    ensures { Row entries.now (λ f. field entries.now f k ≡ field entries.now e k) result }
{
    let value = entry_field(entries, e, k);
    let mut row: u64 = 0;
    for f in 0..placed(entries) {
        if entries[f * 5 + k] == value {
            row = bitset::with(row, f as u32);
        }
    }
    row
}

fn equal_rows(entries: &[u16], k: usize) -> [u64; 64]
    requires { k < 5 }
    ensures { Rows entries.now (λ e f. field entries.now f k ≡ field entries.now e k) result }
{
    let mut all = [0u64; 64];
    for e in 0..placed(entries) {
        all[e] = equal_row(entries, k, e);
    }
    all
}

// Of each entry what both its rows hold, without the entry itself.
fn shared(one: &[u64; 64], other: &[u64; 64]) -> [u64; 64]
    ensures { Shared one.now other.now result }
{
    let mut all = [0u64; 64];
    for e in 0..64 {
        all[e] = bitset::without(one[e] & other[e], e as u32);
    }
    all
}

// Two entries of one package clash under pip, and under cargo where their majors are one. Where neither is asked for, nothing clashes.
pub fn clashes(entries: &[u16], mode: u8, alike: &[u64; 64]) -> [u64; 64]
    requires { Alikes entries.now alike.now }
    ensures { Clashes entries.now mode result }
{
    match mode {
        PIP => shared(alike, alike),
        CARGO => {
            let majors = equal_rows(entries, MAJOR);
            shared(alike, &majors)
        }
        _ => [0u64; 64],
    }
}

pub fn alikes(entries: &[u16]) -> [u64; 64]
    ensures { Alikes entries.now result }
{
    equal_rows(entries, PACKAGE)
}
