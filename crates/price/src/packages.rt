// The entries of packages that are known to be there, and prices that count a second entry of such a package as the duplicate that it is.
ghost use Rattle.std.specs.Prelude.{List, ℕ, ◌≤◌, ◌<◌, ◌/◌, length, get_or};
ghost use Rattle.price.specs.Worth.{Small, BasePrices};
ghost use Rattle.price.specs.Kinds.{OfOnePackage, WithPackage, Packaged, Raised};

use crate::Scale;
use crate::worths::base_price;
use catalogue::fields::{WEIGHT, entry_field};

// Entries of so many packages.
#[derive(Clone, Copy)]
pub struct Known {
    pub entries: u64,
    pub packages: u64,
}

// What is known with one entry more: its package, where that was not known.
fn with_package(known: Known, e: u32, its: u64) -> Known
    requires { known.packages < 64 }
    ensures { WithPackage known e its result }
{
    if bitset::has(known.entries, e) {
        return known;
    }
    Known {
        entries: known.entries | its,
        packages: known.packages + 1,
    }
}

// The packages of the members of a set. Row e of `alike` holds the entries of e's package.
pub fn packages_of(set: u64, alike: &[u64; 64]) -> Known
    ensures few { result.packages ≤ 64 }
    ensures packaged { (entries : List ℕ) → OfOnePackage entries alike.now → Packaged entries result }
{
    let mut found = Known {
        entries: 0,
        packages: 0,
    };
    for e in bitset::members(set) {
        found = with_package(found, e, alike[e as usize]);
    }
    found
}

// Prices that count what a duplicate does for each entry that is known.
pub fn raised(base: &[u64; 64], known: u64, double: u64) -> [u64; 64]
    requires low { (e : ℕ) → get_or base.now e 0 ≤ 140737488355328 }
    requires double_low { double ≤ 541065217 }
    ensures { Raised base.now known double result }
{
    let mut price = *base;
    for e in bitset::members(known) {
        price[e as usize] += double;
    }
    price
}

// The prices of all entries.
pub fn base_prices(entries: &[u16], objectives: &[u8], scale: Scale) -> [u64; 64]
    requires small { Small scale }
    requires few { length entries.now / 5 ≤ 64 }
    ensures { BasePrices entries.now objectives.now scale result }
{
    let mut base = [0u64; 64];
    for e in 0..entries.len() / 5 {
        base[e] = base_price(objectives, scale, entry_field(entries, e, WEIGHT));
    }
    base
}
