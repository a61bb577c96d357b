// The refusals of the entry table: 1, its shape, and 2, two entries of equal package and version. For 2 each entry's package and version are packed into
// one number first, its name, so that two entries are compared by one comparison.
ghost use Rattle.basis.specs.Tests.{Decides};
ghost use Rattle.catalogue.specs.Refusals.{EntriesMisshapen, EntryTwice};
ghost use Rattle.catalogue.specs.Parts.{entries_alone};

use crate::packing::names;
use crate::table::FewEntries;
use crate::twice::stands_twice;

// 1: not a multiple of five, none, or over 64 entries.
pub fn entries_misshapen(entries: &[u16]) -> bool
    ensures { Decides result (EntriesMisshapen (entries_alone entries.now)) }
{
    let n = entries.len();
    n % 5 != 0 || n == 0 || n / 5 > 64
}

// 2: two entries of equal package and version.
pub fn entry_twice(entries: FewEntries) -> bool
    ensures { Decides result (EntryTwice (entries_alone entries.entry.numbers.now)) }
{
    let packed = names(entries);
    stands_twice(&packed[..entries.count()])
}
