// The refusal of a weight sum, 8, kept from the bought tool: the one place where it is tested for. The weights of 64 entries never come to 2 ^ 32, so it is never
// given; that the sum fits its type is shown from their number and size alone.
ghost use Rattle.std.specs.Prelude.{◌≡◌};
ghost use Rattle.basis.specs.Sum.{sum};
ghost use Rattle.basis.specs.Tests.{Decides};
ghost use Rattle.catalogue.specs.Tables.{weight_of, entry_count};
ghost use Rattle.catalogue.specs.Refusals.{WeightsOverflow};
ghost use Rattle.catalogue.specs.Parts.{entries_alone};

use crate::fields::{WEIGHT, entry_field};
use crate::table::FewEntries;

// The sum of all weights.
fn weight_sum(entries: FewEntries) -> u64
    ensures { result ≡ sum (weight_of (entries_alone entries.entry.numbers.now)) (entry_count (entries_alone entries.entry.numbers.now)) }
{
    let mut total: u64 = 0;
    for e in 0..entries.count() {
        total += u64::from(entry_field(entries.numbers, e, WEIGHT));
    }
    total
}

// 8: a sum past 32 bits.
pub fn weights_overflow(entries: FewEntries) -> bool
    ensures { Decides result (WeightsOverflow (entries_alone entries.entry.numbers.now)) }
{
    weight_sum(entries) > u64::from(u32::MAX)
}
