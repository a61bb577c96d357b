// Sets of keys: which of many packed versions lie in a range, in one loop.
ghost use Rattle.std.specs.Prelude.{◌≤◌, ◌<◌, length};
ghost use Rattle.constraint.specs.Range.{Marks, Chosen, AllBelow};

use crate::range::Range;

// The set with e too, where the key lies in the range.
fn marked(set: u64, e: usize, key: u64, range: Range) -> u64
    requires { e < 64 }
    ensures { Marks set e key range.low range.high result }
{
    if key < range.low || key > range.high {
        return set;
    }
    bitset::with(set, e as u32)
}

// The set of those keys that lie in the range.
pub fn chosen(keys: &[u64], range: Range) -> u64
    requires { length keys.now ≤ 64 }
    ensures { Chosen keys.now range.low range.high result }
{
    let mut set = 0;
    for (e, key) in keys.iter().enumerate() {
        set = marked(set, e, *key, range);
    }
    set
}

// The set of all numbers below a count. No shift goes by 64.
pub fn all(count: usize) -> u64
    requires { count ≤ 64 }
    ensures { AllBelow count result }
{
    if count == 64 {
        return u64::MAX;
    }
    (1 << count) - 1
}
