// A 64-bit set of entries: bit e stands for entry e.
#![tactic(auto)]

ghost use Rattle.std.specs.Prelude.{◌≡◌};
ghost use Rattle.std.specs.Iterator.{at_most};
ghost use Rattle.basis.specs.Tests.{Decides};
ghost use Rattle.bitset.specs.Bits.{Member, count as count_of};
ghost use Rattle.bitset.specs.Changes.{With, Without};
ghost use Rattle.bitset.specs.Search.{LowestOr64};
ghost use Rattle.bitset.specs.Walk.{Steps};

// Whether e is a member. No shift goes by 64 or more, so e is tested first.
pub fn has(set: u64, e: u32) -> bool
    ensures { Decides result (Member set e) }
{
    if e < 64 { (set >> e) % 2 == 1 } else { false }
}

// How many members there are.
pub fn count(set: u64) -> u32
    ensures { result ≡ count_of set }
{
    u64::count_ones(set)
}

// The lowest member, and 64 where there is none.
// (`Option` is no plainer: it is the number of zeros below the lowest bit, as the machine counts them, and a walk goes by `members`.)
pub fn lowest(set: u64) -> u32
    ensures { LowestOr64 set result }
{
    u64::trailing_zeros(set)
}

// The set with e as a member too.
pub fn with(set: u64, e: u32) -> u64
    ensures { With set e result }
{
    if e < 64 { set | (1 << e) } else { set }
}

// The set without e.
pub fn without(set: u64, e: u32) -> u64
    ensures { Without set e result }
{
    if e < 64 { set & !(1 << e) } else { set }
}

// A walk over the members of a set, rising: what is left of the set.
#[derive(Clone, Copy)]
pub struct Rising {
    pub rest: u64,
}

// The members of a set, rising.
pub fn members(set: u64) -> Rising
    ensures { result.rest ≡ set }
{
    Rising { rest: set }
}

impl Iterator for Rising {
    type Item = u32;

    ghost next_gives = { λ walk member left. Steps walk.rest member left.rest };

    ghost remaining = { λ walk. at_most (count_of walk.rest) };

    fn next(&mut self) -> Option<u32> {
        let set = self.rest;
        if set == 0 {
            return None;
        }
        let e = lowest(set);
        self.rest = without(set, e);
        Some(e)
    }
}
