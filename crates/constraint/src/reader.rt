// The reader of a constraint and the reader of a pair, which call each other: a constraint may hold a pair, and a pair holds two constraints. No tree is
// built: a constraint is read into the set of the keys that satisfy it.
ghost use Rattle.std.specs.Prelude.{◌≤◌, length};
ghost use Rattle.constraint.specs.Reader.{Shallow, Parses, ReadsPair};

use crate::Spelled;
use crate::bound::bound;
use crate::keys::all;
use crate::word::begins;

// The sets of a pair's two sides.
#[derive(Clone, Copy)]
pub struct Sides {
    pub one: u64,
    pub other: u64,
}

// Reads a constraint of at most the depth that is left.
#[cycle(constraint_pair)]
pub fn constraint(rest: &[u8], keys: &[u64], left: u32) -> Option<Spelled<u64>>
    requires { length keys.now ≤ 64 }
    ensures { Parses (Shallow left) rest.now keys.now result }
{
    if left == 0 {
        return None;
    }
    if begins(rest, b"*") {
        return Some(Spelled {
            value: all(keys.len()),
            used: 1,
        });
    }
    if begins(rest, b"(and ") {
        let sides = pair(&rest[5..], keys, left - 1)?;
        return Some(Spelled {
            value: sides.value.one & sides.value.other,
            used: sides.used + 5,
        });
    }
    if begins(rest, b"(or ") {
        let sides = pair(&rest[4..], keys, left - 1)?;
        return Some(Spelled {
            value: sides.value.one | sides.value.other,
            used: sides.used + 4,
        });
    }
    bound(rest, keys)
}

// Reads a pair's two sides, each of at most the depth that is left.
#[cycle(constraint_pair)]
fn pair(rest: &[u8], keys: &[u64], left: u32) -> Option<Spelled<Sides>>
    requires { length keys.now ≤ 64 }
    ensures { ReadsPair left rest.now keys.now result }
{
    let one = constraint(rest, keys, left)?;
    if !begins(&rest[one.used..], b" ") {
        return None;
    }
    let middle = one.used + 1;
    let other = constraint(&rest[middle..], keys, left)?;
    let close = middle + other.used;
    if !begins(&rest[close..], b")") {
        return None;
    }
    let value = Sides {
        one: one.value,
        other: other.value,
    };
    Some(Spelled {
        value,
        used: close + 1,
    })
}
