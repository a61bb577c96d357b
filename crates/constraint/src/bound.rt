// Bounds: a sign and three numbers in brackets, read into the set of the keys that they let through.
ghost use Rattle.std.specs.Prelude.{◌≤◌, length};
ghost use Rattle.constraint.specs.Reader.{ReadsOpening, ReadsTriple, IsBound, Parses};

use crate::keys::chosen;
use crate::number::ended;
use crate::range::{Sign, span};
use crate::word::begins;
use crate::{Spelled, Version};

// Reads what opens a bound: the bracket, its sign and a space.
fn signed(rest: &[u8]) -> Option<Spelled<Sign>>
    ensures { ReadsOpening rest.now result }
{
    let signs = [Sign::Equal, Sign::AtMost, Sign::AtLeast, Sign::Caret];
    let value = signs
        .iter()
        .copied()
        .find(|sign| begins(rest, sign.opening()))?;
    Some(Spelled {
        value,
        used: value.opening().len(),
    })
}

// Reads the three numbers of a version and the bracket that closes them.
fn three(rest: &[u8]) -> Option<Spelled<Version>>
    ensures { ReadsTriple rest.now result }
{
    let major = ended(rest, b' ')?;
    let minor = ended(&rest[major.used..], b' ')?;
    let both = major.used + minor.used;
    let patch = ended(&rest[both..], b')')?;
    let value = Version {
        major: major.value,
        minor: minor.value,
        patch: patch.value,
    };
    Some(Spelled {
        value,
        used: both + patch.used,
    })
}

// Reads a bound.
pub fn bound(rest: &[u8], keys: &[u64]) -> Option<Spelled<u64>>
    requires { length keys.now ≤ 64 }
    ensures { Parses IsBound rest.now keys.now result }
{
    let sign = signed(rest)?;
    let version = three(&rest[sign.used..])?;
    let value = chosen(keys, span(sign.value, version.value));
    Some(Spelled {
        value,
        used: sign.used + version.used,
    })
}
