// Ranges of keys: a bound lets through exactly the versions whose keys lie in one range.
ghost use Rattle.std.specs.Prelude.{◌≡◌};
ghost use Rattle.constraint.specs.Range.{bound_of, Spans, CaretEnds};
ghost use Rattle.constraint.specs.Reader.{opened};

use crate::Version;

// The sign of a bound.
#[derive(Clone, Copy)]
pub enum Sign {
    Equal,
    AtMost,
    AtLeast,
    Caret,
}

impl Sign {
    // What opens a bound of the sign: a bracket, the sign and a space.
    pub fn opening(self) -> &'static [u8]
        ensures { result.now ≡ opened (bound_of self) }
    {
        match self {
            Sign::Equal => b"(= ",
            Sign::AtMost => b"(<= ",
            Sign::AtLeast => b"(>= ",
            Sign::Caret => b"(^ ",
        }
    }
}

// The keys from low to high, both included. A RangeInclusive is not copied and holds a flag besides, which no range of keys needs.
#[derive(Clone, Copy)]
pub struct Range {
    pub low: u64,
    pub high: u64,
}

// The last key that `^` of a version lets through: the last before the next major, or before the next minor, or the version's own.
fn last_of(version: Version) -> u64
    ensures { CaretEnds version result }
{
    let major = u64::from(version.major);
    let minor = u64::from(version.minor);
    if major > 0 {
        return (major + 1) * 4294967296 - 1;
    }
    if minor > 0 {
        return (minor + 1) * 65536 - 1;
    }
    u64::from(version.patch)
}

// The keys that a bound lets through.
pub fn span(sign: Sign, version: Version) -> Range
    ensures { Spans (bound_of sign) version result.low result.high }
{
    let at = crate::pack(version);
    match sign {
        Sign::Equal => Range { low: at, high: at },
        Sign::AtMost => Range { low: 0, high: at },
        Sign::AtLeast => Range {
            low: at,
            high: u64::MAX,
        },
        Sign::Caret => Range {
            low: at,
            high: last_of(version),
        },
    }
}
