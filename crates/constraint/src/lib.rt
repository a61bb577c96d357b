// Versions and constraints: a constraint is read against one version, or once for many packed versions.
#![tactic(auto)]

use basis::Refusal;
use reader::constraint;

mod bound;
mod keys;
pub mod number;
mod range;
mod reader;
pub mod word;

ghost use Rattle.std.specs.Prelude.{◌≡◌, ◌≤◌, length};
ghost use Rattle.constraint.specs.Reading.{Answers};
ghost use Rattle.constraint.specs.Selection.{key, Selects};

#[derive(Clone, Copy)]
pub struct Version {
    pub major: u16,
    pub minor: u16,
    pub patch: u16,
}

// What a reader has read of the beginning of a text, and how many bytes of the text spell it.
#[derive(Clone, Copy)]
pub struct Spelled<T> {
    pub value: T,
    pub used: usize,
}

// A version as one number, by which versions are compared.
pub fn pack(version: Version) -> u64
    ensures { result ≡ key version }
{
    (u64::from(version.major) * 65536 + u64::from(version.minor)) * 65536 + u64::from(version.patch)
}

// Reads a part as one constraint and answers which of many packed versions satisfy it: bit e for version e. A set has room for 64. None where the part
// spells no constraint within the limits.
pub fn select(part: &[u8], keys: &[u64]) -> Option<u64>
    requires { length keys.now ≤ 64 }
    ensures { Selects part.now keys.now result }
{
    if part.len() > 255 {
        return None;
    }
    let found = constraint(part, keys, 16)?;
    if found.used < part.len() {
        return None;
    }
    Some(found.value)
}

// Reads a part as one constraint and answers whether a version satisfies it. A part that spells no constraint within the limits is refused with 4.
pub fn fits(part: &[u8], version: Version) -> Result<bool, Refusal>
    ensures { Answers part.now version result }
{
    let keys = [pack(version)];
    let Some(set) = select(part, &keys) else {
        return Err(Refusal::Constraint);
    };
    Ok(bitset::has(set, 0))
}
