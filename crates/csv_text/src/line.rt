// Lines: what one record declares. Each reader takes the text from where the record begins, and answers how many bytes it used.
ghost use Rattle.csv_text.specs.Reader.{Released, ParsesEntry, ParsesSlot, Parses};

use crate::{field, word};
use constraint::{Version, number};

// A version and the comma behind it, and how many bytes they are.
#[derive(Clone, Copy)]
pub struct Release {
    pub version: Version,
    pub used: usize,
}

// What an entry's record declares: the length of its name, its numbers, and its own length.
#[derive(Clone, Copy)]
pub struct EntryParts {
    pub name: usize,
    pub version: Version,
    pub weight: u16,
    pub used: usize,
}

// A slot's record: the lengths of its two fields, and its own.
#[derive(Clone, Copy)]
pub struct SlotParts {
    pub name: usize,
    pub constraint: usize,
    pub used: usize,
}

// What one record declares.
#[derive(Clone, Copy)]
pub enum Record {
    Entry(EntryParts),
    Slot(SlotParts),
}

fn version(rest: &[u8]) -> Option<Release>
    ensures { Released rest.now result }
{
    let major = number::ended(rest, b'.')?;
    let minor = number::ended(&rest[major.used..], b'.')?;
    let third = major.used + minor.used;
    let patch = number::ended(&rest[third..], b',')?;
    Some(Release {
        version: Version {
            major: major.value,
            minor: minor.value,
            patch: patch.value,
        },
        used: third + patch.used,
    })
}

fn entry(rest: &[u8]) -> Option<EntryParts>
    ensures { ParsesEntry rest.now result }
{
    let name = field::name(rest)?;
    let versioned = name + 1;
    let release = version(&rest[versioned..])?;
    let weighed = versioned + release.used;
    let weight = number::ended(&rest[weighed..], b',')?;
    let last = weighed + weight.used;
    if !rest[last..].starts_with(b",") {
        return None;
    }
    let used = last + 1;
    if !word::at_end(&rest[used..]) {
        return None;
    }
    Some(EntryParts {
        name,
        version: release.version,
        weight: weight.value,
        used,
    })
}

fn slot(rest: &[u8]) -> Option<SlotParts>
    ensures { ParsesSlot rest.now result }
{
    if !rest.starts_with(b",,,") {
        return None;
    }
    let name = field::name(&rest[3..])?;
    let start = 3 + name + 1;
    let constraint = field::plain_bytes(&rest[start..]);
    let used = start + constraint;
    if constraint == 0 || !word::at_end(&rest[used..]) {
        return None;
    }
    Some(SlotParts {
        name,
        constraint,
        used,
    })
}

// The record that a text begins with.
pub fn parse(rest: &[u8]) -> Option<Record>
    ensures { Parses rest.now result }
{
    if let Some(found) = slot(rest) {
        return Some(Record::Slot(found));
    }
    Some(Record::Entry(entry(rest)?))
}
