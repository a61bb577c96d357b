// Entries packed into one number each, all at once: a version in 48 bits, and a name, package and version, in 64.
ghost use Rattle.std.specs.Prelude.{◌≡◌, ℕ, ◌/◌, ◌<◌, length, get_or};
ghost use Rattle.constraint.specs.Selection.{unkey};
ghost use Rattle.catalogue.specs.Tables.{version_of};
ghost use Rattle.catalogue.specs.Parts.{entries_alone, entry_key, entry_name, Lists};

use crate::fields::{MAJOR, MINOR, PACKAGE, PATCH, entry_field};
use crate::table::FewEntries;
use constraint::Version;

// The version of entry e in one number.
fn key_of(entries: &[u16], e: usize) -> u64
    ensures { result ≡ entry_key (entries_alone entries.now) e }
{
    let major = entry_field(entries, e, MAJOR);
    let minor = entry_field(entries, e, MINOR);
    let patch = entry_field(entries, e, PATCH);
    constraint::pack(Version {
        major,
        minor,
        patch,
    })
}

// The name of entry e: its package above its version.
fn name_of(entries: &[u16], e: usize) -> u64
    ensures { result ≡ entry_name (entries_alone entries.now) e }
{
    let package = u64::from(entry_field(entries, e, PACKAGE));
    (package << 48) + key_of(entries, e)
}

// A number for each entry.
fn packed<F: Fn(usize) -> u64>(entries: FewEntries, number_of: F) -> [u64; 64]
    requires { F.IsAlwaysCallable number_of }
    ensures size { length result ≡ 64 }
    ensures each { (e : ℕ) → e < length entries.entry.numbers.now / 5 → F.post number_of e (get_or result e 0) }
{
    let mut numbers = [0u64; 64];
    for e in 0..entries.count() {
        numbers[e] = number_of(e);
    }
    numbers
}

// The versions of all entries.
pub fn keys(entries: FewEntries) -> [u64; 64]
    ensures listed { Lists (entries_alone entries.entry.numbers.now) (entry_key (entries_alone entries.entry.numbers.now)) result }
    ensures back { (e : ℕ) → e < length entries.entry.numbers.now / 5 → unkey (get_or result e 0) ≡ version_of (entries_alone entries.entry.numbers.now) e }
{
    packed(entries, |e| key_of(entries.numbers, e))
}

// The names of all entries.
pub fn names(entries: FewEntries) -> [u64; 64]
    ensures { Lists (entries_alone entries.entry.numbers.now) (entry_name (entries_alone entries.entry.numbers.now)) result }
{
    packed(entries, |e| name_of(entries.numbers, e))
}
