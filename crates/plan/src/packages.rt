// Condition 5: two different members of one package are consistent.
ghost use Rattle.std.specs.Prelude.{List, ◌≡◌, ℕ};
ghost use Rattle.basis.specs.Tests.{Decides};
ghost use Rattle.bitset.specs.Bits.{Member};
ghost use Rattle.pacsolve.specs.Plan.{plan, Consistent};
ghost use Rattle.catalogue.specs.Survey.{tabled};
ghost use Rattle.plan.specs.Pairs.{field, Beside};

use catalogue::Settings;
use catalogue::fields::{MAJOR, PACKAGE, entry_field};

// The modes that look at pairs. They stay numbers, as they are lent: any other value puts versions together freely.
pub const CARGO: u8 = 1;

pub const PIP: u8 = 2;

// Whether field k of d and of e is the same.
fn alike(entries: &[u16], d: u32, e: u32, k: usize) -> bool
    ensures { Decides result (field entries.now d k ≡ field entries.now e k) }
{
    entry_field(entries, d as usize, k) == entry_field(entries, e as usize, k)
}

// Whether d and e are of different packages, or may stand together. npm: always. cargo: their majors differ. pip: never.
pub fn beside(entries: &[u16], mode: u8, d: u32, e: u32) -> bool
    ensures { Decides result (Beside entries.now mode d e) }
{
    if !alike(entries, d, e, PACKAGE) {
        return true;
    }
    match mode {
        CARGO => !alike(entries, d, e, MAJOR),
        PIP => false,
        _ => true,
    }
}

// Whether d may stand beside each of the others.
fn beside_all(entries: &[u16], mode: u8, d: u32, others: u64) -> bool
    ensures { Decides result ((e : ℕ) → Member others e → Beside entries.now mode d e) }
{
    for e in bitset::members(others) {
        if !beside(entries, mode, d, e) {
            return false;
        }
    }
    true
}

// Whether every two different members may stand beside each other. Each is tested against those above it, which is what is left of the walk; a `for` would hide that.
fn pairwise(entries: &[u16], mode: u8, set: u64) -> bool
    ensures { Decides result ((d e : ℕ) → Member set d → Member set e → ¬ (d ≡ e) → Beside entries.now mode d e) }
{
    let mut walk = bitset::members(set);
    while let Some(d) = walk.next() {
        if !beside_all(entries, mode, d, walk.rest) {
            return false;
        }
    }
    true
}

// Condition 5. Where neither cargo nor pip is asked for, no pair is looked at.
pub fn consistent(entries: &[u16], settings: Settings, set: u64) -> bool
    ensures { (slots objectives fits table : List ℕ) → Decides result (Consistent (tabled entries.now slots settings objectives fits) (plan set table)) }
{
    let mode = settings.mode;
    (mode != CARGO && mode != PIP) || pairwise(entries, mode, set)
}
