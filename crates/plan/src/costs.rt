// Weight, dependencies and duplicates of any set, and its cost in the order of the objectives. Trailing zeros walk the members.
ghost use Rattle.std.specs.Prelude.{List, map, ◌≡◌, ℕ, ◌-◌, ◌*◌, ◌<◌, get_or};
ghost use Rattle.basis.specs.Sum.{sum};
ghost use Rattle.basis.specs.Tests.{Decides};
ghost use Rattle.bitset.specs.Bits.{bit, count};
ghost use Rattle.pacsolve.specs.Cost.{weight_of, duplicates_of, amount as amount_of, cost as cost_of};
ghost use Rattle.catalogue.specs.declared.Settings.{Settings as Setting};
ghost use Rattle.catalogue.specs.Survey.{tabled};
ghost use Rattle.plan.specs.Repeats.{Repeated};

use catalogue::fields::{PACKAGE, WEIGHT, entry_field};
use pacsolve::{Cost, Objective};

// The sum of a number of each member below n.
fn sum_over<F: Fn(u32) -> u16>(set: u64, n: usize, number: F) -> u32
    requires { F.IsAlwaysCallable number }
    ensures { (of : ℕ → ℕ) → ((e r : ℕ) → e < 64 → F.post number e r → r ≡ of e) → result ≡ sum (λ e. bit set e * of e) n }
{
    let mut total = 0;
    for e in bitset::members(set) {
        if (e as usize) < n {
            total += u32::from(number(e));
        }
    }
    total
}

// The sum of the members' weights.
pub fn weight(entries: &[u16], set: u64) -> u32
    ensures { (slots objectives fits : List ℕ) (settings : Setting) → result ≡ weight_of (tabled entries.now slots settings objectives fits) set }
{
    sum_over(
        set,
        entries.len() / 5,
        |e| entry_field(entries, e as usize, WEIGHT),
    )
}

// The members, counted as the ones in the set, less the root.
fn dependencies(set: u64) -> u32
    ensures { result ≡ count set - 1 }
{
    bitset::count(set).saturating_sub(1)
}

// Whether some member before e is of its package.
fn repeated(entries: &[u16], set: u64, e: u32) -> bool
    ensures { Decides result (Repeated entries.now set e) }
{
    let package = entry_field(entries, e as usize, PACKAGE);
    for d in bitset::members(set) {
        if e <= d {
            return false;
        }
        if entry_field(entries, d as usize, PACKAGE) == package {
            return true;
        }
    }
    false
}

// For each package with members their number less one, summed: each member with an earlier one of its package counts.
fn duplicates(entries: &[u16], set: u64) -> u32
    ensures { (slots objectives fits : List ℕ) (settings : Setting) → result ≡ duplicates_of (tabled entries.now slots settings objectives fits) set }
{
    sum_over(
        set,
        entries.len() / 5,
        |e| u16::from(repeated(entries, set, e)),
    )
}

// The cost by one objective's code, and 0 for a code of none.
fn amount(code: u8, entries: &[u16], set: u64) -> u32
    ensures { (slots objectives fits : List ℕ) (settings : Setting) → result ≡ amount_of (tabled entries.now slots settings objectives fits) set code }
{
    match Objective::of(code) {
        Some(Objective::Weight) => weight(entries, set),
        Some(Objective::Dependencies) => dependencies(set),
        Some(Objective::Duplicates) => duplicates(entries, set),
        None => 0,
    }
}

// The cost by the objective at place i, and 0 where there is none.
fn place(entries: &[u16], objectives: &[u8], set: u64, i: usize) -> u32
    ensures { (slots fits : List ℕ) (settings : Setting) → result ≡ get_or (map (amount_of (tabled entries.now slots settings objectives.now fits) set) objectives.now) i 0 }
{
    match objectives.get(i) {
        Some(code) => amount(*code, entries, set),
        None => 0,
    }
}

// The cost: three numbers in the order of the objectives.
pub fn cost(entries: &[u16], objectives: &[u8], set: u64) -> Cost
    ensures { (slots fits : List ℕ) (settings : Setting) → result ≡ cost_of (tabled entries.now slots settings objectives.now fits) set }
{
    Cost {
        first: place(entries, objectives, set, 0),
        second: place(entries, objectives, set, 1),
        third: place(entries, objectives, set, 2),
    }
}
