// The public calls as C functions on numbers and slices. Each gives back its number, 0 where nothing is refused; what else it answers crosses in lent slices of a
// fixed length. The names and the parameters are those of include/boxplan.h, so a catalogue crosses as its parts and a refusal as its number.
#![tactic(auto)]

ghost use Rattle.std.specs.Prelude.{length, [], ◌∷◌, ◌≡◌};
ghost use Rattle.catalogue.specs.Tables.{lent};
ghost use Rattle.abi.specs.Crossing.{three, settings_of, version_of, FitsC, ChecksC, ListsC, TurnsC, ReadsC};
ghost use Rattle.constraint.specs.Reading.{fit_of, number_of as reading_number};
ghost use Rattle.plan.specs.Check.{condition_of, number_of as checked_number, cost_of as checked_cost};
ghost use Rattle.lister.specs.Answers.{Firsts, Nexts, number_of, set_of, cost_of};
ghost use Rattle.csv_text.specs.Reading.{entries_of, slots_of, number_of as sheet_number};

use basis::Refusal;
use catalogue::{Lent, Settings};
use constraint::Version;
use csv_text::Sheet;
use lister::ListingRecord;
use lister::by_value::turned;
use pacsolve::{Cost, Listed, Plan};
use plan::Fault;

// A cost put into its slice.
fn put_cost(its: Cost, cost: &mut [u32])
    requires { length cost.old ≡ 3 }
    ensures { cost.new ≡ three its }
{
    cost.copy_from_slice(&[its.first, its.second, its.third]);
}

// An answer of first, next or turn put into its slices.
fn hand_out(answer: Result<Listed, Refusal>, set: &mut [u64], cost: &mut [u32]) -> u8
    requires set_sized { length set.old ≡ 1 }
    requires cost_sized { length cost.old ≡ 3 }
    ensures { (result ≡ number_of answer) × ((set.new ≡ set_of answer ∷ []) × (cost.new ≡ three (cost_of answer))) }
{
    match answer {
        Ok(plan) => {
            set.copy_from_slice(&[plan.set]);
            put_cost(plan.cost, cost);
            0
        }
        Err(refusal) => {
            set.copy_from_slice(&[0]);
            cost.copy_from_slice(&[0, 0, 0]);
            u8::from(refusal)
        }
    }
}

// The least sound plan.
#[unsafe(no_mangle)]
pub extern "C" fn boxplan_first(
    entries: &[u16],
    slots: &[u16],
    text: &[u8],
    root: u16,
    mode: u8,
    cycles: u8,
    objectives: &[u8],
    plan: &mut [u8],
    set: &mut [u64],
    cost: &mut [u32],
) -> u8
    ensures { ListsC (λ a b. Firsts (lent entries.now slots.now text.now (settings_of root mode cycles) objectives.now) plan.old a b) plan.old set.old cost.old result plan.new set.new cost.new }
{
    if set.len() != 1 || cost.len() != 3 {
        return u8::from(Refusal::Size);
    }
    let lent = Lent {
        entries,
        slots,
        text,
        settings: Settings { root, mode, cycles },
        objectives,
    };
    let answer = lister::first(&lent, plan);
    hand_out(answer, set, cost)
}

// The least sound plan after the given one.
#[unsafe(no_mangle)]
pub extern "C" fn boxplan_next(
    entries: &[u16],
    slots: &[u16],
    text: &[u8],
    root: u16,
    mode: u8,
    cycles: u8,
    objectives: &[u8],
    given: u64,
    plan: &mut [u8],
    set: &mut [u64],
    cost: &mut [u32],
) -> u8
    ensures { ListsC (λ a b. Nexts (lent entries.now slots.now text.now (settings_of root mode cycles) objectives.now) given plan.old a b) plan.old set.old cost.old result plan.new set.new cost.new }
{
    if set.len() != 1 || cost.len() != 3 {
        return u8::from(Refusal::Size);
    }
    let lent = Lent {
        entries,
        slots,
        text,
        settings: Settings { root, mode, cycles },
        objectives,
    };
    let answer = lister::next(&lent, given, plan);
    hand_out(answer, set, cost)
}

// A reading put into its slice.
fn hand_fit(reading: Result<bool, Refusal>, fit: &mut [u8]) -> u8
    requires { length fit.old ≡ 1 }
    ensures { (result ≡ reading_number reading) × (fit.new ≡ fit_of reading ∷ []) }
{
    match reading {
        Ok(fits) => {
            fit.copy_from_slice(&[u8::from(fits)]);
            0
        }
        Err(refusal) => {
            fit.copy_from_slice(&[0]);
            u8::from(refusal)
        }
    }
}

// One constraint against one version.
#[unsafe(no_mangle)]
pub extern "C" fn boxplan_fits(
    part: &[u8],
    major: u16,
    minor: u16,
    patch: u16,
    fit: &mut [u8],
) -> u8
    ensures { FitsC part.now (version_of major minor patch) fit.old result fit.new }
{
    if fit.len() != 1 {
        return u8::from(Refusal::Size);
    }
    let version = Version {
        major,
        minor,
        patch,
    };
    let reading = constraint::fits(part, version);
    hand_fit(reading, fit)
}

// A check's answer put into its slices.
fn hand_checked(checked: Result<Cost, Fault>, condition: &mut [u8], cost: &mut [u32]) -> u8
    requires condition_sized { length condition.old ≡ 1 }
    requires cost_sized { length cost.old ≡ 3 }
    ensures { (result ≡ checked_number checked) × ((condition.new ≡ condition_of checked ∷ []) × (cost.new ≡ three (checked_cost checked))) }
{
    match checked {
        Ok(price) => {
            condition.copy_from_slice(&[0]);
            put_cost(price, cost);
            0
        }
        Err(Fault::Refused(refusal)) => {
            condition.copy_from_slice(&[0]);
            cost.copy_from_slice(&[0, 0, 0]);
            u8::from(refusal)
        }
        Err(Fault::Broken(its)) => {
            condition.copy_from_slice(&[u8::from(its)]);
            cost.copy_from_slice(&[0, 0, 0]);
            0
        }
    }
}

// A check of a plan.
#[unsafe(no_mangle)]
pub extern "C" fn boxplan_check(
    entries: &[u16],
    slots: &[u16],
    text: &[u8],
    root: u16,
    mode: u8,
    cycles: u8,
    objectives: &[u8],
    set: u64,
    table: &[u8],
    condition: &mut [u8],
    cost: &mut [u32],
) -> u8
    ensures { ChecksC (lent entries.now slots.now text.now (settings_of root mode cycles) objectives.now) set table.now condition.old cost.old result condition.new cost.new }
{
    if condition.len() != 1 || cost.len() != 3 {
        return u8::from(Refusal::Size);
    }
    let lent = Lent {
        entries,
        slots,
        text,
        settings: Settings { root, mode, cycles },
        objectives,
    };
    let checked = plan::check(&lent, &Plan { set, table });
    hand_checked(checked, condition, cost)
}

// The record as it then is put into its slices.
fn hand_back(listing: ListingRecord, stage: &mut [u8], last: &mut [u64])
    requires stage_sized { length stage.old ≡ 1 }
    requires last_sized { length last.old ≡ 1 }
    ensures { (stage.new ≡ listing.stage ∷ []) × (last.new ≡ listing.last ∷ []) }
{
    stage.copy_from_slice(&[listing.stage]);
    last.copy_from_slice(&[listing.last]);
}

// The listing a turn further.
#[unsafe(no_mangle)]
pub extern "C" fn boxplan_turn(
    entries: &[u16],
    slots: &[u16],
    text: &[u8],
    root: u16,
    mode: u8,
    cycles: u8,
    objectives: &[u8],
    stage: &mut [u8],
    last: &mut [u64],
    plan: &mut [u8],
    set: &mut [u64],
    cost: &mut [u32],
) -> u8
    ensures { TurnsC (lent entries.now slots.now text.now (settings_of root mode cycles) objectives.now) stage.old last.old plan.old set.old cost.old result stage.new last.new plan.new set.new cost.new }
{
    if stage.len() != 1 || last.len() != 1 || set.len() != 1 || cost.len() != 3 {
        return u8::from(Refusal::Size);
    }
    let listing = ListingRecord {
        stage: stage[0],
        last: last[0],
    };
    let lent = Lent {
        entries,
        slots,
        text,
        settings: Settings { root, mode, cycles },
        objectives,
    };
    let turned = turned(listing, &lent, plan);
    hand_back(turned.listing, stage, last);
    hand_out(turned.answer, set, cost)
}

// A sheet's counts put into their slice.
fn hand_counts(sheet: Result<Sheet, Refusal>, counts: &mut [u16]) -> u8
    requires { length counts.old ≡ 2 }
    ensures { (result ≡ sheet_number sheet) × (counts.new ≡ entries_of sheet ∷ slots_of sheet ∷ []) }
{
    match sheet {
        Ok(sheet) => {
            counts.copy_from_slice(&[sheet.entries, sheet.slots]);
            0
        }
        Err(refusal) => {
            counts.copy_from_slice(&[0, 0]);
            u8::from(refusal)
        }
    }
}

// A catalogue's tables from text.
#[unsafe(no_mangle)]
pub extern "C" fn boxplan_read(
    text: &[u8],
    entries: &mut [u16],
    slots: &mut [u16],
    counts: &mut [u16],
) -> u8
    ensures { ReadsC text.now entries.old slots.old counts.old result entries.new slots.new counts.new }
{
    if counts.len() != 2 {
        return u8::from(Refusal::Size);
    }
    let sheet = csv_text::read(text, entries, slots);
    hand_counts(sheet, counts)
}
