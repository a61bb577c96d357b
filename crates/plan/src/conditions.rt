// Conditions 1, 3 and 4: the set is rooted, its slots are named and what they name fits.
ghost use Rattle.std.specs.Prelude.{List, ℕ, ◌<◌};
ghost use Rattle.basis.specs.Tests.{Decides};
ghost use Rattle.bitset.specs.Bits.{Member};
ghost use Rattle.catalogue.specs.declared.Settings.{Settings as Setting};
ghost use Rattle.catalogue.specs.Survey.{tabled};
ghost use Rattle.pacsolve.specs.Plan.{plan_of, plan as the_plan, Rooted, Named, Fitting};
ghost use Rattle.plan.specs.Posing.{problem_by};
ghost use Rattle.plan.specs.Slots.{NamedAt, FittingAt};

use crate::{Problem, fields};
use pacsolve::Plan;

// Whether a set names only entries below n.
fn below(set: u64, n: usize) -> bool
    ensures { Decides result ((e : ℕ) → Member set e → e < n) }
{
    n >= 64 || set >> n == 0
}

// Condition 1: the set names only existing entries and holds the root.
pub fn rooted(problem: &Problem, plan: &Plan) -> bool
    ensures { (slots objectives fits table : List ℕ) → Decides result (Rooted (tabled problem.now.entries.now slots problem.now.settings objectives fits) (the_plan plan.now.set table)) }
{
    below(plan.set, problem.entries.len() / 5)
        && bitset::has(plan.set, u32::from(problem.settings.root))
}

// Condition 3 at slot s.
fn named_at(problem: &Problem, plan: &Plan, s: usize) -> bool
    ensures { Decides result (NamedAt (problem_by problem.now) (plan_of plan.now) s) }
{
    let owned = bitset::has(plan.set, fields::owner(problem.slots, s));
    match fields::choice(plan, s) {
        Some(e) => owned && bitset::has(plan.set, e),
        None => !owned,
    }
}

// Condition 3: each slot of a member names a member, and each other slot holds 255.
pub fn named(problem: &Problem, plan: &Plan) -> bool
    ensures { (entries objectives fits : List ℕ) (settings : Setting) → Decides result (Named (tabled entries problem.now.slots.now settings objectives fits) (plan_of plan.now)) }
{
    (0..problem.slots.len() / 4).all(|s| named_at(problem, plan, s))
}

// Condition 4 at slot s.
fn fitting_at(problem: &Problem, plan: &Plan, s: usize) -> bool
    ensures { Decides result (FittingAt (problem_by problem.now) (plan_of plan.now) s) }
{
    if !bitset::has(plan.set, fields::owner(problem.slots, s)) {
        return true;
    }
    let fits = fields::fitting_set(problem.fits, s);
    match fields::choice(plan, s) {
        Some(e) => (e as usize) < problem.entries.len() / 5 && bitset::has(fits, e),
        None => false,
    }
}

// Condition 4: each slot of a member names an entry that fits it.
pub fn fitting(problem: &Problem, plan: &Plan) -> bool
    ensures { (objectives : List ℕ) (settings : Setting) → Decides result (Fitting (tabled problem.now.entries.now problem.now.slots.now settings objectives problem.now.fits.now) (plan_of plan.now)) }
{
    (0..problem.slots.len() / 4).all(|s| fitting_at(problem, plan, s))
}
