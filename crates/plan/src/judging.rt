// A plan of a catalogue that is not refused: the first of the six conditions that it breaks, or its cost.
ghost use Rattle.std.specs.Prelude.{List, ℕ};
ghost use Rattle.catalogue.specs.Survey.{tabled};
ghost use Rattle.pacsolve.specs.Plan.{plan_of};
ghost use Rattle.plan.specs.Judged.{FirstFault, Judges};
ghost use Rattle.plan.specs.Posing.{problem_by};

use crate::{Problem, conditions, costs, cycles, packages, walks};
use pacsolve::{Condition, Cost, Plan};

// The first condition that the plan breaks.
pub fn first_fault(problem: &Problem, plan: &Plan) -> Option<Condition>
    ensures { (objectives : List ℕ) → FirstFault (tabled problem.now.entries.now problem.now.slots.now problem.now.settings objectives problem.now.fits.now) (plan_of plan.now) result }
{
    if !conditions::rooted(problem, plan) {
        return Some(Condition::Rooted);
    }
    if !walks::reached(problem, plan) {
        return Some(Condition::Reached);
    }
    if !conditions::named(problem, plan) {
        return Some(Condition::Named);
    }
    if !conditions::fitting(problem, plan) {
        return Some(Condition::Fitting);
    }
    if !packages::consistent(problem.entries, problem.settings, plan.set) {
        return Some(Condition::Consistent);
    }
    if !cycles::acyclic(problem, plan) {
        return Some(Condition::Acyclic);
    }
    None
}

// The plan's cost, or the first condition that it breaks.
pub fn judge(problem: &Problem, plan: &Plan) -> Result<Cost, Condition>
    ensures { Judges (problem_by problem.now) plan.now.set plan.now.table.now result }
{
    match first_fault(problem, plan) {
        Some(condition) => Err(condition),
        None => Ok(costs::cost(problem.entries, problem.objectives, plan.set)),
    }
}
