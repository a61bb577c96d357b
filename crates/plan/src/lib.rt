// A check of a plan: the problem that it is judged by, the six conditions, each by a function of its own, the cost, and what a check answers.
#![tactic(auto)]

mod conditions;
pub mod costs;
pub mod cycles;
mod fields;
pub mod judging;
pub mod packages;
mod walks;

ghost use Rattle.std.specs.Prelude.{◌≡◌};
ghost use Rattle.catalogue.specs.Tables.{lent_of};
ghost use Rattle.plan.specs.Check.{Checks};
ghost use Rattle.plan.specs.declared.Fault.TheVariants.{Refused, Broken};

use basis::Refusal;
use catalogue::{Lent, Settings};
use pacsolve::{Condition, Cost, Plan};

// A catalogue that is not refused: all that a plan is judged by. Of each slot, `fits` has the set of the entries that fit it.
#[derive(Clone, Copy)]
pub struct Problem<'a> {
    pub entries: &'a [u16],
    pub slots: &'a [u16],
    pub settings: Settings,
    pub objectives: &'a [u8],
    pub fits: &'a [u64; 256],
}

// Why a check gives no cost.
#[derive(Clone, Copy)]
pub enum Fault {
    // The catalogue, the settings or the buffer is bad.
    Refused(Refusal),
    // The first of the six conditions that the plan breaks.
    Broken(Condition),
}

impl From<Refusal> for Fault {
    ghost from_gives = { λ refusal fault. fault ≡ Refused refusal };

    fn from(refusal: Refusal) -> Fault {
        Fault::Refused(refusal)
    }
}

impl From<Condition> for Fault {
    ghost from_gives = { λ condition fault. fault ≡ Broken condition };

    fn from(condition: Condition) -> Fault {
        Fault::Broken(condition)
    }
}

// Checks a plan against what is lent: its cost, or the refusal, or the first condition that the plan breaks.
pub fn check(lent: &Lent, plan: &Plan) -> Result<Cost, Fault>
    ensures { Checks (lent_of lent.now) plan.now.set plan.now.table.now result }
{
    let fits = catalogue::call::survey(lent, plan.table.len())?;
    let problem = Problem {
        entries: lent.entries,
        slots: lent.slots,
        settings: lent.settings,
        objectives: lent.objectives,
        fits: &fits,
    };
    let cost = judging::judge(&problem, plan)?;
    Ok(cost)
}
