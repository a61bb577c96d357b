// Asking for a plan: from the start, or after a plan that is given. First and next are this, told which.
ghost use Rattle.std.specs.Prelude.{length, take, ◌≡◌, ◌≤◌};
ghost use Rattle.catalogue.specs.Tables.{lent_of};
ghost use Rattle.plan.specs.Posing.{problem_by};
ghost use Rattle.lister.specs.Answers.{Lists};
ghost use Rattle.lister.specs.Given.{asked_after, Backs};

use basis::Refusal;
use catalogue::Lent;
use catalogue::call::survey;
use node::Given;
use pacsolve::{Listed, Plan};
use plan::Problem;
use plan::judging::judge;
use search::least::least;

// The plan buffer's bytes, kept aside: the buffer is written while the table of the plan that is given is still needed.
fn kept_aside(table: &[u8]) -> [u8; 256]
    requires { length table.now ≤ 256 }
    ensures { take (length table.now) result ≡ table.now }
{
    let mut aside = [0u8; 256];
    aside[..table.len()].copy_from_slice(table);
    aside
}

// The plan that is asked after, with its cost, where one is given. One that is not sound is refused.
fn backed<'a>(
    problem: &Problem,
    after: Option<u64>,
    table: &'a [u8],
) -> Result<Option<Given<'a>>, Refusal>
    ensures { Backs (problem_by problem.now) after table.now result }
{
    let Some(set) = after else {
        return Ok(None);
    };
    let its = Plan { set, table };
    match judge(problem, &its) {
        Ok(cost) => Ok(Some(Given { plan: its, cost })),
        Err(_) => Err(Refusal::Unsound),
    }
}

pub fn ask(lent: &Lent, after: Option<u64>, plan: &mut [u8]) -> Result<Listed, Refusal>
    ensures { Lists (lent_of lent.now) (asked_after after plan.old) plan.old result plan.new }
{
    let room = plan.len();
    let fits = survey(lent, room)?;
    let problem = Problem {
        entries: lent.entries,
        slots: lent.slots,
        settings: lent.settings,
        objectives: lent.objectives,
        fits: &fits,
    };
    let aside = kept_aside(plan);
    let given = backed(&problem, after, &aside[..room])?;
    least(&problem, given, plan).ok_or(Refusal::NoPlan)
}
