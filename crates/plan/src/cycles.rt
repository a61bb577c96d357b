// Condition 6: no walk of one chosen slot or more returns to where it began. The steps of a plan stand in 64 rows of 64 bits, row d for the entries that d steps
// to, and are closed in place: by way of each member in turn, each row that holds it takes up what its row holds.
ghost use Rattle.std.specs.Prelude.{◌≡◌, List, ℕ, ◌<◌};
ghost use Rattle.basis.specs.Tests.{Decides};
ghost use Rattle.catalogue.specs.Survey.{tabled};
ghost use Rattle.pacsolve.specs.Plan.{plan_of, Acyclic};
ghost use Rattle.plan.specs.Closure.{Holds, Links, Through, Passes, Steps, Trails};
ghost use Rattle.plan.specs.Posing.{problem_by};

use crate::{Problem, fields};
use pacsolve::Plan;

// Adds the step of a slot, where its owner and the entry that it names are members.
fn link(rows: &mut [u64; 64], set: u64, owner: u32, choice: u32)
    ensures { Links set owner choice rows.old rows.new }
{
    if bitset::has(set, owner) && bitset::has(set, choice) {
        let d = owner as usize;
        rows[d] = bitset::with(rows[d], choice);
    }
}

// A row with all that its entry k leads to.
fn through(row: u64, k: u32, via: u64) -> u64
    ensures { Through row k via result }
{
    if bitset::has(row, k) { row | via } else { row }
}

// Takes up, in every row, what is reached by way of k.
pub fn pass(rows: &mut [u64; 64], k: usize)
    requires { k < 64 }
    ensures { Passes k rows.old rows.new }
{
    let via = rows[k];
    for row in rows.iter_mut() {
        *row = through(*row, k as u32, via);
    }
}

// The steps of a plan: row d holds each entry that d steps to.
fn steps(problem: &Problem, plan: &Plan) -> [u64; 64]
    ensures { Steps (problem_by problem.now) (plan_of plan.now) result }
{
    let set = plan.set;
    let mut rows = [0u64; 64];
    for s in 0..problem.slots.len() / 4 {
        if let Some(choice) = fields::choice(plan, s) {
            let owner = fields::owner(problem.slots, s);
            link(&mut rows, set, owner, choice);
        }
    }
    rows
}

// The steps of a plan, closed: row d holds each entry that a walk of one step or more leads to from d.
fn trails(problem: &Problem, plan: &Plan) -> [u64; 64]
    ensures { Trails (problem_by problem.now) (plan_of plan.now) result }
{
    let mut rows = steps(problem, plan);
    for k in bitset::members(plan.set) {
        pass(&mut rows, k as usize);
    }
    rows
}

// Whether no row holds its own entry.
fn loopless(rows: &[u64; 64]) -> bool
    ensures { Decides result ((d : ℕ) → d < 64 → ¬ Holds rows.now d d) }
{
    (0..64).all(|d| !bitset::has(rows[d], d as u32))
}

// Condition 6. Where cycles are allowed, no walk is looked at.
pub fn acyclic(problem: &Problem, plan: &Plan) -> bool
    ensures { (entries objectives fits : List ℕ) → Decides result (Acyclic (tabled entries problem.now.slots.now problem.now.settings objectives fits) (plan_of plan.now)) }
{
    problem.settings.cycles != 0 || loopless(&trails(problem, plan))
}
