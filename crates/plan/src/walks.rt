// Condition 2: every member is reached from the root. What is reached grows along the chosen slots, from members to members, until a round adds nothing.
ghost use Rattle.std.specs.Prelude.{List, ℕ};
ghost use Rattle.basis.specs.Tests.{Decides};
ghost use Rattle.catalogue.specs.Survey.{tabled};
ghost use Rattle.pacsolve.specs.Plan.{plan_of, Reached};
ghost use Rattle.plan.specs.Growth.{Joins, Rounds, Grown};
ghost use Rattle.plan.specs.Posing.{problem_by};

use crate::{Problem, fields};
use pacsolve::Plan;

// What is reached, with the entry that a slot names where its owner is reached and the entry is a member.
fn joined(set: u64, reach: u64, owner: u32, choice: u32) -> u64
    ensures { Joins set reach owner choice result }
{
    if bitset::has(reach, owner) && bitset::has(set, choice) {
        bitset::with(reach, choice)
    } else {
        reach
    }
}

// What is reached after one round through the slots.
fn round(problem: &Problem, plan: &Plan, reach: u64) -> u64
    ensures { Rounds (problem_by problem.now) (plan_of plan.now) reach result }
{
    let set = plan.set;
    let mut next = reach;
    for s in 0..problem.slots.len() / 4 {
        if let Some(choice) = fields::choice(plan, s) {
            let owner = fields::owner(problem.slots, s);
            next = joined(set, next, owner, choice);
        }
    }
    next
}

// All that is reached from the root, where that is a member.
fn grown(problem: &Problem, plan: &Plan) -> u64
    ensures { Grown (problem_by problem.now) (plan_of plan.now) result }
{
    let root = u32::from(problem.settings.root);
    if !bitset::has(plan.set, root) {
        return 0;
    }
    let mut reach = bitset::with(0, root);
    loop {
        let next = round(problem, plan, reach);
        if next == reach {
            return reach;
        }
        reach = next;
    }
}

// Condition 2.
pub fn reached(problem: &Problem, plan: &Plan) -> bool
    ensures { (entries objectives fits : List ℕ) → Decides result (Reached (tabled entries problem.now.slots.now problem.now.settings objectives fits) (plan_of plan.now)) }
{
    grown(problem, plan) == plan.set
}
