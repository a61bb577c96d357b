// How many times each number of a cost counts where the cost is one number, and what an entry adds to that number.
// (That a scale is `Small` is asked for, and is no ghost field of `Scale`: `scale` answers for all objectives, and where weight stands both second and third the scale is not small.)
ghost use Rattle.std.specs.Prelude.{◌≡◌, ◌≤◌, ◌<◌, ◌^◌};
ghost use Rattle.price.specs.Worth.{code_at, objective_at, span_of, part_of, count_of, double_of, Scaled, Small, worth_of, base_price_of};

use crate::Scale;
use pacsolve::{Cost, Objective};

// The code of the objective at place i, and where there is none 3, which no objective has. (A code and no `Option`: the promise, that this is a number, may not change.)
pub fn code_at(objectives: &[u8], i: usize) -> u8
    ensures { result ≡ code_at objectives.now i }
{
    *objectives.get(i).unwrap_or(&3)
}

// The objective at place i.
fn objective_at(objectives: &[u8], i: usize) -> Option<Objective>
    ensures { result ≡ objective_at objectives.now i }
{
    Objective::of(code_at(objectives, i))
}

// More than an objective can come to.
fn span(objective: Option<Objective>) -> u64
    ensures by_objective { result ≡ span_of objective }
    ensures small { result ≤ 4194304 }
{
    match objective {
        Some(Objective::Weight) => 4194304,
        _ => 128,
    }
}

// What an entry of this weight adds by an objective.
fn part(objective: Option<Objective>, unit: u64, weight: u64) -> u64
    requires unit_small { unit ≤ 536870912 }
    requires weight_small { weight ≤ 65535 }
    ensures by_objective { result ≡ part_of objective unit weight }
    ensures small { result ≤ 35184372088832 }
{
    match objective {
        Some(Objective::Weight) => unit * weight,
        Some(Objective::Dependencies) => unit,
        _ => 0,
    }
}

// How many times dependencies count by an objective.
fn counted(objective: Option<Objective>, unit: u64) -> u64
    ensures by_objective { result ≡ count_of objective unit }
    ensures small { result ≤ unit }
{
    match objective {
        Some(Objective::Dependencies) => unit,
        _ => 0,
    }
}

// How many times duplicates count by an objective. (A function beside `counted`: what differs is a variant, and a pattern is plainer than a test against a parameter.)
fn doubled(objective: Option<Objective>, unit: u64) -> u64
    ensures by_objective { result ≡ double_of objective unit }
    ensures small { result ≤ unit }
{
    match objective {
        Some(Objective::Duplicates) => unit,
        _ => 0,
    }
}

// How many times each number counts, by the objectives.
pub fn scale(objectives: &[u8]) -> Scale
    ensures { Scaled objectives.now result }
{
    let a = objective_at(objectives, 0);
    let b = objective_at(objectives, 1);
    let c = objective_at(objectives, 2);
    let second = span(c);
    let first = span(b) * second;
    let count = counted(a, first) + (counted(b, second) + counted(c, 1));
    let double = doubled(a, first) + (doubled(b, second) + doubled(c, 1));
    Scale {
        first,
        second,
        third: 1,
        count,
        double,
    }
}

// A cost as one number.
pub fn worth(scale: Scale, cost: Cost) -> u64
    requires { Small scale }
    ensures { (result ≡ worth_of scale cost) × (result < 2 ^ 62) }
{
    cost.first as u64 * scale.first
        + (cost.second as u64 * scale.second + cost.third as u64 * scale.third)
}

// The price of an entry of this weight.
pub fn base_price(objectives: &[u8], scale: Scale, weight: u16) -> u64
    requires { Small scale }
    ensures { result ≡ base_price_of objectives.now scale weight }
{
    let w = weight as u64;
    let a = objective_at(objectives, 0);
    let b = objective_at(objectives, 1);
    let c = objective_at(objectives, 2);
    part(a, scale.first, w) + (part(b, scale.second, w) + part(c, scale.third, w))
}
