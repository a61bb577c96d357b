// What a plan is, as code holds it: a set and a table, the conditions that it may break, what its cost counts, and its cost.
#![tactic(auto)]

ghost use Rattle.std.specs.Prelude.{◌≡◌};
ghost use Rattle.pacsolve.specs.Plan.{condition_number};
ghost use Rattle.pacsolve.specs.Cost.{objective_of};

// A cost: three numbers in the order of the objectives, 0 where there is none. The first that differs says which of two is lower.
#[derive(Clone, Copy, PartialEq, Eq, PartialOrd, Ord)]
pub struct Cost {
    pub first: u32,
    pub second: u32,
    pub third: u32,
}

// What a number of a cost counts.
#[derive(Clone, Copy, PartialEq, Eq)]
pub enum Objective {
    Weight,
    Dependencies,
    Duplicates,
}

impl Objective {
    // The objective with a code: the codes are 0, 1 and 2.
    pub fn of(code: u8) -> Option<Objective>
        ensures { result ≡ objective_of code }
    {
        match code {
            0 => Some(Objective::Weight),
            1 => Some(Objective::Dependencies),
            2 => Some(Objective::Duplicates),
            _ => None,
        }
    }
}

// The conditions under which a plan is sound, by their numbers.
#[derive(Clone, Copy, PartialEq, Eq)]
pub enum Condition {
    Rooted = 1,
    Reached = 2,
    Named = 3,
    Fitting = 4,
    Consistent = 5,
    Acyclic = 6,
}

impl From<Condition> for u8 {
    ghost from_gives = { λ condition number. number ≡ condition_number condition };

    fn from(condition: Condition) -> u8 {
        condition as u8
    }
}

// A set of entries, bit e for entry e, and a table: for each slot the chosen entry, or 255 for none.
#[derive(Clone, Copy)]
pub struct Plan<'a> {
    pub set: u64,
    pub table: &'a [u8],
}

// A plan of the listing: its set and its cost. Its table stands in the plan buffer.
#[derive(Clone, Copy)]
pub struct Listed {
    pub set: u64,
    pub cost: Cost,
}
