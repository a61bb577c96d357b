// What the calls of the listing answer, and the record that each turn moves forward.
#![tactic(auto)]

mod ask;
pub mod by_value;

ghost use Rattle.catalogue.specs.Tables.{lent_of};
ghost use Rattle.lister.specs.Answers.{Firsts, Nexts};
ghost use Rattle.lister.specs.Turns.{Turns};

use basis::Refusal;
use catalogue::Lent;
use pacsolve::Listed;

// Stage 0 is fresh, 1 running, 2 ended; last is the set of the last plan given. The stage is a number, since turn refuses one above 2 with 9 (`Turns`).
#[derive(Clone, Copy)]
pub struct ListingRecord {
    pub stage: u8,
    pub last: u64,
}

// What a turn by value gives back: the answer, and the record as it then is.
#[derive(Clone, Copy)]
pub struct Turned {
    pub answer: Result<Listed, Refusal>,
    pub listing: ListingRecord,
}

// First: the least sound plan. A plan's table is in the plan buffer.
pub fn first(lent: &Lent, plan: &mut [u8]) -> Result<Listed, Refusal>
    ensures { Firsts (lent_of lent.now) plan.old result plan.new }
{
    ask::ask(lent, None, plan)
}

// Next: the least sound plan after the one that the buffer and the set hold.
pub fn next(lent: &Lent, set: u64, plan: &mut [u8]) -> Result<Listed, Refusal>
    ensures { Nexts (lent_of lent.now) set plan.old result plan.new }
{
    ask::ask(lent, Some(set), plan)
}

// The listing a turn further: the record is copied out of its place, moved on by value, and stored.
pub fn turn(listing: &mut ListingRecord, lent: &Lent, plan: &mut [u8]) -> Result<Listed, Refusal>
    ensures { Turns (lent_of lent.now) listing.old plan.old result listing.new plan.new }
{
    let turned = by_value::turned(*listing, lent, plan);
    *listing = turned.listing;
    turned.answer
}
