// A turn by value: the record goes in and comes back beside the answer.
ghost use Rattle.catalogue.specs.Tables.{lent_of};
ghost use Rattle.lister.specs.Turns.{Turns, TurnAnswers, MovesOn, Closing};

use crate::ask::ask;
use crate::{ListingRecord, Turned};
use basis::Refusal;
use catalogue::Lent;
use catalogue::call::survey;
use pacsolve::Listed;

// The record after an answer: a plan makes the stage 1 and stores its set, 11 makes it 2 and keeps the set, any other refusal leaves it.
// (A match within a match, since the last arm then knows that the refusal is another than 11.)
fn moved_on(listing: ListingRecord, answer: Result<Listed, Refusal>) -> ListingRecord
    ensures { MovesOn listing answer result }
{
    match answer {
        Ok(plan) => ListingRecord {
            stage: 1,
            last: plan.set,
        },
        Err(refusal) => match refusal {
            Refusal::NoPlan => ListingRecord {
                stage: 2,
                last: listing.last,
            },
            _ => listing,
        },
    }
}

// What a record past running is refused with: 1 to 8 first, then 9 for a stage above 2, then 11.
fn closing(lent: &Lent, stage: u8, room: usize) -> Refusal
    ensures { Closing (lent_of lent.now) room stage result }
{
    if let Err(refusal) = survey(lent, room) {
        return refusal;
    }
    if stage > 2 {
        return Refusal::Stage;
    }
    Refusal::NoPlan
}

// What a record asks for: fresh, the first plan; running, the next after the buffer and its set; past that, nothing.
fn answered(listing: ListingRecord, lent: &Lent, plan: &mut [u8]) -> Result<Listed, Refusal>
    ensures { TurnAnswers (lent_of lent.now) listing plan.old result plan.new }
{
    match listing.stage {
        0 => ask(lent, None, plan),
        1 => ask(lent, Some(listing.last), plan),
        stage => Err(closing(lent, stage, plan.len())),
    }
}

pub fn turned(listing: ListingRecord, lent: &Lent, plan: &mut [u8]) -> Turned
    ensures { Turns (lent_of lent.now) listing plan.old result.answer result.listing plan.new }
{
    let answer = answered(listing, lent, plan);
    let next = moved_on(listing, answer);
    Turned {
        answer,
        listing: next,
    }
}
