// Which slot is to be decided next, of those whose owner must be there and whose choice is not yet made.
ghost use Rattle.std.specs.Prelude.{◌/◌, ◌≤◌, length};
ghost use Rattle.search.specs.Picks.{Stands, Picked};

use crate::Pick;
use crate::rank::{Lead, leading, rank_of};
use node::holds::{Held, held_by};

// How a slot stands.
#[derive(Clone, Copy)]
pub enum Standing {
    // Its owner need not be there, or its only choice is a must.
    Fine,
    // It has two choices or more.
    Open,
    // Its only choice is not yet a must.
    Narrow,
    // It has no choice.
    Stuck,
}

fn look_at(must: u64, owner: u32, choices: u64) -> Standing
    ensures { Stands must owner choices result }
{
    if !bitset::has(must, owner) {
        return Standing::Fine;
    }
    match held_by(choices) {
        Held::Nothing => Standing::Stuck,
        Held::Several => Standing::Open,
        Held::One(e) => {
            if bitset::has(must, e) {
                return Standing::Fine;
            }
            Standing::Narrow
        }
    }
}

// A slot with no choice, or one whose only choice is not yet a must, is picked at once; else the open slot that leads.
pub fn pick(slots: &[u16], must: u64, choices: &[u64; 256], price: &[u64; 64]) -> Pick
    requires { length slots.now / 4 ≤ 256 }
    ensures { Picked slots.now must choices.now result }
{
    let mut best: Option<Lead> = None;
    for s in 0..slots.len() / 4 {
        let left = choices[s];
        match look_at(must, slots[s * 4] as u32, left) {
            Standing::Fine => {}
            Standing::Open => {
                let rank = rank_of(must, left, price);
                best = Some(leading(best, Lead { slot: s, rank }));
            }
            Standing::Narrow => return Pick::Force(s),
            Standing::Stuck => return Pick::Dead,
        }
    }
    match best {
        Some(lead) => Pick::Split(lead.slot),
        None => Pick::Complete,
    }
}
