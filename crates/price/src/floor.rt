// The floor of a node, and the entries that no plan below a limit can pay for.
ghost use Rattle.price.specs.Floor.{Moderate, Floors, Dear};

use crate::Rates;
use crate::draw::{pay_all, pay_slots};
use crate::needs::pay_needs;
use crate::packages::{packages_of, raised};
use catalogue::spans::SlotSpans;

// What every plan inside a node pays, and how much less than that its cost may be.
#[derive(Clone, Copy)]
pub struct Ground {
    pub sum: u64,
    pub credit: u64,
}

// The prices are left with what is not paid.
pub fn lay(
    rates: &Rates,
    spans: &SlotSpans,
    must: u64,
    choices: &[u64; 256],
    price: &mut [u64; 64],
) -> Ground
    requires moderate { Moderate rates.now.base rates.now.scale }
    ensures { Floors rates.now spans.now.first must choices.now price.new result }
{
    let known = packages_of(must, &rates.alike);
    price.copy_from_slice(&raised(&rates.base, known.entries, rates.scale.double));
    let fixed = pay_all(price, must);
    let shared = pay_slots(price, spans, must, choices);
    let beyond = pay_needs(price, &rates.alike, spans, must, choices);
    Ground {
        sum: fixed + shared + beyond,
        credit: rates.scale.count + rates.scale.double * known.packages,
    }
}

// The members of a set whose price is the limit or more.
pub fn too_dear(price: &[u64; 64], limit: u64, set: u64) -> u64
    ensures { Dear price.now limit result }
{
    let mut dear = 0;
    for e in bitset::members(set) {
        if limit <= price[e as usize] {
            dear = bitset::with(dear, e);
        }
    }
    dear
}
