// A node of the search, and how it is narrowed: only what no plan that is sought has is dropped. The steps see sets, weights and owners: no text, no constraint.
#![tactic(auto)]

mod afford;
mod banned;
mod ceiling;
pub mod clash;
mod clash_ban;
mod forced_arrows;
mod grounded;
pub mod holds;
pub mod narrow;
pub mod order;
mod settle;
pub mod tables;
mod within_reach;

use catalogue::spans::SlotSpans;
use pacsolve::{Cost, Listed, Plan};
use price::Rates;

// What plans are looked for below: a bound on the cost or, once a plan is found, that plan, whose table stands in a buffer.
#[derive(Clone, Copy)]
pub enum Limit {
    Under(Cost),
    Before(Listed),
}

// The plan that is asked after.
#[derive(Clone, Copy)]
pub struct Given<'a> {
    pub plan: Plan<'a>,
    pub cost: Cost,
}

// What is known of the plans that are looked for at a node: they have all of must and none of ban. A step answers no node where there are none.
#[derive(Clone, Copy, PartialEq, Eq)]
pub struct Node {
    pub must: u64,
    pub ban: u64,
}

// What the search works out of the tables once: where the slots of each entry stand, which entries clash with each, and what prices go by.
#[derive(Clone, Copy)]
pub struct Facts {
    pub spans: SlotSpans,
    pub clash: [u64; 64],
    pub rates: Rates,
}
