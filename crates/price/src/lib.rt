// Prices of entries. A cost is one number, and the price of an entry is what it adds to that number. What is drawn from the prices is drawn from every set that a
// node asks for, so that the sum of it and what is left bound a plan's cost from below.
#![tactic(auto)]

pub mod draw;
pub mod floor;
pub mod needs;
pub mod packages;
mod queue;
pub mod worths;

// How many times each number of a cost counts in its worth; and how many times dependencies and duplicates do, which start one member late.
#[derive(Clone, Copy)]
pub struct Scale {
    pub first: u64,
    pub second: u64,
    pub third: u64,
    pub count: u64,
    pub double: u64,
}

// What prices go by: for each entry the entries of its package, for each entry its price, and how many times each number of a cost counts.
#[derive(Clone, Copy)]
pub struct Rates {
    pub alike: [u64; 64],
    pub base: [u64; 64],
    pub scale: Scale,
}
