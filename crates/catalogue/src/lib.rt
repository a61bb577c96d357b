// The lent tables, text and settings of a call: what they hold, how each refusal of 1 to 8 is found, and the sets of entries that fit the slots.
#![tactic(auto)]

pub mod call;
mod entries;
pub mod fields;
mod index;
mod packing;
mod refusals;
mod setup;
mod slots;
pub mod spans;
mod table;
mod twice;
mod weights;

// The settings of a call. Every value is taken: one outside the rules is refused by its number.
#[derive(Clone, Copy)]
pub struct Settings {
    pub root: u16,
    pub mode: u8,
    pub cycles: u8,
}

// All that is lent and set for a call, but the plan.
#[derive(Clone, Copy)]
pub struct Lent<'a> {
    pub entries: &'a [u16],
    pub slots: &'a [u16],
    pub text: &'a [u8],
    pub settings: Settings,
    pub objectives: &'a [u8],
}
