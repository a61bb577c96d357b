// The search for the least plan: a walk over nodes, in rounds.
#![tactic(auto)]

mod choose;
pub mod keep;
pub mod least;
mod pick_slot;
mod rank;
mod table;
mod walk;

// What is to be done next at a node.
#[derive(Clone, Copy)]
pub enum Pick {
    // Decide this slot, which has two choices or more.
    Split(usize),
    // The only choice of this slot must be there too.
    Force(usize),
    // A slot has no choice.
    Dead,
    // Every slot has one choice, which must be there.
    Complete,
}
