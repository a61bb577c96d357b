// The table of a node whose slots are all decided.
ghost use Rattle.std.specs.Prelude.{◌/◌, ◌≤◌, length};
ghost use Rattle.search.specs.Picks.{Entered, Tabled};

use node::tables::tabled;

// What a slot holds: its lowest choice if its owner must be there, else none.
fn held_in(must: u64, owner: u32, choices: u64) -> u8
    ensures { Entered must owner choices result }
{
    if bitset::has(must, owner) {
        return bitset::lowest(choices) as u8;
    }
    255
}

pub fn table_of(slots: &[u16], must: u64, choices: &[u64; 256]) -> [u8; 256]
    requires { length slots.now / 4 ≤ 256 }
    ensures { Tabled slots.now must choices.now result }
{
    tabled(slots, choices, |owner, all| held_in(must, owner, all))
}
