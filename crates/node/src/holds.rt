// What the search asks of sets: whether one has no member, one, or more, and what is left of one without the members of another.
ghost use Rattle.node.specs.Members.{Holds};
ghost use Rattle.node.specs.Settling.{Less};

#[derive(Clone, Copy)]
pub enum Held {
    Nothing,
    One(u32),
    Several,
}

// The lowest member is taken out, and something is left or not.
pub fn held_by(set: u64) -> Held
    ensures { Holds set result }
{
    if set == 0 {
        return Held::Nothing;
    }
    let e = bitset::lowest(set);
    if bitset::without(set, e) == 0 {
        return Held::One(e);
    }
    Held::Several
}

pub fn all_but(set: u64, out: u64) -> u64
    ensures { Less set out result }
{
    set & !out
}
