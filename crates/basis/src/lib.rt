// What every call shares: why it is refused.
#![tactic(auto)]

ghost use Rattle.std.specs.Prelude.{◌≡◌};
ghost use Rattle.basis.specs.Rows.{number_of};

// Why a call is refused, by the number that the rules give it.
#[derive(Clone, Copy, PartialEq, Eq)]
pub enum Refusal {
    // Entry numbers not a multiple of five, none, or over 64 entries.
    Entries = 1,
    // Two entries of equal package and version.
    EntryTwice = 2,
    // The slot table's shape, owners or marks.
    Slots = 3,
    // A constraint outside the rules.
    Constraint = 4,
    // The root is no entry.
    Root = 5,
    // Mode, cycles or objectives outside the rules.
    Settings = 6,
    // A lent buffer of another size than the call asks for.
    Size = 7,
    // A weight sum past 32 bits.
    Weights = 8,
    // A record's stage above 2.
    Stage = 9,
    // The plan that is given is not sound.
    Unsound = 10,
    // No sound plan, or none after the one given.
    NoPlan = 11,
    // A text outside the layout.
    Text = 12,
}

impl From<Refusal> for u8 {
    ghost from_gives = { λ refusal number. number ≡ number_of refusal };

    fn from(refusal: Refusal) -> u8 {
        refusal as u8
    }
}
