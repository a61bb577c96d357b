// The entry table where it has at most 64 entries, so that a set has a bit for each.
ghost use Rattle.std.specs.Prelude.{◌≡◌, ℕ, ◌/◌, ◌^◌, ◌≤◌, ◌<◌, length, get_or};

#[derive(Clone, Copy)]
pub struct FewEntries<'a> {
    pub numbers: &'a [u16],
    pub ghost few: { length numbers.now / 5 ≤ 64 },
    pub ghost sized: { (i : ℕ) → get_or numbers.now i 0 < 2 ^ 16 },
}

impl<'a> FewEntries<'a> {
    // The table as it is lent.
    pub fn of(numbers: &'a [u16]) -> FewEntries<'a>
        requires { length numbers.now / 5 ≤ 64 }
        ensures { result.numbers.now ≡ numbers.now }
    {
        FewEntries { numbers }
    }

    // How many entries it has.
    pub fn count(self) -> usize
        ensures few { result ≤ 64 }
        ensures count { result ≡ length self.entry.numbers.now / 5 }
    {
        self.numbers.len() / 5
    }
}
