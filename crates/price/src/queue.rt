// A queue of sets that wait.
ghost use Rattle.std.specs.Prelude.{◌≤◌};

// Needed sets, of which those from the first on wait to be followed, and the entries of the kinds that were seen.
// (That the sets are needed is no ghost field: needed is what meets every set of a node, which names the member that they share, and there may be several.)
#[derive(Clone, Copy)]
pub struct Queue {
    pub sets: [u64; 64],
    pub first: usize,
    pub count: usize,
    pub seen: u64,
    pub ghost few: { count ≤ 64 },
}

impl Queue {
    ghost use Rattle.std.specs.Prelude.{◌≡◌};
    ghost use Rattle.price.specs.Needed.{Put, Taken};

    // A queue of no sets.
    pub fn new() -> Queue
        ensures { result.count ≡ 0 }
    {
        Queue {
            sets: [0; 64],
            first: 0,
            count: 0,
            seen: 0,
        }
    }

    // Puts a set behind the others, and says whether there is room.
    pub fn push(&mut self, set: u64) -> bool
        requires { ¬ (set ≡ 0) }
        ensures { Put self.old self.new set }
    {
        if self.count == 64 {
            return false;
        }
        self.sets[self.count] = set;
        self.count += 1;
        true
    }

    // Takes the first set that waits.
    pub fn pop(&mut self) -> Option<u64>
        ensures { Taken self.old self.new result }
    {
        let set = *self.sets[..self.count].get(self.first)?;
        self.first += 1;
        Some(set)
    }
}
