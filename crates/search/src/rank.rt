// Which of the open slots is decided first. Any order finds the same plans; this one leaves less to walk through.
ghost use Rattle.search.specs.Ranking.{Leads};

// How a slot ranks: whether a must entry is one of its choices, how many choices it has, and how little they cost together, as what is left of the highest number. So the
// lower rank is that of a slot that is not met, then of one with fewer choices, then of one with dearer ones.
#[derive(Clone, Copy, PartialEq, Eq, PartialOrd, Ord)]
pub struct Rank {
    pub met: bool,
    pub count: u32,
    pub cheap: u64,
}

// The slot that leads.
#[derive(Clone, Copy)]
pub struct Lead {
    pub slot: usize,
    pub rank: Rank,
}

// What choices cost together, or the highest number where the sum would be above it.
fn dearness(choices: u64, price: &[u64; 64]) -> u64 {
    let mut sum: u64 = 0;
    for e in bitset::members(choices) {
        sum = sum.saturating_add(price[e as usize]);
    }
    sum
}

pub fn rank_of(must: u64, choices: u64, price: &[u64; 64]) -> Rank {
    Rank {
        met: must & choices != 0,
        count: bitset::count(choices),
        cheap: u64::MAX - dearness(choices, price),
    }
}

// Whether a slot is decided before an earlier one: of two that cost nothing it is not, else the lower rank comes first.
// (A cost of nothing is u64::MAX when it is turned over.)
fn sooner(late: Rank, early: Rank) -> bool {
    let free = late.cheap == u64::MAX && early.cheap == u64::MAX;
    !free && late < early
}

// Who leads when a later slot comes up.
pub fn leading(best: Option<Lead>, next: Lead) -> Lead
    ensures { Leads best next result }
{
    match best {
        Some(early) if !sooner(next.rank, early.rank) => early,
        _ => next,
    }
}
