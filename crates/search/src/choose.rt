// Which choice of a slot is tried first. Any order finds the same plans; a cheap plan found early leaves less to walk through.
ghost use Rattle.std.specs.Prelude.{◌≡◌};
ghost use Rattle.bitset.specs.Bits.{Member};

// The cheapest, and of several the lowest.
fn cheapest(all: u64, price: &[u64; 64]) -> u32
    ensures { ¬ (all ≡ 0) → Member all result }
{
    let mut best = bitset::lowest(all);
    for e in bitset::members(all) {
        if price[e as usize] < price[best as usize] {
            best = e;
        }
    }
    best
}

// One that must be there anyway if there is one, else the cheapest.
pub fn choose(all: u64, must: u64, price: &[u64; 64]) -> u32
    ensures { ¬ (all ≡ 0) → Member all result }
{
    let met = all & must;
    if met != 0 {
        return bitset::lowest(met);
    }
    cheapest(all, price)
}
