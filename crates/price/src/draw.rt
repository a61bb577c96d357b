// Drawing amounts from the prices: from one member at least of every set that has all of `must`, or a choice of each of its slots.
// (That prices are `Low` is asked for where it is needed, and is no ghost field: `lay` lays the prices in an array of its caller's, and a struct of them would be a copy.)
ghost use Rattle.std.specs.Prelude.{◌≡◌, ℕ, ◌≤◌, get_or};
ghost use Rattle.bitset.specs.Bits.{Member};
ghost use Rattle.price.specs.Prices.{Low, Meets, Has, ServesSpan, Serves, Drawn};

use catalogue::spans::SlotSpans;

// The least price of a set's members.
// (Of no member it is u64::MAX: what is promised of every member holds of it, and `pay` asks for the empty set itself.)
fn least_of(price: &[u64; 64], set: u64) -> u64
    ensures { (e : ℕ) → Member set e → result ≤ get_or price.now e 0 }
{
    let mut least = u64::MAX;
    for e in bitset::members(set) {
        least = least.min(price[e as usize]);
    }
    least
}

// Takes an amount from the price of each member.
fn take(price: &mut [u64; 64], set: u64, amount: u64)
    requires some { ¬ (set ≡ 0) }
    requires enough { (e : ℕ) → Member set e → amount ≤ get_or price.old e 0 }
    ensures { Drawn (Meets set) price.old price.new amount }
{
    for e in bitset::members(set) {
        price[e as usize] -= amount;
    }
}

// Draws from a set as much as each of its members has: a plan that has one of them pays that at least.
pub fn pay(price: &mut [u64; 64], set: u64) -> u64
    ensures { Drawn (Meets set) price.old price.new result }
{
    let amount = least_of(price, set);
    if set == 0 || amount == 0 {
        return 0;
    }
    take(price, set, amount);
    amount
}

// Draws the whole price of each member.
pub fn pay_all(price: &mut [u64; 64], set: u64) -> u64
    requires { Low price.old }
    ensures { Drawn (Has set) price.old price.new result }
{
    let mut sum = 0;
    for e in bitset::members(set) {
        let i = e as usize;
        sum += price[i];
        price[i] = 0;
    }
    sum
}

// Draws for one slot, where no choice of it is paid for.
fn pay_slot(price: &mut [u64; 64], must: u64, choices: u64) -> u64
    ensures { Drawn (Meets choices) price.old price.new result }
{
    if choices & must == 0 {
        pay(price, choices)
    } else {
        0
    }
}

// Draws for the slots of one entry that must be there.
fn pay_entry(
    price: &mut [u64; 64],
    must: u64,
    start: usize,
    end: usize,
    choices: &[u64; 256],
) -> u64
    requires low { Low price.old }
    requires end_bound { end ≤ 256 }
    ensures { Drawn (ServesSpan start end choices.now) price.old price.new result }
{
    let mut sum = 0;
    for s in start..end {
        sum += pay_slot(price, must, choices[s]);
    }
    sum
}

// Draws for each slot of what must be there.
pub fn pay_slots(price: &mut [u64; 64], spans: &SlotSpans, must: u64, choices: &[u64; 256]) -> u64
    requires { Low price.old }
    ensures { Drawn (Serves spans.now.first must choices.now) price.old price.new result }
{
    let mut sum = 0;
    for e in bitset::members(must) {
        let i = e as usize;
        sum += pay_entry(price, must, spans.first[i], spans.first[i + 1], choices);
    }
    sum
}
