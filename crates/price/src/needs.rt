// Drawing for sets that are needed at one remove: where every entry of a needed set has a slot of some kind, the choices of those slots together are needed too.
ghost use Rattle.std.specs.Prelude.{◌≡◌, ◌<◌, IfSome};
ghost use Rattle.bitset.specs.Bits.{Member};
ghost use Rattle.price.specs.Prices.{Low, Drawn};
ghost use Rattle.price.specs.Needed.{SlotOf, Leads, Put, Waiting, Closed, Inside, Needed};

use crate::draw::pay;
use crate::queue::Queue;
use catalogue::spans::SlotSpans;

// What needed sets go by: row e of `alike` holds the entries of e's package.
#[derive(Clone, Copy)]
struct Need<'a> {
    alike: &'a [u64; 64],
    spans: &'a SlotSpans,
    must: u64,
    choices: &'a [u64; 256],
}

// The lowest member of a set that has one.
fn lowest_of(set: u64) -> usize
    requires { ¬ (set ≡ 0) }
    ensures { result < 64 }
{
    bitset::lowest(set) as usize
}

impl<'a> Need<'a> {
    // The choices of the first slot of e that meet the row.
    fn slot_for(&self, e: u32, row: u64) -> Option<u64>
        requires { e < 64 }
        ensures { IfSome result (λ its. SlotOf self.now e its) }
    {
        let i = e as usize;
        (self.spans.first[i]..self.spans.first[i + 1])
            .map(|s| self.choices[s])
            .find(|its| *its & row != 0)
    }

    // The choices of such a slot of each member together, and none where a member has no such slot: a set may meet the group there alone.
    fn together(&self, group: u64, row: u64) -> Option<u64>
        requires { ¬ (group ≡ 0) }
        ensures { IfSome result (λ all. Leads self.now group all) }
    {
        let mut all = 0;
        for e in bitset::members(group) {
            all |= self.slot_for(e, row)?;
        }
        Some(all)
    }

    // The kind of a slot's choices, the entries of a package, where none of them was seen.
    fn new_kind(&self, its: u64, seen: u64) -> Option<u64>
        ensures { IfSome result (λ _. ¬ (its ≡ 0)) }
    {
        if its == 0 || its & seen != 0 {
            return None;
        }
        Some(self.alike[lowest_of(its)])
    }

    // Puts the choices of a slot, where none of them must be there or was seen, and sees their kind.
    fn note(&self, queue: &mut Queue, its: u64)
        ensures { Put queue.old queue.new its }
    {
        if let Some(kind) = self.new_kind(its, self.must | queue.seen) {
            if queue.push(its) {
                queue.seen |= kind;
            }
        }
    }

    // Puts the choices of the slots of e, which must be there.
    fn note_slots(&self, queue: &mut Queue, e: u32)
        requires e_small { e < 64 }
        requires member { Member self.now.must e }
        requires waiting { Waiting self.now queue.old }
        ensures { Waiting self.now queue.new }
    {
        let i = e as usize;
        queue.seen |= self.alike[i];
        for s in self.spans.first[i]..self.spans.first[i + 1] {
            self.note(queue, self.choices[s]);
        }
    }

    // The choices of the slots of all that must be there.
    fn waiting(&self) -> Queue
        ensures { Waiting self.now result }
    {
        let mut queue = Queue::new();
        for e in bitset::members(self.must) {
            self.note_slots(&mut queue, e);
        }
        queue
    }

    // Draws for what a needed group leads to by slots of one kind, that of the choices `its`, and puts that too.
    fn follow(&self, price: &mut [u64; 64], queue: &mut Queue, group: u64, its: u64) -> u64
        requires needed { Needed self.now group }
        requires waiting { Waiting self.now queue.old }
        ensures drawn { Drawn (Inside self.now) price.old price.new result }
        ensures waiting { Waiting self.now queue.new }
        ensures rests { queue.new.first ≡ queue.old.first }
    {
        let Some(kind) = self.new_kind(its, queue.seen) else {
            return 0;
        };
        let Some(all) = self.together(group, kind) else {
            return 0;
        };
        if all & self.must != 0 {
            return 0;
        }
        queue.seen |= kind;
        queue.push(all);
        pay(price, all)
    }

    // Draws for all that a needed group leads to: by kinds of which every member has a slot, so the slots of one member tell them all.
    fn follow_all(&self, price: &mut [u64; 64], queue: &mut Queue, group: u64) -> u64
        requires low { Low price.old }
        requires needed { Needed self.now group }
        requires waiting { Waiting self.now queue.old }
        ensures drawn { Drawn (Inside self.now) price.old price.new result }
        ensures waiting { Waiting self.now queue.new }
        ensures rests { queue.new.first ≡ queue.old.first }
    {
        let i = lowest_of(group);
        let mut sum = 0;
        for s in self.spans.first[i]..self.spans.first[i + 1] {
            sum += self.follow(price, queue, group, self.choices[s]);
        }
        sum
    }
}

// Draws for the sets that the slots of what must be there lead to. Row e of `alike` holds the entries of e's package: one set is drawn for of each kind.
pub fn pay_needs(
    price: &mut [u64; 64],
    alike: &[u64; 64],
    spans: &SlotSpans,
    must: u64,
    choices: &[u64; 256],
) -> u64
    requires { Low price.old }
    ensures { Drawn (Closed spans.now.first must choices.now) price.old price.new result }
{
    let need = Need {
        alike,
        spans,
        must,
        choices,
    };
    let mut queue = need.waiting();
    let mut sum = 0;
    // (The queue grows as it is walked, so this is no `for`.)
    while let Some(group) = queue.pop() {
        sum += need.follow_all(price, &mut queue, group);
    }
    sum
}
