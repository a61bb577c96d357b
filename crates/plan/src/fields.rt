// What a problem and a plan hold for a slot: its owner, the entry that the plan chooses for it, and the set of the entries that fit it. No table is read past its
// end: there the owner is 0, nothing is chosen and the set is empty.
ghost use Rattle.std.specs.Prelude.{◌≡◌, ◌+◌, ◌*◌, get_or};
ghost use Rattle.pacsolve.specs.Plan.{plan_of};
ghost use Rattle.plan.specs.Slots.{Chooses};

use catalogue::fields::{OWNER, slot_field};
use pacsolve::Plan;

// What a plan's table holds for a slot that nothing is chosen for.
const NONE: u8 = 255;

// The entry that slot s belongs to.
pub fn owner(slots: &[u16], s: usize) -> u32
    ensures { result ≡ get_or slots.now (s * 4 + 0) 0 }
{
    u32::from(slot_field(slots, s, OWNER))
}

// The entry that a plan chooses for slot s.
pub fn choice(plan: &Plan, s: usize) -> Option<u32>
    ensures { Chooses (plan_of plan.now) s result }
{
    let choice = *plan.table.get(s).unwrap_or(&NONE);
    if choice == NONE {
        None
    } else {
        Some(u32::from(choice))
    }
}

// The set of the entries that fit slot s.
pub fn fitting_set(fits: &[u64; 256], s: usize) -> u64
    ensures { result ≡ get_or fits.now s 0 }
{
    *fits.get(s).unwrap_or(&0)
}
