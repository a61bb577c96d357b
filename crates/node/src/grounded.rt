// Cycles forbidden: a member of a plan can be taken off after all that it names. So no members each have a slot that can only name one of them again. The footing is
// grown from the entries without slots, by those all of whose slots have a choice in it; what it leaves out is banned.
ghost use Rattle.std.specs.Prelude.{◌≡◌, List, ℕ, ◌<◌};
ghost use Rattle.basis.specs.Tests.{Decides};
ghost use Rattle.bitset.specs.Bits.{Member};
ghost use Rattle.catalogue.specs.Spans.{Spans};
ghost use Rattle.catalogue.specs.Survey.{tabled};
ghost use Rattle.node.specs.Grounding.{Apart, HeldUp, Risen, Hangs};
ghost use Rattle.node.specs.Steps.{Settled};

use crate::Node;
use crate::banned::ban_all;
use catalogue::Settings;
use catalogue::spans::SlotSpans;

// Whether none of the choices is in the footing.
fn apart(choices: u64, footing: u64) -> bool
    ensures { Decides result (Apart choices footing) }
{
    choices & footing == 0
}

// Whether a slot of an entry has no choice in the footing.
fn held(spans: &SlotSpans, e: u32, choices: &[u64; 256], footing: u64) -> bool
    requires { e < 64 }
    ensures { Decides result (HeldUp spans.now.first choices.now footing e) }
{
    let at = e as usize;
    for s in spans.first[at]..spans.first[at + 1] {
        if apart(choices[s], footing) {
            return true;
        }
    }
    false
}

// A member of a set that is not empty: the highest.
fn highest(set: u64) -> u32
    requires { ¬ (set ≡ 0) }
    ensures { Member set result }
{
    63 - u64::leading_zeros(set)
}

// The footing with the entries, neither in it nor banned, that are not held up. From the highest to the lowest, as no iterator over members goes: most entries need
// entries below them in the catalogue, which are of higher number, and so see these at once.
fn risen(spans: &SlotSpans, choices: &[u64; 256], ban: u64, footing: u64) -> u64
    ensures { Risen spans.now.first choices.now ban footing result }
{
    let mut found = footing;
    let mut rest = !ban & !footing;
    while rest != 0 {
        let e = highest(rest);
        rest = bitset::without(rest, e);
        if !held(spans, e, choices, found) {
            found = bitset::with(found, e);
        }
    }
    found
}

// What is neither in the footing nor banned, once a round adds nothing to the footing; nothing where the footing still grows after 65 rounds, which 64 entries do not
// allow.
fn ungrounded(spans: &SlotSpans, choices: &[u64; 256], ban: u64) -> u64
    ensures { Hangs spans.now.first choices.now ban result }
{
    let mut footing = 0;
    for _ in 0..65 {
        let next = risen(spans, choices, ban, footing);
        if next == footing {
            return !footing & !ban;
        }
        footing = next;
    }
    0
}

// What can only lead on to itself for ever is in no plan.
pub fn grounded(
    spans: &SlotSpans,
    settings: Settings,
    node: Node,
    choices: &[u64; 256],
) -> Option<Node>
    ensures { (entries slots objectives fits : List ℕ) → Spans slots spans.now.first → Settled (tabled entries slots settings objectives fits) node result choices.now choices.now }
{
    if settings.cycles != 0 {
        return Some(node);
    }
    let out = ungrounded(spans, choices, node.ban);
    ban_all(node, out)
}
