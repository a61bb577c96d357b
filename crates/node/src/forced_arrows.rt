// Cycles forbidden: where a slot has one choice, every plan with its owner has that arrow, and so all that follows from such arrows. An entry that must lead to itself
// is in no plan, and no slot names its own owner or an entry that must lead back to it.
ghost use Rattle.std.specs.Prelude.{List, ◌+◌, ℕ, ◌<◌, slice_index};
ghost use Rattle.catalogue.specs.Spans.{Spans};
ghost use Rattle.catalogue.specs.Survey.{tabled};
ghost use Rattle.node.specs.Arrows.{Sources, Pointed, PointedAll, Followed, WithLooped, Loops, TakenBack, Unlooped};
ghost use Rattle.node.specs.Steps.{Settled};

use crate::Node;
use crate::banned::ban_all;
use crate::holds::{Held, all_but, held_by};
use catalogue::Settings;
use catalogue::spans::SlotSpans;

// Adds the owner of a slot with one choice to the row of that choice.
fn point(rows: &mut [u64; 64], owner: u32, choices: u64)
    ensures { Pointed owner choices rows.old rows.new }
{
    if let Held::One(e) = held_by(choices) {
        let at = e as usize;
        rows[at] = bitset::with(rows[at], owner);
    }
}

// Adds the arrows of an entry's slots.
fn point_all(rows: &mut [u64; 64], owner: u32, spans: &SlotSpans, choices: &[u64; 256])
    requires { owner < 64 }
    ensures { PointedAll (slice_index spans.now.first owner) (slice_index spans.now.first (owner + 1)) owner choices.now rows.old rows.new }
{
    let at = owner as usize;
    for s in spans.first[at]..spans.first[at + 1] {
        point(rows, owner, choices[s]);
    }
}

// The arrows that the slots with one choice give: row e holds what leads to e.
fn arrows(spans: &SlotSpans, choices: &[u64; 256], live: u64) -> [u64; 64]
    ensures { Sources spans.now.first choices.now result }
{
    let mut rows = [0u64; 64];
    for e in bitset::members(live) {
        point_all(&mut rows, e, spans, choices);
    }
    rows
}

// Takes up what leads on by way of k, if anything leads to k.
fn follow_by(rows: &mut [u64; 64], k: usize)
    requires { k < 64 }
    ensures { Followed rows.old rows.new }
{
    if rows[k] != 0 {
        plan::cycles::pass(rows, k);
    }
}

// Closes the arrows, by way of each live entry in turn: only those lead on.
fn follow(rows: &mut [u64; 64], live: u64)
    ensures { Followed rows.old rows.new }
{
    for e in bitset::members(live) {
        follow_by(rows, e as usize);
    }
}

// Takes some entries from the choices of an entry's slots.
fn take_back(spans: &SlotSpans, owner: u32, back: u64, choices: &mut [u64; 256])
    requires { owner < 64 }
    ensures { TakenBack (slice_index spans.now.first owner) (slice_index spans.now.first (owner + 1)) back choices.old choices.new }
{
    let at = owner as usize;
    for s in spans.first[at]..spans.first[at + 1] {
        choices[s] = all_but(choices[s], back);
    }
}

// Takes from every slot of a live entry that entry and what leads to it.
fn unloop(spans: &SlotSpans, rows: &[u64; 64], live: u64, choices: &mut [u64; 256])
    ensures { Unlooped spans.now.first rows.now choices.old choices.new }
{
    for e in bitset::members(live) {
        let back = bitset::with(rows[e as usize], e);
        take_back(spans, e, back, choices);
    }
}

// The entry too, if its row holds it.
fn with_looped(out: u64, row: u64, d: u32) -> u64
    ensures { WithLooped out row d result }
{
    if bitset::has(row, d) {
        return bitset::with(out, d);
    }
    out
}

// The live entries that lead to themselves.
fn looped(rows: &[u64; 64], live: u64) -> u64
    ensures { Loops rows.now result }
{
    let mut out = 0;
    for e in bitset::members(live) {
        out = with_looped(out, rows[e as usize], e);
    }
    out
}

pub fn forced_arrows(
    spans: &SlotSpans,
    settings: Settings,
    node: Node,
    choices: &mut [u64; 256],
) -> Option<Node>
    ensures { (entries slots objectives fits : List ℕ) → Spans slots spans.now.first → Settled (tabled entries slots settings objectives fits) node result choices.old choices.new }
{
    if settings.cycles != 0 {
        return Some(node);
    }
    let live = !node.ban;
    let mut rows = arrows(spans, choices, live);
    follow(&mut rows, live);
    unloop(spans, &rows, live, choices);
    let out = looped(&rows, live);
    ban_all(node, out)
}
