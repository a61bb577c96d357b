// What clashes with a must entry is banned: no sound plan has two entries that may not stand beside each other.
ghost use Rattle.std.specs.Prelude.{List, ℕ};
ghost use Rattle.catalogue.specs.declared.Settings.{Settings as Setting};
ghost use Rattle.catalogue.specs.Survey.{tabled};
ghost use Rattle.node.specs.Clashing.{Clashes, Banned};
ghost use Rattle.node.specs.Steps.{Settled};

use crate::Node;
use crate::banned::ban_all;

// A ban with the clashes of every must entry.
fn with_clashes(ban: u64, must: u64, clash: &[u64; 64]) -> u64
    ensures { Banned ban must clash.now result }
{
    let mut all = ban;
    for e in bitset::members(must) {
        all |= clash[e as usize];
    }
    all
}

pub fn clash_banned(node: Node, clash: &[u64; 64]) -> Option<Node>
    ensures { (entries slots objectives fits choices : List ℕ) (settings : Setting) → Clashes entries settings.mode clash.now → Settled (tabled entries slots settings objectives fits) node result choices choices }
{
    let out = with_clashes(node.ban, node.must, clash);
    ban_all(node, out)
}
