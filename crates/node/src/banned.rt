// A node with more entries banned.
ghost use Rattle.node.specs.Banning.{Bans};

use crate::Node;

// Where one of them must be there, no plan is left.
pub fn ban_all(node: Node, out: u64) -> Option<Node>
    ensures { Bans node out result }
{
    let ban = node.ban | out;
    if node.must & ban != 0 {
        return None;
    }
    let must = node.must;
    Some(Node { must, ban })
}
