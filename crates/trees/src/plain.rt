//! Nodes of which one look shows that their parents lead to roots and that their shares fit.

ghost use Rattle.std.specs.Prelude.{◌↔◌, ◌≤◌, ◌<◌, length, IsTrue};
ghost use Rattle.limits.specs.Limits.{most_tasks};
ghost use Rattle.trees.specs.declared.node.Node.{Node};
ghost use Rattle.trees.specs.Plain.{IsPlain, IsPlainAt};

use crate::node::Node;

// Whether a node with this number has no parent or one of a greater number, and no share.
fn is_plain_at(number: u32, node: Node) -> bool
    ensures { IsTrue result ↔ IsPlainAt number node }
{
    (node.parent == 0 || number < node.parent) && node.share == 0
}

/// Whether each node has no parent or one of a greater number, and no share.
pub fn is_plain(nodes: &[Node]) -> bool
    requires { length nodes.now ≤ most_tasks }
    ensures { IsTrue result ↔ IsPlain nodes.now }
{
    for i in 0..nodes.len() {
        if !is_plain_at(i as u32 + 1, nodes[i]) {
            return false;
        }
    }
    true
}
