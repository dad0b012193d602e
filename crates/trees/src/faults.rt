//! What keeps nodes that are within the limits from being a tree.

ghost use Rattle.std.specs.Prelude.{IfOk, MatchOption};
ghost use Rattle.trees.specs.Tree.{IsTree};
ghost use Rattle.trees.specs.Judged.{AreNodesWithin, IsTreeFault};

use crate::NoMemory;
use crate::node::Node;
use crate::plain::is_plain;
use crate::roots::first_cycle;
use crate::shares::first_unfit_share;
use std::alloc::Global;

/// Why nodes are no tree, each of which is within the limits.
#[derive(Clone, Copy, Debug, PartialEq, Eq)]
pub enum TreeFault {
    /// The parents of this node, the lowest such, lead to no root.
    Cycle(u32),
    /// All parents lead to roots, and the share of this node, the lowest such, does not fit.
    Share(u32),
}

/// What keeps nodes that are within the limits from being a tree: the lowest whose parents lead to no root, or else the lowest whose
/// share does not fit; none where they are a tree. `NoMemory` says nothing of the nodes. Near linear; where each parent has a greater
/// number and no node has a share, one look at each node suffices, and no memory is taken.
pub fn first_fault(alloc: Global, nodes: &[Node]) -> Result<Option<TreeFault>, NoMemory>
    requires { AreNodesWithin nodes.now }
    ensures { IfOk result (λ fault. MatchOption fault (IsTree nodes.now) (IsTreeFault nodes.now)) }
{
    if is_plain(nodes) {
        return Ok(None);
    }
    if let Some(node) = first_cycle(alloc, nodes)? {
        return Ok(Some(TreeFault::Cycle(node)));
    }
    if let Some(node) = first_unfit_share(alloc, nodes)? {
        return Ok(Some(TreeFault::Share(node)));
    }
    Ok(None)
}
