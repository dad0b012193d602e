//! Whether the shares of all nodes fit.

ghost use Rattle.std.specs.Prelude.{◌≡◌, ◌≤◌, ◌<◌, ◌-◌, ◌+◌, ◌^◌, ◌↔◌, ℕ, length, vec_len, IfOk, IsTrue, MatchOption, slice_index_or};
ghost use Rattle.std.specs.List.{sum_by};
ghost use Rattle.limits.specs.Limits.{most_tasks, most_total};
ghost use Rattle.trees.specs.declared.node.Node.{Node};
ghost use Rattle.trees.specs.Tree.{IsNode, NodeShareFits, children_out, node_size};
ghost use Rattle.lists.specs.Numbers.{IsFirstWithout};

use crate::NoMemory;
use crate::node::Node;
use std::alloc::Global;

// For each node the outs of its children, together.
fn children_outs(alloc: Global, nodes: &[Node]) -> Result<Vec<u64>, NoMemory>
    requires parents { (i : ℕ) (d : Node) → i < length nodes.now → (slice_index_or nodes.now i d).parent ≤ length nodes.now }
    requires total { sum_by node_size nodes.now ≤ most_total }
    ensures len { IfOk result (λ outs. vec_len outs ≡ length nodes.now) }
    ensures sums { IfOk result (λ outs. (v : ℕ) → IsNode nodes.now v → slice_index_or outs.items (v - 1) 0 ≡ children_out nodes.now v) }
{
    let mut outs: Vec<u64> = vec![in alloc; 0; nodes.len()]?;
    for node in nodes {
        if node.parent != 0 {
            outs[node.parent as usize - 1] += node.out;
        }
    }
    Ok(outs)
}

// Whether a share is at most what the children leave, and at most the node's own extra and block.
fn fits(node: Node, below: u64) -> bool
    requires { node.extra + node.out < 2 ^ 64 }
    ensures { IsTrue result ↔ ((node.share ≤ below) × (node.share ≤ node.extra + node.out)) }
{
    node.share <= below && node.share <= node.extra + node.out
}

fn first_unfit(nodes: &[Node], outs: &[u64]) -> Option<u32>
    requires few { length nodes.now ≤ most_tasks }
    requires len { length outs.now ≡ length nodes.now }
    requires total { sum_by node_size nodes.now ≤ most_total }
    requires sums { (v : ℕ) → IsNode nodes.now v → slice_index_or outs.now (v - 1) 0 ≡ children_out nodes.now v }
    ensures { MatchOption result
        ((v : ℕ) → IsNode nodes.now v → NodeShareFits nodes.now v)
        (λ v. IsFirstWithout (length nodes.now) (NodeShareFits nodes.now) v) }
{
    for i in 0..nodes.len() {
        if !fits(nodes[i], outs[i]) {
            return Some(i as u32 + 1);
        }
    }
    None
}

/// The lowest node whose share does not fit, if there is one.
pub fn first_unfit_share(alloc: Global, nodes: &[Node]) -> Result<Option<u32>, NoMemory>
    requires few { length nodes.now ≤ most_tasks }
    requires parents { (i : ℕ) (d : Node) → i < length nodes.now → (slice_index_or nodes.now i d).parent ≤ length nodes.now }
    requires total { sum_by node_size nodes.now ≤ most_total }
    ensures { IfOk result (λ found. MatchOption found
        ((v : ℕ) → IsNode nodes.now v → NodeShareFits nodes.now v)
        (λ v. IsFirstWithout (length nodes.now) (NodeShareFits nodes.now) v)) }
{
    let outs = children_outs(alloc, nodes)?;
    Ok(first_unfit(nodes, &outs))
}
