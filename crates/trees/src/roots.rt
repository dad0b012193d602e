//! Whether the parents of all nodes lead to a root: each node is marked once, on the first way up that passes it.

ghost use Rattle.std.specs.Prelude.{◌≡◌, ◌≢◌, ◌≤◌, ◌<◌, ◌-◌, ◌+◌, ℕ, length, IfOk, MatchOption, MatchBool, slice_index_or, ◌⊎◌};
ghost use Rattle.limits.specs.Limits.{most_tasks};
ghost use Rattle.trees.specs.declared.node.Node.{Node};
ghost use Rattle.trees.specs.Tree.{IsNode, LeadsToRoot};
ghost use Rattle.lists.specs.Numbers.{IsFirstWithout};
ghost use Rattle.trees.specs.Ascent.{IsAscent};

use crate::NoMemory;
use crate::node::Node;
use std::alloc::Global;

// Goes up from a node over nodes without a mark, and marks each; answers where it stops.
fn mark_up(nodes: &[Node], marks: &mut [u32], from: u32) -> u32
    requires len { length marks.old ≡ length nodes.now }
    requires from { (1 ≤ from) × (from ≤ length nodes.now) }
    requires below { (w : ℕ) → slice_index_or marks.old w 0 < from }
    requires parents { (i : ℕ) (d : Node) → i < length nodes.now → (slice_index_or nodes.now i d).parent ≤ length nodes.now }
    ensures way { IsAscent nodes.now marks.old marks.new from result }
    ensures below { (w : ℕ) → slice_index_or marks.new w 0 < from + 1 }
    ensures ends { (result ≡ 0) ⊎ (slice_index_or marks.new (result - 1) 0 ≢ 0) }
{
    let mut at = from;
    while at != 0 && marks[at as usize - 1] == 0 {
        marks[at as usize - 1] = from;
        at = nodes[at as usize - 1].parent;
    }
    at
}

// Whether a way up stopped at a node that it had marked itself.
fn comes_back(marks: &[u32], from: u32, stop: u32) -> bool
    requires { stop ≤ length marks.now }
    ensures { MatchBool result ((stop ≢ 0) × (slice_index_or marks.now (stop - 1) 0 ≡ from))
        ((stop ≡ 0) ⊎ (slice_index_or marks.now (stop - 1) 0 ≢ from)) }
{
    stop != 0 && marks[stop as usize - 1] == from
}

fn first_cycle_by(nodes: &[Node], marks: &mut [u32]) -> Option<u32>
    requires few { length nodes.now ≤ most_tasks }
    requires len { length marks.old ≡ length nodes.now }
    requires none { (w : ℕ) → slice_index_or marks.old w 0 ≡ 0 }
    requires parents { (i : ℕ) (d : Node) → i < length nodes.now → (slice_index_or nodes.now i d).parent ≤ length nodes.now }
    ensures { MatchOption result
        ((v : ℕ) → IsNode nodes.now v → LeadsToRoot nodes.now v)
        (λ v. IsFirstWithout (length nodes.now) (LeadsToRoot nodes.now) v) }
{
    for i in 0..nodes.len() {
        if marks[i] == 0 {
            let from = i as u32 + 1;
            let stop = mark_up(nodes, marks, from);
            if comes_back(marks, from, stop) {
                return Some(from);
            }
        }
    }
    None
}

/// The lowest node whose parents lead to no root, if there is one. Near linear in the nodes.
pub fn first_cycle(alloc: Global, nodes: &[Node]) -> Result<Option<u32>, NoMemory>
    requires few { length nodes.now ≤ most_tasks }
    requires parents { (i : ℕ) (d : Node) → i < length nodes.now → (slice_index_or nodes.now i d).parent ≤ length nodes.now }
    ensures { IfOk result (λ found. MatchOption found
        ((v : ℕ) → IsNode nodes.now v → LeadsToRoot nodes.now v)
        (λ v. IsFirstWithout (length nodes.now) (LeadsToRoot nodes.now) v)) }
{
    let mut marks: Vec<u32> = vec![in alloc; 0; nodes.len()]?;
    Ok(first_cycle_by(nodes, &mut marks))
}
