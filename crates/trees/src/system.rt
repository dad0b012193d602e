ghost use Rattle.std.specs.Prelude.{◌≡◌, ◌≤◌, ◌+◌, ◌==◌, length, IfOk, map, Some, None, if◌then◌else◌};
ghost use Rattle.limits.specs.Limits.{most_tasks};
ghost use Rattle.trees.specs.Tree.{system_of_nodes, task_of_node, items_from};

use crate::NoMemory;
use crate::node::Node;
use crate::tree::Tree;
use mp_system::{Item, System, Task};
use std::alloc::Global;

fn tasks_of(alloc: Global, nodes: &[Node]) -> Result<Vec<Task>, NoMemory>
    ensures { IfOk result (λ v. v.items ≡ map task_of_node nodes.now) }
{
    nodes
        .iter()
        .map(|node| Task {
            extra: node.extra,
            share: node.share,
            time: node.time,
        })
        .collect(alloc)
}

// The parent as a consumer: none where the node is a root.
fn consumer_of(node: &Node) -> Option<u32>
    ensures { result ≡ (if node.now.parent == 0 then None else Some node.now.parent) }
{
    (node.parent != 0).then_some(node.parent)
}

fn items_of(alloc: Global, nodes: &[Node]) -> Result<Vec<Item>, NoMemory>
    requires { length nodes.now ≤ most_tasks }
    ensures { IfOk result (λ v. v.items ≡ items_from 1 nodes.now) }
{
    let mut items = Vec::with_capacity(alloc, nodes.len())?;
    for (i, node) in nodes.iter().enumerate() {
        items.push(Item {
            size: node.out,
            from: Some(i as u32 + 1),
            to: consumer_of(node),
        })?;
    }
    Ok(items)
}

/// The system of a tree (Liu 1986): each node is a task, and leaves one item, its block, which its parent consumes; a root's block
/// stays.
pub fn system_of_tree(alloc: Global, tree: &Tree) -> Result<System, NoMemory>
    ensures { IfOk result (λ system. system ≡ system_of_nodes tree.now) }
{
    let nodes = tree.nodes();
    let tasks = tasks_of(alloc, nodes)?;
    let items = items_of(alloc, nodes)?;
    Ok(System::new(tasks, items))
}
