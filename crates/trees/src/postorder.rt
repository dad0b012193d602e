//! The nodes of a tree in postorder, by an explicit stack.

ghost use Rattle.std.specs.Prelude.{◌≡◌, List, IfOk};
ghost use Rattle.trees.specs.declared.node.Node.{Node};
ghost use Rattle.trees.specs.Tree.{IsTree};
ghost use Rattle.trees.specs.Forest.{AreChildren, Forest, IsForestOf, all_numbers};

use crate::NoMemory;
use row_table::RowTable;
use std::alloc::Global;

/// The nodes in postorder; roots, and the children of a node, in rising number. Linear.
pub fn postorder(alloc: Global, children: &RowTable) -> Result<Vec<u32>, NoMemory>
    requires forest { (nodes : List Node) × (f : Forest) × IsTree nodes × IsForestOf nodes f × AreChildren nodes children.now }
    ensures { (nodes : List Node) (f : Forest) → IsTree nodes → IsForestOf nodes f → AreChildren nodes children.now →
        IfOk result (λ found. found.items ≡ all_numbers f) }
{
    let mut found: Vec<u32> = Vec::new(alloc);
    let mut pending: Vec<u32> = Vec::new(alloc);
    pending.extend_from_slice(children.row(0))?;
    while let Some(v) = pending.pop() {
        found.push(v)?;
        pending.extend_from_slice(children.row(v))?;
    }
    found.reverse();
    Ok(found)
}
