//! The children of each node.

ghost use Rattle.std.specs.Prelude.{◌≡◌, ◌<◌, ◌≤◌, ℕ, length, map, IfOk, slice_index_or};
ghost use Rattle.limits.specs.Limits.{most_tasks};
ghost use Rattle.trees.specs.declared.node.Node.{Node};
ghost use Rattle.trees.specs.Children.{parent_in};
ghost use Rattle.trees.specs.Forest.{AreChildren};

use crate::NoMemory;
use crate::node::Node;
use row_table::RowTable;
use row_table::laws::numbers_law;
use std::alloc::Global;

fn parents_of(alloc: Global, nodes: &[Node]) -> Result<Vec<u32>, NoMemory>
    ensures { IfOk result (λ parents. parents.items ≡ map parent_in nodes.now) }
{
    nodes.iter().map(|node| node.parent).collect(alloc)
}

/// For each node its children, in rising number; row 0 has the roots.
pub fn child_rows(alloc: Global, nodes: &[Node]) -> Result<RowTable, NoMemory>
    requires few { length nodes.now ≤ most_tasks }
    requires parents { (i : ℕ) (d : Node) → i < length nodes.now → (slice_index_or nodes.now i d).parent ≤ length nodes.now }
    ensures { IfOk result (λ rows. AreChildren nodes.now rows) }
{
    numbers_law();
    let parents = parents_of(alloc, nodes)?;
    let rows = RowTable::group(alloc, &parents, nodes.len() as u32 + 1, 1)?;
    Ok(rows)
}
