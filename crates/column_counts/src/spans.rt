//! First descendants. Where the columns are numbered in postorder, those below a column and itself are a span: from its first descendant
//! to the column.

ghost use Rattle.std.specs.Prelude.{◌≡◌, ◌+◌, length, IfOk};
ghost use Rattle.elim_tree.specs.Postorders.{IsNumberedInPostorder};
ghost use Rattle.column_counts.specs.Leaves.{IsFirsts};

use crate::NoMemory;
use elim_tree::Parents;
use std::alloc::Global;

// The first descendant of each column, by column: itself where it has no children, else the least of those of its children.
pub(crate) fn first_descendants(alloc: Global, parents: &Parents) -> Result<Vec<u32>, NoMemory>
    requires in_postorder { IsNumberedInPostorder parents.now }
    ensures len { IfOk result (λ firsts. length firsts.items ≡ length parents.now + 1) }
    ensures firsts { IfOk result (λ firsts. IsFirsts parents.now firsts.items) }
{
    let mut firsts: Vec<u32> = (0..parents.len() + 1).collect(alloc)?;
    for j in 1..parents.len() + 1 {
        let parent = parents.at(j);
        let first = firsts[j as usize];
        if first < firsts[parent as usize] {
            firsts[parent as usize] = first;
        }
    }
    Ok(firsts)
}
