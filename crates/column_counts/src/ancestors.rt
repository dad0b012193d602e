//! Least common ancestors in the elimination tree, by steps up that are made longer and longer.

ghost use Rattle.std.specs.Prelude.{◌≡◌, ℕ, ◌+◌, ◌<◌, ◌≤◌, length, IfOk, slice_index};
ghost use Rattle.elim_tree.specs.Trees.{parent_at};
ghost use Rattle.column_counts.specs.Leaves.{AreSpans, LeadUp, IsCommonAncestor};

use crate::NoMemory;
use elim_tree::Parents;
use std::alloc::Global;

// An ancestor of each column, or 0 for none.
#[derive(Drop)]
pub(crate) struct Ancestors {
    // by column; at 0 stands 0
    pub(crate) table: Vec<u32>,
}

impl Ancestors {
    // To begin with, the parents.
    pub(crate) fn new(alloc: Global, parents: &Parents) -> Result<Ancestors, NoMemory>
        ensures len { IfOk result (λ ancestors. length ancestors.table.items ≡ length parents.now + 1) }
        ensures parents { IfOk result (λ ancestors. (x : ℕ) → x ≤ length parents.now →
            slice_index ancestors.table.items x ≡ parent_at parents.now x) }
    {
        let table = (0..parents.len() + 1)
            .map(|column| parents.at(column))
            .collect(alloc)?;
        Ok(Ancestors { table })
    }

    // The least column above `column` that is not below `j`. Each step on the way is made twice as long.
    pub(crate) fn least_common(&mut self, column: u32, j: u32) -> u32
        requires inside { (x : ℕ) → slice_index self.old.table.items x < length self.old.table.items }
        requires start { (column < length self.old.table.items) × (column < j) }
        requires tree { (first : ℕ → ℕ) × (top : ℕ) × AreSpans first × LeadUp first j self.old.table.items
            × (j ≤ top) × (top < length self.old.table.items) × (first top ≤ column) }
        ensures found { (first : ℕ → ℕ) → AreSpans first → LeadUp first j self.old.table.items → (top : ℕ) → j ≤ top →
            top < length self.old.table.items → first top ≤ column → IsCommonAncestor first (length self.old.table.items) column j result }
        ensures ancestors { (first : ℕ → ℕ) → AreSpans first → LeadUp first j self.old.table.items → LeadUp first j self.new.table.items }
        ensures len { length self.new.table.items ≡ length self.old.table.items }
        ensures inside { (x : ℕ) → slice_index self.new.table.items x < length self.new.table.items }
        ensures place { result < length self.new.table.items }
    {
        let mut above = column;
        'up: while above < j {
            let next = self.table[above as usize];
            if next < j {
                self.table[above as usize] = self.table[next as usize];
            }
            above = next;
        }
        above
    }
}
