ghost use Rattle.std.specs.Prelude.{◌+◌, ◌≡◌, ◌≤◌, ◌<◌, ◌^◌, ℕ, List, length, reverse, IfOk};
ghost use Rattle.limits.specs.Limits.{most_tasks};
ghost use Rattle.row_table.specs.Rows.{row_at};
ghost use Rattle.postorder_best.specs.BestPostorder.{ListedAll};
ghost use Rattle.postorder_best.specs.Rows.{Emits};

use crate::NoMemory;
use row_table::RowTable;
use std::alloc::Global;

// The listing of the subtrees of row 0, backwards.
fn walk(alloc: Global, rows: &RowTable) -> Result<Vec<u32>, NoMemory>
    requires some { 0 < length rows.now }
    requires listed { (e : List ℕ) × Emits (length rows.now) (row_at rows.now) (row_at rows.now 0) e × (length e ≤ most_tasks + 2) }
    ensures { IfOk result (λ v. (e : List ℕ) → Emits (length rows.now) (row_at rows.now) (row_at rows.now 0) e → v.items ≡ e) }
{
    let mut listing: Vec<u32> = Vec::new(alloc);
    let mut stack: Vec<u32> = Vec::from_slice(alloc, rows.row(0))?;
    while let Some(x) = stack.pop() {
        listing.push(x)?;
        stack.extend_from_slice(rows.row(x))?;
    }
    Ok(listing)
}

/// The listing of the subtrees of row 0.
pub fn listing(alloc: Global, rows: &RowTable) -> Result<Vec<u32>, NoMemory>
    requires some { 0 < length rows.now }
    requires listed { (o : List ℕ) × ListedAll (row_at rows.now) (row_at rows.now 0) o
        × Emits (length rows.now) (row_at rows.now) (row_at rows.now 0) (reverse o) × (length o ≤ most_tasks + 2) }
    ensures { IfOk result (λ v. ListedAll (row_at rows.now) (row_at rows.now 0) v.items) }
{
    let mut order = walk(alloc, rows)?;
    order.reverse();
    Ok(order)
}
