ghost use Rattle.std.specs.Prelude.{◌≡◌, ℕ, ◌<◌, ◌^◌, All, length, map, slice_index_or, IfOk};
ghost use Rattle.row_table.specs.Rows.{row_at};
ghost use Rattle.activation.specs.Consumers.{edge, ends_from};

use crate::NoMemory;
use row_table::RowTable;
use row_table::laws::numbers_law;
use std::alloc::Global;

/// An edge from one number to another.
#[derive(Clone, Copy)]
pub struct Edge {
    pub from: u32,
    pub to: u32,
}

// Writes into each row, in place of the numbers of edges, the numbers to which they lead.
fn write_ends(alloc: Global, edges: &[Edge], rows: &mut RowTable) -> Result<(), NoMemory>
    requires few { length rows.old < 2 ^ 32 }
    requires within { (k : ℕ) → k < length rows.old → All (λ i. i < length edges.now) (row_at rows.old k) }
    ensures long { IfOk result (λ _. length rows.new ≡ length rows.old) }
    ensures rows { IfOk result (λ _. (k : ℕ) → k < length rows.old →
        row_at rows.new k ≡ map (λ i. (slice_index_or edges.now i (edge 0 0)).to) (row_at rows.old k)) }
{
    for k in 0..rows.len() as u32 {
        let ends: Vec<u32> = rows
            .row(k)
            .iter()
            .map(|edge| edges[*edge as usize].to)
            .collect(alloc)?;
        rows.set_row(k, &ends);
    }
    Ok(())
}

/// To each of so many numbers the ends of the edges from it, in the order of the edges. Linear.
pub fn rows_of(alloc: Global, edges: &[Edge], count: u32) -> Result<RowTable, NoMemory>
    requires within { All (λ e. e.from < count) edges.now }
    requires few { length edges.now < 2 ^ 32 }
    ensures long { IfOk result (λ rows. length rows ≡ count) }
    ensures rows { IfOk result (λ rows. (k : ℕ) → k < count → row_at rows k ≡ ends_from k edges.now) }
{
    numbers_law();
    let starts: Vec<u32> = edges.iter().map(|edge| edge.from).collect(alloc)?;
    let mut rows = RowTable::group(alloc, &starts, count, 0)?;
    write_ends(alloc, edges, &mut rows)?;
    Ok(rows)
}
