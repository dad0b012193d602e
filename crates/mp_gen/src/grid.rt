//! Grids.

ghost use Rattle.std.specs.Prelude.{◌≡◌, ◌<◌, ◌≤◌, ◌*◌, ◌^◌, ◌++◌, IfOk, OnOk};
ghost use Rattle.limits.specs.Limits.{most_mindeg};
ghost use Rattle.patterns.specs.Pattern.{IsPatternOf};
ghost use Rattle.mp_gen.specs.Grid.{grid_vertex, joins_at, joins_in_row, grid_pairs};

use crate::NoMemory;
use patterns::Pattern;
use std::alloc::Global;

// The number of a vertex.
fn vertex(cols: u32, row: u32, col: u32) -> u32
    requires { grid_vertex cols row col < 2 ^ 32 }
    ensures { result ≡ grid_vertex cols row col }
{
    row * cols + col + 1
}

// Joins a vertex to its right and to its lower neighbour.
#[tactic(auto, unfolding(crate::specs::Grid::joins_at))]
fn join(
    pairs: &mut Vec<(u32, u32)>,
    rows: u32,
    cols: u32,
    row: u32,
    col: u32,
) -> Result<(), NoMemory>
    requires few { rows * cols ≤ most_mindeg }
    requires row { row < rows }
    requires col { col < cols }
    ensures { OnOk result (pairs.new.items ≡ pairs.old.items ++ joins_at rows cols row col) }
{
    let here = vertex(cols, row, col);
    if col + 1 < cols {
        pairs.push((here, vertex(cols, row, col + 1)))?;
    }
    if row + 1 < rows {
        pairs.push((here, vertex(cols, row + 1, col)))?;
    }
    Ok(())
}

fn join_row(pairs: &mut Vec<(u32, u32)>, rows: u32, cols: u32, row: u32) -> Result<(), NoMemory>
    requires few { rows * cols ≤ most_mindeg }
    requires row { row < rows }
    ensures { OnOk result (pairs.new.items ≡ pairs.old.items ++ joins_in_row rows cols row) }
{
    for col in 0..cols {
        join(pairs, rows, cols, row, col)?;
    }
    Ok(())
}

/// The grid of so many rows and columns: its vertices are numbered row by row, and each is joined to its right and to its lower
/// neighbour. It has at most 50,000 vertices, as many as minimum degree takes. Linear in the vertices.
pub fn gen_grid(alloc: Global, rows: u32, cols: u32) -> Result<Pattern, NoMemory>
    requires rows { 1 ≤ rows }
    requires cols { 1 ≤ cols }
    requires few { rows * cols ≤ most_mindeg }
    ensures { IfOk result (λ pattern. IsPatternOf (rows * cols) (grid_pairs rows cols) pattern) }
{
    let mut pairs: Vec<(u32, u32)> = Vec::new(alloc);
    for row in 0..rows {
        join_row(&mut pairs, rows, cols, row)?;
    }
    Pattern::from_pairs(alloc, rows * cols, pairs)
}
