//! The entries of compressed columns as pairs of their rows and columns.

ghost use Rattle.std.specs.Prelude.{◌≡◌, ◌≤◌, ◌<◌, ◌-◌, ◌++◌, All, length, map, slice_index, IfOk, OnOk};
ghost use Rattle.limits.specs.Limits.{most_order, most_entries};
ghost use Rattle.patterns.specs.Pattern.{IsPairWithin};
ghost use Rattle.patterns.specs.Columns.{AreColumns, column_count, pairs_given, rows_in};
ghost use Rattle.lists.specs.Numbers.{IsNumberFrom, from_one};

use crate::NoMemory;
use std::alloc::Global;

// The entries of a column with these rows, after those that are there.
fn push_column(
    pairs: &mut Vec<(u32, u32)>,
    base: u32,
    rows: &[u32],
    column: u32,
) -> Result<(), NoMemory>
    requires { All (IsNumberFrom base most_order) rows.now }
    ensures { OnOk result (pairs.new.items ≡ pairs.old.items ++ map (λ row. (from_one base row, column)) rows.now) }
{
    for row in rows {
        pairs.push((*row - base + 1, column))?;
    }
    Ok(())
}

// The rows of the entries of a column, from 1.
fn rows_of<'a>(base: u32, starts: &[u32], rows: &'a [u32], column: usize) -> &'a [u32]
    requires columns { AreColumns base starts.now rows.now }
    requires column { (1 ≤ column) × (column < length starts.now) }
    ensures rows { result.now ≡ rows_in base starts.now rows.now column }
    ensures len { length result.now ≡ slice_index starts.now column - slice_index starts.now (column - 1) }
    ensures numbers { All (IsNumberFrom base (column_count starts.now)) result.now }
{
    let first = (starts[column - 1] - base) as usize;
    let end = (starts[column] - base) as usize;
    &rows[first..end]
}

/// All entries, column by column.
pub fn pairs_of(
    alloc: Global,
    base: u32,
    starts: &[u32],
    rows: &[u32],
) -> Result<Vec<(u32, u32)>, NoMemory>
    requires { AreColumns base starts.now rows.now }
    ensures value { IfOk result (λ pairs. pairs.items ≡ pairs_given base starts.now rows.now) }
    ensures few { IfOk result (λ pairs. length pairs.items ≤ most_entries) }
    ensures within { IfOk result (λ pairs. All (IsPairWithin (column_count starts.now)) pairs.items) }
{
    let mut pairs: Vec<(u32, u32)> = Vec::with_capacity(alloc, rows.len())?;
    for j in 1..starts.len() {
        push_column(&mut pairs, base, rows_of(base, starts, rows, j), j as u32)?;
    }
    Ok(pairs)
}
