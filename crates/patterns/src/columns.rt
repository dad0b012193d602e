//! Whether compressed columns that a caller gives are those of a matrix.

ghost use Rattle.std.specs.Prelude.{◌≡◌, ◌<◌, ◌+◌, ◌-◌, ◌↔◌, length, IfOk, IfErr, IsTrue, MatchResult};
ghost use Rattle.patterns.specs.Pattern.{IsPatternOf};
ghost use Rattle.patterns.specs.Columns.{AreColumns, AreEntriesCounted, IsColumnsRefusal, StartFits, StartsFit, EndTogether, RowFits};
ghost use Rattle.patterns.specs.Columns.{column_count, pairs_given};
ghost use Rattle.lists.specs.Numbers.{Each, IsNumberFrom};

use crate::NoMemory;
use crate::column_pairs::pairs_of;
use crate::pattern::Pattern;
use limits::{MOST_ENTRIES, MOST_ORDER};
use std::alloc::Global;

/// Why compressed columns are none of a matrix.
#[derive(Clone, Copy, Debug, PartialEq, Eq)]
pub enum ColumnsRefusal {
    /// The base is greater than 1.
    Base,
    /// There is no column: fewer than two starts.
    NoColumn,
    /// There are more than 10^6 columns.
    ManyColumns,
    /// There are more than 10^7 entries.
    ManyEntries,
    /// This start, the first such, counted from 1, is below the one before; or it is the first, and is not the base.
    Start(u32),
    /// The starts tell this number of entries, and there are not as many rows.
    Entries(u32),
    /// The row of this entry, the first such, counted from 1, is none.
    Row(u32),
    /// Memory ran out, which says nothing of the columns.
    NoMemory,
}

impl From<NoMemory> for ColumnsRefusal {
    ghost use Rattle.patterns.specs.declared.columns.ColumnsRefusal.TheVariants.{NoMemory as OutOfMemory};

    ghost from_gives = { λ _ e. e ≡ OutOfMemory };

    fn from(_no_memory: NoMemory) -> ColumnsRefusal {
        ColumnsRefusal::NoMemory
    }
}

// Whether there is a number of columns and entries that there may be.
fn judge_counts(base: u32, starts: &[u32], rows: &[u32]) -> Result<(), ColumnsRefusal>
    ensures { MatchResult result (λ _. AreEntriesCounted base starts.now rows.now) (IsColumnsRefusal base starts.now rows.now) }
{
    if base > 1 {
        return Err(ColumnsRefusal::Base);
    }
    if starts.len() < 2 {
        return Err(ColumnsRefusal::NoColumn);
    }
    if (starts.len() - 1) as u64 > MOST_ORDER {
        return Err(ColumnsRefusal::ManyColumns);
    }
    if rows.len() as u64 > MOST_ENTRIES {
        return Err(ColumnsRefusal::ManyEntries);
    }
    Ok(())
}

// Whether a start, here counted from 0, is right.
fn start_fits(base: u32, starts: &[u32], i: usize) -> bool
    requires { i < length starts.now }
    ensures { IsTrue result ↔ StartFits base starts.now (i + 1) }
{
    if i == 0 {
        starts[0] == base
    } else {
        starts[i - 1] <= starts[i]
    }
}

// Whether the columns start one after the other.
fn judge_starts(base: u32, starts: &[u32], rows: &[u32]) -> Result<(), ColumnsRefusal>
    requires { AreEntriesCounted base starts.now rows.now }
    ensures { MatchResult result (λ _. StartsFit base starts.now) (IsColumnsRefusal base starts.now rows.now) }
{
    for i in 0..starts.len() {
        if !start_fits(base, starts, i) {
            return Err(ColumnsRefusal::Start(i as u32 + 1));
        }
    }
    Ok(())
}

// Whether the last column ends where the entries do.
fn judge_end(base: u32, starts: &[u32], rows: &[u32]) -> Result<(), ColumnsRefusal>
    requires counted { AreEntriesCounted base starts.now rows.now }
    requires starts { StartsFit base starts.now }
    ensures { MatchResult result (λ _. EndTogether base starts.now rows.now) (IsColumnsRefusal base starts.now rows.now) }
{
    let told = starts[starts.len() - 1] - base;
    if told as usize != rows.len() {
        return Err(ColumnsRefusal::Entries(told));
    }
    Ok(())
}

// Whether the row of an entry is one of so many, counted from a base.
fn row_fits(base: u32, columns: usize, row: u32) -> bool
    ensures { IsTrue result ↔ IsNumberFrom base columns row }
{
    base <= row && ((row - base) as usize) < columns
}

// Whether the row of each entry is one.
fn judge_rows(base: u32, starts: &[u32], rows: &[u32]) -> Result<(), ColumnsRefusal>
    requires counted { AreEntriesCounted base starts.now rows.now }
    requires starts { StartsFit base starts.now }
    requires together { EndTogether base starts.now rows.now }
    ensures { MatchResult result (λ _. Each (length rows.now) (RowFits base starts.now rows.now))
        (IsColumnsRefusal base starts.now rows.now) }
{
    for i in 0..rows.len() {
        if !row_fits(base, starts.len() - 1, rows[i]) {
            return Err(ColumnsRefusal::Row(i as u32 + 1));
        }
    }
    Ok(())
}

fn judge(base: u32, starts: &[u32], rows: &[u32]) -> Result<(), ColumnsRefusal>
    ensures { MatchResult result (λ _. AreColumns base starts.now rows.now) (IsColumnsRefusal base starts.now rows.now) }
{
    judge_counts(base, starts, rows)?;
    judge_starts(base, starts, rows)?;
    judge_end(base, starts, rows)?;
    judge_rows(base, starts, rows)
}

/// The pattern of a matrix of compressed columns, whose starts and rows count from a base, 0 or 1; or why they are none of a matrix: the
/// first test that fails, with the first place that fails it. An entry joins its row and its column, so either triangle may be given, or
/// both; entries that are given again count once, and those of the diagonal join nothing. Linear, beside what `from_pairs` takes.
pub fn pattern_of_columns(
    alloc: Global,
    base: u32,
    starts: &[u32],
    rows: &[u32],
) -> Result<Pattern, ColumnsRefusal>
    ensures pattern { IfOk result (λ pattern. IsPatternOf (column_count starts.now) (pairs_given base starts.now rows.now) pattern) }
    ensures columns { IfOk result (λ _. AreColumns base starts.now rows.now) }
    ensures refused { IfErr result (IsColumnsRefusal base starts.now rows.now) }
{
    judge(base, starts, rows)?;
    let pairs = pairs_of(alloc, base, starts, rows)?;
    Ok(Pattern::from_pairs(alloc, (starts.len() - 1) as u32, pairs)?)
}
