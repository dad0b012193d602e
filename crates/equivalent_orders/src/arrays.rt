//! The columns of fronts in arrays of numbers, as a caller gives them.

ghost use Rattle.std.specs.Prelude.{◌≡◌, ◌≤◌, ◌+◌, ◌++◌, ◌<◌, ℕ, All, length, map, IfErr, IfOk, OnOk, MatchOption, MatchResult};
ghost use Rattle.std.specs.List.{flat_map};
ghost use Rattle.limits.specs.Limits.{most_order, most_tasks};
ghost use Rattle.lists.specs.Numbers.{Each, IsFirstWithout, IsNumberFrom, number_at};
ghost use Rattle.row_table.specs.Rows.{row_at};
ghost use Rattle.permutations.specs.Order.{IsNumbersRefusal, order_given};
ghost use Rattle.permutations.specs.Perm.{IsPerm, IsVertex};
ghost use Rattle.equivalent_orders.specs.Arrays.{AreCounted, AreFrontColumns, IsFrontsRefusal, columns_along, front_of_column};

use crate::NoMemory;
use limits::{MOST_ORDER, MOST_TASKS};
use permutations::{PermRefusal, perm_of_numbers};
use row_table::RowTable;
use row_table::laws::numbers_law;
use std::alloc::Global;

/// Why arrays do not tell the columns of fronts.
#[derive(Clone, Copy, Debug, PartialEq, Eq)]
pub enum FrontsRefusal {
    /// There are more than 10^6 columns.
    ManyColumns,
    /// There are not as many fronts of columns as columns.
    Lengths,
    /// There are more than 10^6 fronts.
    ManyFronts,
    /// The columns are not each of them once.
    Columns(PermRefusal),
    /// The fronts are not each of them once.
    Fronts(PermRefusal),
    /// The front of this column, the first such by its number, counted from 1, is none of those in the order.
    Front(u32),
    /// Memory ran out, which says nothing of the arrays.
    NoMemory,
}

impl From<NoMemory> for FrontsRefusal {
    ghost use Rattle.equivalent_orders.specs.declared.arrays.FrontsRefusal.TheVariants.{NoMemory as OutOfMemory};

    ghost from_gives = { λ _ e. e ≡ OutOfMemory };

    fn from(_no_memory: NoMemory) -> FrontsRefusal {
        FrontsRefusal::NoMemory
    }
}

// ---- what is given

// Whether there are as many as there may be, and a front for each column.
fn judge_counts(columns: &[u32], front_of: &[u32], fronts: &[u32]) -> Result<(), FrontsRefusal>
    ensures { MatchResult result (λ _. AreCounted columns.now front_of.now fronts.now)
        (λ e. (base : ℕ) → IsFrontsRefusal base columns.now front_of.now fronts.now e) }
{
    if columns.len() as u64 > MOST_ORDER {
        return Err(FrontsRefusal::ManyColumns);
    }
    if front_of.len() != columns.len() {
        return Err(FrontsRefusal::Lengths);
    }
    if fronts.len() as u64 > MOST_TASKS {
        return Err(FrontsRefusal::ManyFronts);
    }
    Ok(())
}

// Whether numbers, counted from a base, are each of as many once.
fn judge_order(alloc: Global, base: u32, numbers: &[u32]) -> Result<(), PermRefusal>
    requires { length numbers.now ≤ most_order }
    ensures { MatchResult result (λ _. IsPerm (length numbers.now) (order_given base numbers.now))
        (IsNumbersRefusal base (length numbers.now) numbers.now) }
{
    let _order = perm_of_numbers(alloc, base, numbers, numbers.len() as u32)?;
    Ok(())
}

// The first column, counted from 1, whose front is none of so many.
fn first_without(front_of: &[u32], count: usize) -> Option<u32>
    requires { length front_of.now ≤ most_order }
    ensures { MatchOption result (Each (length front_of.now) (λ k. IsVertex count (number_at front_of.now k)))
        (IsFirstWithout (length front_of.now) (λ k. IsVertex count (number_at front_of.now k))) }
{
    for i in 0..front_of.len() {
        if front_of[i] == 0 || front_of[i] as usize > count {
            return Some(i as u32 + 1);
        }
    }
    None
}

fn judge(
    alloc: Global,
    base: u32,
    columns: &[u32],
    front_of: &[u32],
    fronts: &[u32],
) -> Result<(), FrontsRefusal>
    ensures { MatchResult result (λ _. AreFrontColumns base columns.now front_of.now fronts.now)
        (IsFrontsRefusal base columns.now front_of.now fronts.now) }
{
    judge_counts(columns, front_of, fronts)?;
    if let Err(refusal) = judge_order(alloc, base, columns) {
        return Err(FrontsRefusal::Columns(refusal));
    }
    if let Err(refusal) = judge_order(alloc, 1, fronts) {
        return Err(FrontsRefusal::Fronts(refusal));
    }
    match first_without(front_of, fronts.len()) {
        Some(column) => Err(FrontsRefusal::Front(column)),
        None => Ok(()),
    }
}

// ---- the columns, front by front

// The front of each column, as the columns stand.
fn fronts_in_turn(
    alloc: Global,
    base: u32,
    columns: &[u32],
    front_of: &[u32],
) -> Result<Vec<u32>, NoMemory>
    requires { All (IsNumberFrom base (length front_of.now)) columns.now }
    ensures { IfOk result (λ fronts. fronts.items ≡ map (front_of_column base front_of.now) columns.now) }
{
    let mut fronts = Vec::with_capacity(alloc, columns.len())?;
    for column in columns {
        fronts.push(front_of[(*column - base) as usize])?;
    }
    Ok(fronts)
}

// Puts the columns at these places at the end of an order.
fn push_columns(order: &mut Vec<u32>, columns: &[u32], places: &[u32]) -> Result<(), NoMemory>
    requires { All (IsVertex (length columns.now)) places.now }
    ensures { OnOk result (order.new.items ≡ order.old.items ++ map (number_at columns.now) places.now) }
{
    for place in places {
        order.push(columns[*place as usize - 1])?;
    }
    Ok(())
}

// The columns at the places in the rows of these fronts, one row after another.
fn columns_of_rows(
    alloc: Global,
    columns: &[u32],
    places: &RowTable,
    fronts: &[u32],
) -> Result<Vec<u32>, NoMemory>
    requires rows { All (λ s. s < length places.now) fronts.now }
    requires places { All (λ s. All (IsVertex (length columns.now)) (row_at places.now s)) fronts.now }
    ensures { IfOk result (λ order. order.items ≡ flat_map (λ s. map (number_at columns.now) (row_at places.now s)) fronts.now) }
{
    let mut order = Vec::with_capacity(alloc, columns.len())?;
    for front in fronts {
        push_columns(&mut order, columns, places.row(*front))?;
    }
    Ok(order)
}

/// The columns of each front in the order in which they stand, one front after another in their order; or why the arrays do not tell them.
/// Columns count from a base, fronts from 1, and the front of each column stands at the place that its number tells. Linear: a stable
/// counting sort. What the order keeps says `laws::columns_in_arrays`.
pub fn columns_along(
    alloc: Global,
    base: u32,
    columns: &[u32],
    front_of: &[u32],
    fronts: &[u32],
) -> Result<Vec<u32>, FrontsRefusal>
    ensures along { IfOk result (λ order. order.items ≡ columns_along base columns.now front_of.now fronts.now) }
    ensures given { OnOk result (AreFrontColumns base columns.now front_of.now fronts.now) }
    ensures len { IfOk result (λ order. length order.items ≡ length columns.now) }
    ensures refused { IfErr result (IsFrontsRefusal base columns.now front_of.now fronts.now) }
{
    numbers_law();
    judge(alloc, base, columns, front_of, fronts)?;
    let keys = fronts_in_turn(alloc, base, columns, front_of)?;
    let places = RowTable::group(alloc, &keys, fronts.len() as u32 + 1, 1)?;
    Ok(columns_of_rows(alloc, columns, &places, fronts)?)
}
