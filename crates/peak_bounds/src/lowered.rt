//! Amounts, as they are told, and whether lowered sizes fit the items.

ghost use Rattle.std.specs.Prelude.{◌≡◌, ◌≤◌, ◌↔◌, ℕ, All, IsTrue, length, map, Option};
ghost use Rattle.std.specs.List.{sum_by};
ghost use Rattle.std.specs.List.Sorted.{IsStrictlyIncreasing};
ghost use Rattle.peak_bounds.specs.Moments.{uses_for, uses_of, above_zero, FitSizes};
ghost use Rattle.peak_bounds.specs.Evidence.{IsAmount, AreAmounts, place_of};

use crate::evidence::Amount;
use limits::MOST_TOTAL;
use shared_systems::SharedItems;

// Whether an amount is told of one of so many uses, and within the limits.
fn is_amount(told: Amount, count: usize) -> bool
    ensures { IsTrue result ↔ IsAmount count told }
{
    told.place != 0 && told.place as usize <= count && told.amount.unsigned_abs() <= MOST_TOTAL
}

fn are_each(amounts: &[Amount], count: usize) -> bool
    ensures { IsTrue result ↔ All (IsAmount count) amounts.now }
{
    amounts.iter().all(|told| is_amount(*told, count))
}

fn are_rising(amounts: &[Amount]) -> bool
    ensures { IsTrue result ↔ IsStrictlyIncreasing (map place_of amounts.now) }
{
    for i in 1..amounts.len() {
        if amounts[i - 1].place >= amounts[i].place {
            return false;
        }
    }
    true
}

/// Whether amounts are told of so many uses, of none twice, and are within the limits.
pub fn are_amounts(amounts: &[Amount], count: usize) -> bool
    ensures { IsTrue result ↔ AreAmounts count amounts.now }
{
    are_each(amounts, count) && are_rising(amounts)
}

fn above_zero(lowered: i64) -> u64
    ensures { result ≡ above_zero lowered }
{
    if lowered > 0 {
        lowered.unsigned_abs()
    } else {
        0
    }
}

/// Whether those above 0 are together at most the size.
pub fn fits(part: &[i64], size: u64) -> bool
    ensures { IsTrue result ↔ (sum_by above_zero part.now ≤ size) }
{
    let mut left = size;
    for lowered in part {
        let counted = above_zero(*lowered);
        if counted > left {
            return false;
        }
        left -= counted;
    }
    true
}

/// How many uses an item has.
pub fn use_count(readers: &[u32]) -> usize
    ensures { (from : Option ℕ) → result ≡ length (uses_for from readers.now) }
{
    if readers.is_empty() { 1 } else { readers.len() }
}

/// Whether no item counts for more than it is.
pub fn fit_sizes(items: &SharedItems, lowered: &[i64]) -> bool
    requires { length lowered.now ≡ length (uses_of items.now) }
    ensures { IsTrue result ↔ FitSizes items.now lowered.now }
{
    let mut start = 0;
    for i in 0..items.len() {
        let end = start + use_count(items.readers(i));
        if !fits(&lowered[start..end], items.size(i)) {
            return false;
        }
        start = end;
    }
    true
}
