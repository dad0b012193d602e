//! Whether evidence keeps to the limits, whatever the system.

ghost use Rattle.std.specs.Prelude.{◌≤◌, ◌↔◌, All, IsTrue, map};
ghost use Rattle.std.specs.List.{sum_by};
ghost use Rattle.std.specs.List.Sorted.{IsStrictlyIncreasing};
ghost use Rattle.plans.specs.Plan.{most_number};
ghost use Rattle.peak_bounds.specs.Evidence.{IsAmount, AreAmounts, place_of};
ghost use Rattle.bounded_plans.specs.BoundedPlan.{own_count, IsBlockerWithin, IsSetWithin, IsWithin};
ghost use Rattle.bounded_plans.specs.declared.evidence.BoundEvidence.TheVariants.{Sums};

use limits::{MOST_POSITIONS, MOST_TASKS, MOST_TOTAL};
use peak_bounds::{Amount, Blocker, EventSet, Evidence};

// Whether an amount is told of a place from 1, and is from -2^60 to 2^60.
fn is_amount(told: &Amount) -> bool
    ensures { IsTrue result ↔ IsAmount most_number told.now }
{
    told.place != 0 && told.amount.unsigned_abs() <= MOST_TOTAL
}

fn are_each(amounts: &[Amount]) -> bool
    ensures { IsTrue result ↔ All (IsAmount most_number) amounts.now }
{
    amounts.iter().all(|told| is_amount(told))
}

fn are_rising(amounts: &[Amount]) -> bool
    ensures { IsTrue result ↔ IsStrictlyIncreasing (map place_of amounts.now) }
{
    for i in 1..amounts.len() {
        if amounts[i - 1].place >= amounts[i].place {
            return false;
        }
    }
    true
}

fn are_amounts(amounts: &[Amount]) -> bool
    ensures { IsTrue result ↔ AreAmounts most_number amounts.now }
{
    are_each(amounts) && are_rising(amounts)
}

fn is_blocker(blocker: &Blocker) -> bool
    ensures { IsTrue result ↔ IsBlockerWithin blocker.now }
{
    let _task = blocker.task();
    are_amounts(blocker.amounts())
}

fn are_blockers(blockers: &[Blocker]) -> bool
    ensures { IsTrue result ↔ All IsBlockerWithin blockers.now }
{
    blockers.iter().all(|blocker| is_blocker(blocker))
}

// Whether blockers have together at most so many amounts of their own.
fn have_at_most(blockers: &[Blocker], most: u64) -> bool
    ensures { IsTrue result ↔ (sum_by own_count blockers.now ≤ most) }
{
    let mut left = most;
    for blocker in blockers {
        let own = blocker.amounts().len() as u64;
        if own > left {
            return false;
        }
        left -= own;
    }
    true
}

// Whether a set has so few blockers, and so few amounts with theirs.
fn is_set(set: &EventSet) -> bool
    ensures { IsTrue result ↔ IsSetWithin set.now }
{
    let base = set.base();
    let blockers = set.blockers();
    let told = base.len() as u64;
    blockers.len() as u64 <= MOST_TASKS
        && told <= MOST_POSITIONS
        && have_at_most(blockers, MOST_POSITIONS - told)
        && are_amounts(base)
        && are_blockers(blockers)
}

/// Whether evidence keeps to the limits, whatever the system: the need of a task is that of a number from 1; a set has at most 10^6
/// blockers and, with theirs, at most 4,000,001 amounts, which are told of places from 1 that rise, and are from -2^60 to 2^60. Linear in
/// the evidence.
pub fn evidence_within(evidence: &Evidence) -> bool
    ensures { IsTrue result ↔ IsWithin (Sums evidence.now) }
{
    match evidence {
        Evidence::Start => true,
        Evidence::Need(task) => *task != 0,
        Evidence::Set(set) => is_set(set),
    }
}
