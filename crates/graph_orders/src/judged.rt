//! Orders that are judged: what the search finds counts only where it is a traversal with a lower peak.

ghost use Rattle.std.specs.Prelude.{◌≡◌, ◌≤◌, IfOk, IfSome};
ghost use Rattle.shared_systems.specs.SharedMemory.{shared_peak_of};
ghost use Rattle.shared_systems.specs.SharedTraversal.{IsSharedTraversal};

use crate::NoMemory;
use crate::search::searched;
use mp_system::ReplayRefusal;
use shared_systems::SharedSystem;
use std::alloc::{AllocError, Global};

// The peak of an order, if it is a traversal.
fn peak_of(alloc: Global, system: &SharedSystem, order: &[u32]) -> Result<Option<u64>, NoMemory>
    ensures { IfOk result (λ found. IfSome found (λ peak.
        IsSharedTraversal system.now order.now × (peak ≡ shared_peak_of system.now order.now))) }
{
    match system.peak(alloc, order) {
        Ok(peak) => Ok(Some(peak)),
        Err(ReplayRefusal::Order(_)) => Ok(None),
        Err(ReplayRefusal::NoMemory) => Err(AllocError),
    }
}

// Of two orders the first, where it is a traversal and has a lower peak; else the second.
fn better_of(
    alloc: Global,
    system: &SharedSystem,
    found: Vec<u32>,
    start: &[u32],
) -> Result<Vec<u32>, NoMemory>
    requires { IsSharedTraversal system.now start.now }
    ensures traversal { IfOk result (λ order. IsSharedTraversal system.now order.items) }
    ensures peak { IfOk result (λ order. shared_peak_of system.now order.items ≤ shared_peak_of system.now start.now) }
{
    let most = peak_of(alloc, system, start)?;
    let peak = peak_of(alloc, system, &found)?;
    match (peak, most) {
        (Some(peak), Some(most)) if peak < most => Ok(found),
        _ => Vec::from_slice(alloc, start),
    }
}

/// A traversal of a system whose peak is no higher than that of the one it begins with. How much lower is not promised: it is the best that
/// is found with an effort, counted in steps. The search may end as soon as a peak is at most `enough`: a bound that no order can be below.
pub fn find_order(
    alloc: Global,
    system: &SharedSystem,
    start: &[u32],
    enough: u64,
    effort: u64,
) -> Result<Vec<u32>, NoMemory>
    requires { IsSharedTraversal system.now start.now }
    ensures traversal { IfOk result (λ order. IsSharedTraversal system.now order.items) }
    ensures peak { IfOk result (λ order. shared_peak_of system.now order.items ≤ shared_peak_of system.now start.now) }
{
    let found = searched(alloc, system, start, enough, effort)?;
    better_of(alloc, system, found, start)
}
