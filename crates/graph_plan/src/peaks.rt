ghost use Rattle.std.specs.Prelude.{◌≡◌, ◌≤◌, IfOk};
ghost use Rattle.limits.specs.Limits.{most_total};
ghost use Rattle.shared_systems.specs.SharedMemory.{shared_peak_of};
ghost use Rattle.shared_systems.specs.SharedTraversal.{IsSharedTraversal};

use crate::NoMemory;
use mp_system::ReplayRefusal;
use shared_systems::SharedSystem;
use shared_systems::laws::peak_limit_law;
use std::alloc::{AllocError, Global};

/// The peak of a traversal, at most 2^60.
pub fn peak_of(alloc: Global, system: &SharedSystem, order: &[u32]) -> Result<u64, NoMemory>
    requires { IsSharedTraversal system.now order.now }
    ensures peak { IfOk result (λ peak. peak ≡ shared_peak_of system.now order.now) }
    ensures within { IfOk result (λ peak. peak ≤ most_total) }
{
    peak_limit_law();
    system.keeps();
    match system.peak(alloc, order) {
        Ok(peak) => Ok(peak),
        Err(ReplayRefusal::NoMemory) => Err(AllocError),
        Err(ReplayRefusal::Order(_)) => unreachable!(),
    }
}
