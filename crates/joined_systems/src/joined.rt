ghost use Rattle.std.specs.Prelude.{◌≡◌, IfOk};
ghost use Rattle.joined_systems.specs.Joined.{IsJoinedOf};

use crate::NoMemory;
use crate::building::{copied, joined_with};
use crate::laws::safe_law;
use crate::needs::joins_of;
use shared_systems::SharedSystem;
use std::alloc::Global;

/// The system with its joins: tasks without need, numbered above its own, each of which comes after all the tasks that have the same
/// readers, takes over all that these make for others, and hands it on. It is the system itself where that would not be within the limits.
/// Linear in the tasks, the items and the readers of all items.
pub fn join_tasks(alloc: Global, system: &SharedSystem) -> Result<SharedSystem, NoMemory>
    ensures { IfOk result (IsJoinedOf system.now) }
{
    safe_law();
    let joins = joins_of(alloc, system)?;
    if let Some(made) = joined_with(alloc, system, &joins)? {
        return Ok(made);
    }
    copied(alloc, system)
}
