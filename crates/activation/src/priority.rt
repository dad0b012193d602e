ghost use Rattle.std.specs.Prelude.{IfOk, IsTrue, ◌↔◌};
ghost use Rattle.activation.specs.Schedule.{HoldsEach};

use crate::NoMemory;
use crate::places::is_number;
use shared_systems::SharedSystem;
use std::alloc::Global;

/// Whether a priority holds each task of a system once, and nothing else: so much [`Simulator::run`](crate::Simulator::run) asks of one.
pub fn holds_each(alloc: Global, system: &SharedSystem, priority: &[u32]) -> Result<bool, NoMemory>
    ensures { IfOk result (λ each. IsTrue each ↔ HoldsEach system.now priority.now) }
{
    let mut found = vec![in alloc; false; system.tasks().len()]?;
    for task in priority {
        if !is_number(*task, found.len()) || found[*task as usize - 1] {
            return Ok(false);
        }
        found[*task as usize - 1] = true;
    }
    Ok(found.iter().all(|it| *it))
}
