ghost use Rattle.std.specs.Prelude.{◌≡◌, ℕ, false, All, map, IfOk};
ghost use Rattle.shared_systems.specs.Shared.{HasTask, shared_task_at};
ghost use Rattle.shared_systems.specs.SharedMemory.{shared_memory};

use crate::NoMemory;
use shared_systems::SharedSystem;
use std::alloc::Global;

/// The memory before any task has run: the items that no task produces.
pub fn start_memory(system: &SharedSystem) -> u64
    ensures { result ≡ shared_memory system.now (λ _. false) }
{
    let mut memory: u64 = 0;
    let items = system.items();
    for i in 0..items.len() {
        if items.producer(i).is_none() {
            memory += items.size(i);
        }
    }
    memory
}

/// How long each task takes, by the places of an order.
pub fn times_of(alloc: Global, system: &SharedSystem, order: &[u32]) -> Result<Vec<u64>, NoMemory>
    requires { All (HasTask system.now) order.now }
    ensures { IfOk result (λ times. times.items ≡ map (λ t. (shared_task_at system.now t).time) order.now) }
{
    let tasks = system.tasks();
    order
        .iter()
        .map(|task| tasks[*task as usize - 1].time)
        .collect(alloc)
}
