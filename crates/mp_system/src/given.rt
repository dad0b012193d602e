ghost use Rattle.std.specs.Prelude.{◌≡◌, map, IfOk};
ghost use Rattle.mp_system.specs.Given.{end_given, item_given, task_given};

use crate::NoMemory;
use crate::system::{Item, Task};
use std::alloc::Global;

/// A task, as a caller's array has it. Tasks are numbered from 1. The layout is that of the same struct in C.
#[repr(C)]
#[derive(Clone, Copy, Debug, PartialEq, Eq)]
pub struct GivenTask {
    /// What the task needs while it runs, beside what it consumes and produces, at most 2^40.
    pub extra: u64,
    /// How much of its need it takes over from what it consumes.
    pub share: u64,
    /// How long it runs, 1 to 2^40.
    pub time: u64,
}

/// A data item, as a caller's array has it. The layout is that of the same struct in C.
#[repr(C)]
#[derive(Clone, Copy, Debug, PartialEq, Eq)]
pub struct GivenItem {
    /// At most 2^40; 0 is a mere dependence.
    pub size: u64,
    /// The task that produces it; 0 where it is there from the start.
    pub from: u32,
    /// The task that consumes it; 0 where it stays to the end.
    pub to: u32,
}

/// The task that a number names; 0 names none.
pub fn end_of(task: u32) -> Option<u32>
    ensures { result ≡ end_given task }
{
    (task != 0).then_some(task)
}

/// The tasks that an array gives.
pub fn tasks_of(alloc: Global, tasks: &[GivenTask]) -> Result<Vec<Task>, NoMemory>
    ensures { IfOk result (λ made. made.items ≡ map task_given tasks.now) }
{
    tasks
        .iter()
        .map(|task| Task {
            extra: task.extra,
            share: task.share,
            time: task.time,
        })
        .collect(alloc)
}

/// The items that an array gives.
pub fn items_of(alloc: Global, items: &[GivenItem]) -> Result<Vec<Item>, NoMemory>
    ensures { IfOk result (λ made. made.items ≡ map item_given items.now) }
{
    items
        .iter()
        .map(|item| Item {
            size: item.size,
            from: end_of(item.from),
            to: end_of(item.to),
        })
        .collect(alloc)
}
