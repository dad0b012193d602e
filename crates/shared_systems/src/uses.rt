//! An arc of a task graph for each reader of an item, to see which tasks can be ordered.

ghost use Rattle.std.specs.Prelude.{◌≡◌, ◌+◌, ◌++◌, ◌≤◌, ◌<◌, IfOk, MatchOption, OnOk, length, map, unwrap_or};
ghost use Rattle.graphs.specs.Graph.{arc_between, CanBeOrdered};
ghost use Rattle.shared_systems.specs.SharedTraversal.{IsSharedTraversal};
ghost use Rattle.lists.specs.Numbers.{Each, IsFirstWithout};
ghost use Rattle.shared_systems.specs.Bounds.{use_arcs};
ghost use Rattle.shared_systems.specs.Judged.{IsPlainShared};

use crate::NoMemory;
use crate::items::SharedItems;
use crate::system::SharedSystem;
use graphs::{Arc, first_unordered, ordered_tasks};
use mp_system::Task;
use std::alloc::Global;

// The arcs of an item.
fn push_arcs(arcs: &mut Vec<Arc>, producer: Option<u32>, readers: &[u32]) -> Result<(), NoMemory>
    ensures { OnOk result (arcs.new.items ≡ arcs.old.items ++ map (arc_between (unwrap_or producer 0)) readers.now) }
{
    let from = producer.unwrap_or(0);
    for reader in readers {
        arcs.push(Arc {
            from,
            to: *reader,
            size: 0,
        })?;
    }
    Ok(())
}

// The arcs of all items.
fn use_arcs(alloc: Global, items: &SharedItems) -> Result<Vec<Arc>, NoMemory>
    ensures { IfOk result (λ arcs. arcs.items ≡ use_arcs items.now) }
{
    let mut arcs = Vec::new(alloc);
    for i in 0..items.len() {
        push_arcs(&mut arcs, items.producer(i), items.readers(i))?;
    }
    Ok(arcs)
}

/// The lowest task that can't be ordered, if there is one. Linear in the tasks and the readers of all items.
pub fn first_unordered_task(
    alloc: Global,
    tasks: &[Task],
    items: &SharedItems,
) -> Result<Option<u32>, NoMemory>
    requires plain { IsPlainShared (record { tasks = tasks.now; items = items.now }) }
    ensures { IfOk result (λ found. MatchOption found
        (Each (length tasks.now) (CanBeOrdered (use_arcs items.now)))
        (λ v. IsFirstWithout (length tasks.now) (CanBeOrdered (use_arcs items.now)) v)) }
{
    let arcs = use_arcs(alloc, items)?;
    first_unordered(alloc, tasks.len() as u32, &arcs)
}

/// A traversal: the tasks breadth first, the lower first of those that read what no task makes. `NoMemory` says nothing of the system.
/// Linear in the tasks and the readers of all items. Kahn 1962.
pub fn first_order(alloc: Global, system: &SharedSystem) -> Result<Vec<u32>, NoMemory>
    ensures { IfOk result (λ order. IsSharedTraversal system.now order.items) }
{
    let tasks = system.tasks();
    let arcs = use_arcs(alloc, system.items())?;
    let order = ordered_tasks(alloc, tasks.len() as u32, &arcs)?;
    Ok(order)
}
