//! The bound that amounts certify.

ghost use Rattle.std.specs.Prelude.{◌≡◌, ◌+◌, ◌-◌, ◌^◌, ◌<◌, ◌≤◌, max, map, length, sum, IfOk};
ghost use Rattle.std.specs.List.{zip};
ghost use Rattle.fences.specs.Amounts.{AreHandedOn, with_size, certified_bound};
ghost use Rattle.fences.specs.Judged.{most_handed_on};
ghost use Rattle.fences.specs.Workers.{relieved};

use crate::NoMemory;
use crate::sums::{start_size, sums_of};
use mp_system::{Item, System, Task};
use std::alloc::Global;

// The items with the amounts as sizes.
fn carried(alloc: Global, items: &[Item], amounts: &[u64]) -> Result<Vec<Item>, NoMemory>
    requires { length amounts.now ≡ length items.now }
    ensures { IfOk result (λ carried. carried.items ≡ map with_size (zip items.now amounts.now)) }
{
    let mut carried: Vec<Item> = Vec::new(alloc);
    for i in 0..items.len() {
        carried.push(Item {
            size: amounts[i],
            from: items[i].from,
            to: items[i].to,
        })?;
    }
    Ok(carried)
}

// What a task with these inputs and outputs draws, where it needs less by the room, is handed so much and hands on so much.
fn drawn(task: Task, room: u64, input: u64, output: u64, received: u64, handed_on: u64) -> u64
    requires share { task.share ≤ task.extra + output }
    requires fits { input + (task.extra + output) < 2 ^ 64 }
    ensures { result ≡ max (input + (task.extra + output - task.share - room)) handed_on - received }
{
    let need = (task.extra + output - task.share).saturating_sub(room);
    let held = input + need;
    held.max(handed_on).saturating_sub(received)
}

/// The bound that the amounts certify, where each task needs less by the room.
pub fn bound_of(alloc: Global, system: &System, amounts: &[u64], room: u64) -> Result<u64, NoMemory>
    requires amounts { AreHandedOn system.now amounts.now }
    requires few { sum amounts.now ≤ most_handed_on }
    ensures { IfOk result (λ bound. bound ≡ certified_bound (relieved room system.now) amounts.now) }
{
    let (tasks, items) = (system.tasks(), system.items());
    let carried = carried(alloc, items, amounts)?;
    let sizes = sums_of(alloc, items, tasks.len())?;
    let handed = sums_of(alloc, &carried, tasks.len())?;
    let mut bound = start_size(&carried);
    for i in 0..tasks.len() {
        let (input, output) = (sizes.inputs[i], sizes.outputs[i]);
        let (received, handed_on) = (handed.inputs[i], handed.outputs[i]);
        bound += drawn(tasks[i], room, input, output, received, handed_on);
    }
    Ok(bound)
}
