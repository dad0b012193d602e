//! Memory that is handed on along an order.

ghost use Rattle.std.specs.Prelude.{◌≡◌, ℕ, ◌+◌, ◌<◌, ◌≤◌, All, None, length, IfOk};
ghost use Rattle.limits.specs.Limits.{most_total};
ghost use Rattle.row_table.specs.Rows.{row_at};
ghost use Rattle.mp_system.specs.System.{IsTask};
ghost use Rattle.mp_system.specs.Memory.{peak_of, running_memory};
ghost use Rattle.mp_system.specs.Replay.{has_run};
ghost use Rattle.mp_system.specs.Step.{AddsTask};
ghost use Rattle.mp_system.specs.Traversal.{IsTraversal, fault_of};
ghost use Rattle.fences.specs.Workers.{relieved};
ghost use Rattle.fencing.specs.Takings.{AreTakings, IsInputAt};

use crate::NoMemory;
use crate::ledger::{Ledger, Taking};
use mp_system::laws::{peak_law, ready_law, state_step_law, traversal_law};
use mp_system::{Replay, System};
use row_table::RowTable;
use row_table::laws::numbers_law;
use std::alloc::Global;

// For each task the places of the items that it consumes, from 0; row 0 has those that no task consumes.
fn input_rows(alloc: Global, system: &System) -> Result<RowTable, NoMemory>
    ensures len { IfOk result (λ rows. length rows ≡ length system.now.tasks + 1) }
    ensures inputs { IfOk result (λ rows. (v : ℕ) → IsTask system.now v → All (IsInputAt system.now.items v) (row_at rows v)) }
{
    numbers_law();
    let consumers: Vec<u32> = system
        .items()
        .iter()
        .map(|item| item.to.unwrap_or(0))
        .collect(alloc)?;
    RowTable::group(alloc, &consumers, system.tasks().len() as u32 + 1, 0)
}

// Runs a task that can come next: the memory while it runs.
fn run(replay: &mut Replay, system: &System, task: u32) -> u64
    requires system { system.now ≡ replay.old.system }
    requires can { fault_of system.now (has_run replay.old) task ≡ None }
    ensures running { result ≡ running_memory system.now (has_run replay.old) task }
    ensures next { AddsTask (has_run replay.old) task (has_run replay.new) }
    ensures system { replay.new.system ≡ replay.old.system }
{
    match replay.step(system, task) {
        Ok(running) => running,
        Err(_) => unreachable!(),
    }
}

/// The most that a task of a traversal needs.
pub fn greatest_need(alloc: Global, system: &System, order: &[u32]) -> Result<u64, NoMemory>
    requires { IsTraversal system.now order.now }
    ensures { IfOk result (λ need. need ≤ most_total) }
{
    system.keeps();
    let mut replay = Replay::new(alloc, system)?;
    let mut greatest: u64 = 0;
    for task in order {
        let before = replay.memory();
        let running = run(&mut replay, system, *task);
        greatest = greatest.max(running - before);
    }
    Ok(greatest)
}

/// The peak of a traversal where each task needs less by the room of its worker.
pub fn relieved_peak(
    alloc: Global,
    system: &System,
    order: &[u32],
    room: u64,
) -> Result<u64, NoMemory>
    requires traversal { IsTraversal system.now order.now }
    ensures { IfOk result (λ peak. peak ≡ peak_of (relieved room system.now) order.now) }
{
    let mut replay = Replay::new(alloc, system)?;
    let mut peak = replay.memory();
    for task in order {
        let running = run(&mut replay, system, *task);
        peak = peak.max(running.saturating_sub(room)).max(replay.memory());
    }
    Ok(peak)
}

/// What each task of a traversal takes of what others gave back, where each needs less by the room of its worker, and all that is free at the
/// start is what the bound leaves.
pub fn takings_along(
    alloc: Global,
    system: &System,
    order: &[u32],
    room: u64,
    bound: u64,
) -> Result<Vec<Taking>, NoMemory>
    requires traversal { IsTraversal system.now order.now }
    requires bound { peak_of (relieved room system.now) order.now ≤ bound }
    ensures { IfOk result (λ takings. AreTakings (relieved room system.now) order.now bound takings.items) }
{
    peak_law();
    ready_law();
    traversal_law();
    state_step_law();
    system.keeps();
    let rows = input_rows(alloc, system)?;
    let mut replay = Replay::new(alloc, system)?;
    let mut ledger = Ledger::new(alloc, bound - replay.memory(), system.tasks().len())?;
    for task in order {
        let before = replay.memory();
        let running = run(&mut replay, system, *task);
        let after = replay.memory();
        let need = (running - before).saturating_sub(room);
        let taken = need.max(after.saturating_sub(before));
        ledger.take(system.items(), rows.row(*task), *task, taken)?;
        ledger.give(*task, before + taken - after)?;
    }
    Ok(ledger.takings)
}
