ghost use Rattle.std.specs.Prelude.{◌≡◌, ℕ, ◌≤◌, false, Some, None, IfOk, OnOk, IfErr, OnErr};
ghost use Rattle.std.specs.List.{sum_by};
ghost use Rattle.limits.specs.Limits.{most_total};
ghost use Rattle.mp_system.specs.System.{item_size, size_where};
ghost use Rattle.mp_system.specs.Memory.{state_memory, running_memory, is_present};
ghost use Rattle.mp_system.specs.Traversal.{fault_of};
ghost use Rattle.mp_system.specs.Step.{AddsTask};
ghost use Rattle.mp_system.specs.Replay.{ReplayState, has_run};
ghost use Rattle.mp_system.specs.ReplayTables.{IsReplay};

use crate::NoMemory;
use crate::inputs::{input_rows, sum_if_ready};
use crate::outputs::output_sums;
use crate::system::{Item, OrderKind, System, Task};
use row_table::RowTable;
use std::alloc::Global;
use std::marker::Model;
use std::snapshot::Snapshot;

/// A replay of a system's tasks one after the other, between two of them. Liu 1987.
#[derive(Drop)]
pub struct Replay {
    // The system, for contracts alone: it takes no memory.
    system: Snapshot<System>,
    ran: Vec<bool>,
    outputs: Vec<u64>,
    inputs: RowTable,
    memory: u64,
}

impl Model for Replay {
    ghost Value = { ReplayState };

    ghost view = { λ r. record { system = r.system.value; ran = r.ran.items } };

    ghost invariant = { λ r. IsReplay r.system.value r.ran.items r.outputs.items r.inputs r.memory };
}

impl Replay {
    /// The state before the first task.
    pub fn new(alloc: Global, system: &System) -> Result<Replay, NoMemory>
        ensures system { IfOk result (λ replay. replay.system ≡ system.now) }
        ensures none { IfOk result (λ replay. (v : ℕ) → has_run replay v ≡ false) }
    {
        let outputs = output_sums(alloc, system)?;
        let inputs = input_rows(alloc, system)?;
        let ran = vec![in alloc; false; system.tasks().len()]?;
        let memory = start_memory(system.items());
        Ok(Replay {
            system: Snapshot::of(system),
            ran,
            outputs,
            inputs,
            memory,
        })
    }

    /// The memory of the state.
    pub fn memory(&self) -> u64
        ensures { result ≡ state_memory self.now.system (has_run self.now) }
    {
        self.memory
    }

    /// Runs a task of the system that the replay is of: the memory while it runs, or why it can't come next; then nothing changes.
    pub fn step(&mut self, system: &System, task: u32) -> Result<u64, OrderKind>
        requires { system.now ≡ self.old.system }
        ensures ran { IfOk result (λ memory.
            (fault_of system.now (has_run self.old) task ≡ None)
            × (memory ≡ running_memory system.now (has_run self.old) task)) }
        ensures next { OnOk result (AddsTask (has_run self.old) task (has_run self.new)) }
        ensures fault { IfErr result (λ kind. fault_of system.now (has_run self.old) task ≡ Some kind) }
        ensures unchanged { OnErr result (self.new ≡ self.old) }
        ensures system { self.new.system ≡ self.old.system }
    {
        if task == 0 || task as usize > system.tasks().len() {
            return Err(OrderKind::Unknown);
        }
        let place = task as usize - 1;
        if self.ran[place] {
            return Err(OrderKind::Repeated);
        }
        let Some(consumed) = sum_if_ready(&self.inputs, system, &self.ran, task) else {
            return Err(OrderKind::TooEarly);
        };
        let Task { extra, share, .. } = system.tasks()[place];
        let produced = self.outputs[place];
        let running = self.memory + (extra + produced - share);
        self.ran[place] = true;
        self.memory = self.memory + produced - consumed;
        Ok(running)
    }
}

// The sizes of the items that no task produces, together.
fn start_memory(items: &[Item]) -> u64
    requires { sum_by item_size items.now ≤ most_total }
    ensures { result ≡ size_where (is_present (λ _. false)) items.now }
{
    let mut memory: u64 = 0;
    for item in items {
        if item.from.is_none() {
            memory += item.size;
        }
    }
    memory
}
