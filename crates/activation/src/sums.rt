ghost use Rattle.std.specs.Prelude.{◌≡◌, ℕ, ◌+◌, ◌<◌, ◌≤◌, ◌^◌, true, All, if◌then◌else◌, length, IfOk};
ghost use Rattle.mp_system.specs.System.{is_named};
ghost use Rattle.shared_systems.specs.Shared.{only, shared_need_of, own_inputs_of, shared_outputs_of, HasTask};
ghost use Rattle.activation.specs.Schedule.{task_entry};
ghost use Rattle.activation.specs.Running.{IsNumber};
ghost use Rattle.activation.specs.Tables.{AreByPlace};

use crate::NoMemory;
use crate::places::by_place;
use shared_systems::SharedSystem;
use std::alloc::Global;

/// Adds the size to the sum of the task that is named, if one is.
pub fn add_size(sums: &mut [u64], task: Option<u32>, size: u64)
    requires { (t : ℕ) → is_named task t ≡ true → IsNumber t (length sums.old) × (task_entry sums.old t + size < 2 ^ 64) }
    ensures { (t : ℕ) → task_entry sums.new t ≡ task_entry sums.old t + (if is_named task t then size else 0) }
{
    if let Some(named) = task {
        sums[named as usize - 1] += size;
    }
}

// The one reader, where there is just one.
fn only_of(readers: &[u32]) -> Option<u32>
    ensures { result ≡ only readers.now }
{
    match readers {
        [reader] => Some(*reader),
        _ => None,
    }
}

/// For each task a number of what it alone reads, and one of what it produces.
#[derive(Drop)]
pub struct Sums {
    pub inputs: Vec<u64>,
    pub outputs: Vec<u64>,
}

// For each task of a system the sizes of what it alone reads, together, and of what it produces.
fn sums_of(alloc: Global, system: &SharedSystem) -> Result<Sums, NoMemory>
    ensures inputs_len { IfOk result (λ sums. length sums.inputs.items ≡ length system.now.tasks) }
    ensures inputs { IfOk result (λ sums. (t : ℕ) → task_entry sums.inputs.items t ≡ own_inputs_of system.now t) }
    ensures outputs_len { IfOk result (λ sums. length sums.outputs.items ≡ length system.now.tasks) }
    ensures outputs { IfOk result (λ sums. (t : ℕ) → task_entry sums.outputs.items t ≡ shared_outputs_of system.now t) }
{
    let (tasks, items) = (system.tasks(), system.items());
    let mut inputs: Vec<u64> = vec![in alloc; 0; tasks.len()]?;
    let mut outputs: Vec<u64> = vec![in alloc; 0; tasks.len()]?;
    for i in 0..items.len() {
        add_size(&mut inputs, only_of(items.readers(i)), items.size(i));
        add_size(&mut outputs, items.producer(i), items.size(i));
    }
    Ok(Sums { inputs, outputs })
}

/// What each task needs while it runs, beside the items that are there; and what goes at its end, if it is the last reader of no item that
/// others read too: its need and what it alone reads, less its outputs.
#[derive(Drop)]
pub struct Needs {
    pub needs: Vec<u64>,
    pub frees: Vec<u64>,
}

// The needs of a system's tasks, by their numbers.
fn needs_by_task(alloc: Global, system: &SharedSystem) -> Result<Needs, NoMemory>
    ensures needs_len { IfOk result (λ r. length r.needs.items ≡ length system.now.tasks) }
    ensures needs { IfOk result (λ r. (t : ℕ) → HasTask system.now t → task_entry r.needs.items t ≡ shared_need_of system.now t) }
    ensures frees_len { IfOk result (λ r. length r.frees.items ≡ length system.now.tasks) }
    ensures frees { IfOk result (λ r. (t : ℕ) → HasTask system.now t →
        task_entry r.frees.items t + shared_outputs_of system.now t ≡ shared_need_of system.now t + own_inputs_of system.now t) }
{
    let tasks = system.tasks();
    let sums = sums_of(alloc, system)?;
    let (mut needs, mut frees) = (sums.outputs, sums.inputs);
    for i in 0..tasks.len() {
        needs[i] = tasks[i].extra + needs[i] - tasks[i].share;
        frees[i] = tasks[i].extra + frees[i] - tasks[i].share;
    }
    Ok(Needs { needs, frees })
}

/// The needs of a system's tasks, by the places of an order.
pub fn needs_of(alloc: Global, system: &SharedSystem, order: &[u32]) -> Result<Needs, NoMemory>
    requires { All (HasTask system.now) order.now }
    ensures needs { IfOk result (λ r. AreByPlace order.now (λ t n. n ≡ shared_need_of system.now t) r.needs.items) }
    ensures frees { IfOk result (λ r.
        AreByPlace order.now (λ t n. n + shared_outputs_of system.now t ≡ shared_need_of system.now t + own_inputs_of system.now t) r.frees.items) }
{
    let tables = needs_by_task(alloc, system)?;
    let needs = by_place(alloc, order, &tables.needs)?;
    let frees = by_place(alloc, order, &tables.frees)?;
    Ok(Needs { needs, frees })
}
