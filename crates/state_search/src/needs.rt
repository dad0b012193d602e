//! What each task makes, and what it needs beside the items that are there when it starts.

ghost use Rattle.std.specs.Prelude.{◌≡◌, ℕ, ◌+◌, ◌-◌, ◌<◌, ◌^◌, IfOk, length, slice_index, if◌then◌else◌};
ghost use Rattle.std.specs.Option.{ForSome};
ghost use Rattle.mp_system.specs.System.{is_named};
ghost use Rattle.shared_systems.specs.Shared.{HasTask, is_made_by, shared_need_of, shared_size_where};
ghost use Rattle.state_search.specs.Views.{AreAmounts};

use crate::NoMemory;
use mp_system::Task;
use shared_systems::SharedSystem;
use std::alloc::Global;

/// What each task makes, and nothing at the place 0; and what it needs, where that of the first one stands first.
#[derive(Drop)]
pub struct Amounts {
    pub outputs: Vec<u64>,
    pub needs: Vec<u64>,
}

// Adds a size at a task, if there is one.
fn add_size(sums: &mut [u64], task: Option<u32>, size: u64)
    requires within { ForSome task (λ v. v < length sums.old) }
    requires fits { (v : ℕ) → slice_index sums.old v + size < 2 ^ 64 }
    ensures { (v : ℕ) → slice_index sums.new v ≡ slice_index sums.old v + (if is_named task v then size else 0) }
{
    if let Some(task) = task {
        sums[task as usize] += size;
    }
}

// For each task the sizes of what it makes, together; 0 at the place 0.
fn outputs_of(alloc: Global, system: &SharedSystem) -> Result<Vec<u64>, NoMemory>
    ensures len { IfOk result (λ sums. length sums.items ≡ length system.now.tasks + 1) }
    ensures sums { IfOk result (λ sums. (v : ℕ) → slice_index sums.items v ≡ shared_size_where (is_made_by v) system.now.items) }
{
    system.keeps();
    let items = system.items();
    let count = system.tasks().len();
    let mut sums: Vec<u64> = vec![in alloc; 0; count + 1]?;
    for i in 0..items.len() {
        add_size(&mut sums, items.producer(i), items.size(i));
    }
    Ok(sums)
}

// What each task needs, given what each makes.
fn needs_with(alloc: Global, system: &SharedSystem, outputs: &[u64]) -> Result<Vec<u64>, NoMemory>
    requires len { length outputs.now ≡ length system.now.tasks + 1 }
    requires sums { (v : ℕ) → slice_index outputs.now v ≡ shared_size_where (is_made_by v) system.now.items }
    ensures len { IfOk result (λ needs. length needs.items ≡ length system.now.tasks) }
    ensures needs { IfOk result (λ needs. (v : ℕ) → HasTask system.now v → slice_index needs.items (v - 1) ≡ shared_need_of system.now v) }
{
    system.keeps();
    let tasks = system.tasks();
    let mut needs = Vec::new(alloc);
    for i in 0..tasks.len() {
        let Task { extra, share, .. } = tasks[i];
        needs.push(extra + outputs[i + 1] - share)?;
    }
    Ok(needs)
}

/// What each task makes and needs.
pub fn amounts_of(alloc: Global, system: &SharedSystem) -> Result<Amounts, NoMemory>
    ensures { IfOk result (λ amounts. AreAmounts system.now amounts) }
{
    let outputs = outputs_of(alloc, system)?;
    let needs = needs_with(alloc, system, &outputs)?;
    Ok(Amounts { outputs, needs })
}
