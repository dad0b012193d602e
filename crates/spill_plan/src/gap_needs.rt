//! What each step of a traversal needs for itself, where an item may have several readers.

ghost use Rattle.std.specs.Prelude.{◌≡◌, ◌≤◌, ◌<◌, ◌+◌, ◌^◌, ℕ, if◌then◌else◌, length, map, slice_index, IfOk, vec_len};
ghost use Rattle.std.specs.Option.{ForSome};
ghost use Rattle.mp_system.specs.System.{is_named};
ghost use Rattle.shared_systems.specs.Shared.{shared_size_where, is_made_by};
ghost use Rattle.shared_systems.specs.SharedTraversal.{IsSharedTraversal};
ghost use Rattle.spill_plan.specs.Gaps.{gaps_of, own_gap_need};
ghost use Rattle.spill_plan.specs.GapSpans.{gap_span};
ghost use Rattle.spill_plan.specs.Spans.{end_sum};

use crate::NoMemory;
use shared_systems::SharedSystem;
use shared_systems::laws::order_law;
use std::alloc::Global;

// Adds a size at the place of a task, if there is one.
fn add_size(sums: &mut [u64], task: Option<u32>, size: u64)
    requires within { ForSome task (λ v. v < length sums.old) }
    requires fits { (v : ℕ) → slice_index sums.old v + size < 2 ^ 64 }
    ensures { (v : ℕ) → slice_index sums.new v ≡ slice_index sums.old v + (if is_named task v then size else 0) }
{
    if let Some(v) = task {
        sums[v as usize] += size;
    }
}

// For each task the sizes of what it makes, together; 0 at the place 0.
fn outputs_by_task(alloc: Global, system: &SharedSystem) -> Result<Vec<u64>, NoMemory>
    ensures len { IfOk result (λ sums. length sums.items ≡ length system.now.tasks + 1) }
    ensures sums { IfOk result (λ sums. (v : ℕ) → slice_index sums.items v ≡ shared_size_where (is_made_by v) system.now.items) }
{
    system.keeps();
    let items = system.items();
    let mut sums: Vec<u64> = vec![in alloc; 0; system.tasks().len() + 1]?;
    for i in 0..items.len() {
        add_size(&mut sums, items.producer(i), items.size(i));
    }
    Ok(sums)
}

/// What each step needs for itself, where for each step the sizes are known of the gaps that end there: these are its task's inputs.
pub fn own_gap_needs(
    alloc: Global,
    system: &SharedSystem,
    order: &[u32],
    leaving: &[u64],
) -> Result<Vec<u64>, NoMemory>
    requires traversal { IsSharedTraversal system.now order.now }
    requires len { length leaving.now ≡ length order.now + 1 }
    requires leaving { (k : ℕ) → k ≤ length order.now → slice_index leaving.now k ≡ end_sum k (map (gap_span order.now) (gaps_of system.now)) }
    ensures len { IfOk result (λ needs. vec_len needs ≡ length order.now) }
    ensures needs { IfOk result (λ needs. (step : ℕ) → step < length order.now →
        slice_index needs.items step ≡ own_gap_need system.now order.now step) }
    ensures small { IfOk result (λ needs. (step : ℕ) → step < length order.now → slice_index needs.items step ≤ 2 ^ 62) }
{
    order_law();
    let outputs = outputs_by_task(alloc, system)?;
    let tasks = system.tasks();
    let mut needs = Vec::with_capacity(alloc, order.len())?;
    for (step, number) in order.iter().enumerate() {
        let task = tasks[*number as usize - 1];
        needs.push(leaving[step] + (task.extra + outputs[*number as usize] - task.share))?;
    }
    Ok(needs)
}
