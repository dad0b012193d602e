ghost use Rattle.std.specs.Prelude.{◌≡◌, ◌≤◌, ◌<◌, ◌+◌, ◌^◌, ℕ, length, map, slice_index, IfOk, vec_len};
ghost use Rattle.mp_system.specs.Traversal.{IsTraversal};
ghost use Rattle.spill_plan.specs.SpillPlans.{own_need};
ghost use Rattle.spill_plan.specs.Spans.{span_of, start_sum, end_sum};

use crate::NoMemory;
use mp_system::System;
use mp_system::laws::traversal_law;
use std::alloc::Global;

/// What each step of a traversal needs for itself, where for each step the sizes are known of the items that start there, and of those that
/// end there. Those that end are its task's inputs, and those that start a step later its outputs.
pub fn own_needs(
    alloc: Global,
    system: &System,
    order: &[u32],
    joining: &[u64],
    leaving: &[u64],
) -> Result<Vec<u64>, NoMemory>
    requires traversal { IsTraversal system.now order.now }
    requires len { (length joining.now ≡ length order.now + 1) × (length leaving.now ≡ length order.now + 1) }
    requires joining { (k : ℕ) → k ≤ length order.now → slice_index joining.now k ≡ start_sum k (map (span_of order.now) system.now.items) }
    requires leaving { (k : ℕ) → k ≤ length order.now → slice_index leaving.now k ≡ end_sum k (map (span_of order.now) system.now.items) }
    ensures len { IfOk result (λ needs. vec_len needs ≡ length order.now) }
    ensures needs { IfOk result (λ needs. (step : ℕ) → step < length order.now →
        slice_index needs.items step ≡ own_need system.now order.now step) }
    ensures small { IfOk result (λ needs. (step : ℕ) → step < length order.now → slice_index needs.items step ≤ 2 ^ 62) }
{
    traversal_law();
    let tasks = system.tasks();
    let mut needs = Vec::with_capacity(alloc, order.len())?;
    for (step, task) in order.iter().enumerate() {
        let task = tasks[*task as usize - 1];
        needs.push(leaving[step] + (task.extra + joining[step + 1] - task.share))?;
    }
    Ok(needs)
}
