//! Whether the shares of all tasks fit.

ghost use Rattle.std.specs.Prelude.{◌≡◌, ◌≢◌, ◌≤◌, ◌<◌, ◌+◌, ◌-◌, ◌^◌, ◌==◌, ◌↔◌, ℕ, length, if◌then◌else◌, slice_index_or, IfOk, IsTrue};
ghost use Rattle.std.specs.Prelude.{MatchOption, vec_len};
ghost use Rattle.limits.specs.Limits.{most_total};
ghost use Rattle.mp_system.specs.System.{HasShare, inputs_of, outputs_of};
ghost use Rattle.mp_system.specs.Given.{system_given};
ghost use Rattle.mp_system.specs.Judged.{ArePlain, total_given};
ghost use Rattle.lists.specs.Numbers.{Each, IsFirstWithout, IsPlace};

use crate::NoMemory;
use crate::given::{GivenItem, GivenTask};
use std::alloc::Global;

// For each task the sizes of what it consumes, together, and of what it produces.
#[derive(Drop)]
struct Sums {
    inputs: Vec<u64>,
    outputs: Vec<u64>,
}

// Adds a size to the sum of a task; 0 names none.
fn add(sums: &mut [u64], task: u32, size: u64)
    requires within { task ≤ length sums.old }
    requires fits { task ≢ 0 → slice_index_or sums.old (task - 1) 0 + size < 2 ^ 64 }
    ensures len { length sums.new ≡ length sums.old }
    ensures sums { (v : ℕ) → 1 ≤ v → slice_index_or sums.new (v - 1) 0
        ≡ slice_index_or sums.old (v - 1) 0 + (if task == v then size else 0) }
{
    if task != 0 {
        sums[task as usize - 1] += size;
    }
}

fn sums_of(alloc: Global, tasks: &[GivenTask], items: &[GivenItem]) -> Result<Sums, NoMemory>
    requires plain { ArePlain tasks.now items.now }
    requires total { total_given tasks.now items.now ≤ most_total }
    ensures len { IfOk result (λ sums. (vec_len sums.inputs ≡ length tasks.now) × (vec_len sums.outputs ≡ length tasks.now)) }
    ensures inputs { IfOk result (λ sums. (v : ℕ) → IsPlace (length tasks.now) v →
        slice_index_or sums.inputs.items (v - 1) 0 ≡ inputs_of (system_given tasks.now items.now) v) }
    ensures outputs { IfOk result (λ sums. (v : ℕ) → IsPlace (length tasks.now) v →
        slice_index_or sums.outputs.items (v - 1) 0 ≡ outputs_of (system_given tasks.now items.now) v) }
    ensures small { IfOk result (λ sums. (v : ℕ) → IsPlace (length tasks.now) v →
        slice_index_or sums.outputs.items (v - 1) 0 ≤ most_total) }
{
    let mut inputs: Vec<u64> = vec![in alloc; 0; tasks.len()]?;
    let mut outputs: Vec<u64> = vec![in alloc; 0; tasks.len()]?;
    for item in items {
        add(&mut inputs, item.to, item.size);
        add(&mut outputs, item.from, item.size);
    }
    Ok(Sums { inputs, outputs })
}

// Whether a share is at most what the task consumes, and at most its extra and what it produces.
fn fits(task: GivenTask, inputs: u64, outputs: u64) -> bool
    requires { task.extra + outputs < 2 ^ 64 }
    ensures { IsTrue result ↔ ((task.share ≤ inputs) × (task.share ≤ task.extra + outputs)) }
{
    task.share <= inputs && task.share <= task.extra + outputs
}

/// The lowest task whose share does not fit, if there is one.
pub fn first_unfit_share(
    alloc: Global,
    tasks: &[GivenTask],
    items: &[GivenItem],
) -> Result<Option<u32>, NoMemory>
    requires plain { ArePlain tasks.now items.now }
    requires total { total_given tasks.now items.now ≤ most_total }
    ensures { IfOk result (λ found. MatchOption found
        (Each (length tasks.now) (HasShare (system_given tasks.now items.now)))
        (λ v. IsFirstWithout (length tasks.now) (HasShare (system_given tasks.now items.now)) v)) }
{
    let sums = sums_of(alloc, tasks, items)?;
    for i in 0..tasks.len() {
        if !fits(tasks[i], sums.inputs[i], sums.outputs[i]) {
            return Ok(Some(i as u32 + 1));
        }
    }
    Ok(None)
}
