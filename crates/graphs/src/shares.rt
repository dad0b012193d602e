//! Whether the shares of all tasks fit.

ghost use Rattle.std.specs.Prelude.{◌≡◌, ◌≤◌, ◌<◌, ◌+◌, ◌^◌, ◌↔◌, ℕ, All, IfOk, IsTrue, MatchOption, length, slice_index};
ghost use Rattle.std.specs.List.{sum_by};
ghost use Rattle.limits.specs.Limits.{most_tasks, most_total};
ghost use Rattle.mp_system.specs.System.{extra_size};
ghost use Rattle.graphs.specs.Graph.{IsAmong, IsArcWithin, TaskShareFits, size_into, size_out_of, arc_size};
ghost use Rattle.lists.specs.Numbers.{IsFirstWithout};

use crate::NoMemory;
use crate::arc::Arc;
use mp_system::Task;
use std::alloc::Global;

// What each task consumes; at 0 what none does.
fn sizes_into(alloc: Global, count: u32, arcs: &[Arc]) -> Result<Vec<u64>, NoMemory>
    requires within { All (IsArcWithin count) arcs.now }
    requires total { sum_by arc_size arcs.now ≤ most_total }
    ensures len { IfOk result (λ sizes. length sizes.items ≡ count + 1) }
    ensures sums { IfOk result (λ sizes. (v : ℕ) → slice_index sizes.items v ≡ sum_by (size_into v) arcs.now) }
{
    let mut sizes: Vec<u64> = vec![in alloc; 0; count as usize + 1]?;
    for arc in arcs {
        sizes[arc.to as usize] += arc.size;
    }
    Ok(sizes)
}

// What each task produces; at 0 what none does.
fn sizes_out_of(alloc: Global, count: u32, arcs: &[Arc]) -> Result<Vec<u64>, NoMemory>
    requires within { All (IsArcWithin count) arcs.now }
    requires total { sum_by arc_size arcs.now ≤ most_total }
    ensures len { IfOk result (λ sizes. length sizes.items ≡ count + 1) }
    ensures sums { IfOk result (λ sizes. (v : ℕ) → slice_index sizes.items v ≡ sum_by (size_out_of v) arcs.now) }
{
    let mut sizes: Vec<u64> = vec![in alloc; 0; count as usize + 1]?;
    for arc in arcs {
        sizes[arc.from as usize] += arc.size;
    }
    Ok(sizes)
}

// Whether a share is at most what the task consumes, and at most its extra and what it produces.
fn fits(task: Task, into: u64, out: u64) -> bool
    requires { task.extra + out < 2 ^ 64 }
    ensures { IsTrue result ↔ ((task.share ≤ into) × (task.share ≤ task.extra + out)) }
{
    task.share <= into && task.share <= task.extra + out
}

// The lowest task whose share does not fit, given what each consumes and produces.
fn first_unfit(tasks: &[Task], arcs: &[Arc], into: &[u64], out: &[u64]) -> Option<u32>
    requires few { length tasks.now ≤ most_tasks }
    requires total { sum_by extra_size tasks.now + sum_by arc_size arcs.now ≤ most_total }
    requires into { (length into.now ≡ length tasks.now + 1) × ((v : ℕ) → slice_index into.now v ≡ sum_by (size_into v) arcs.now) }
    requires out { (length out.now ≡ length tasks.now + 1) × ((v : ℕ) → slice_index out.now v ≡ sum_by (size_out_of v) arcs.now) }
    ensures { MatchOption result
        ((v : ℕ) → IsAmong (length tasks.now) v → TaskShareFits tasks.now arcs.now v)
        (λ v. IsFirstWithout (length tasks.now) (TaskShareFits tasks.now arcs.now) v) }
{
    for i in 0..tasks.len() {
        if !fits(tasks[i], into[i + 1], out[i + 1]) {
            return Some(i as u32 + 1);
        }
    }
    None
}

/// The lowest task whose share does not fit, if there is one.
pub fn first_unfit_share(
    alloc: Global,
    tasks: &[Task],
    arcs: &[Arc],
) -> Result<Option<u32>, NoMemory>
    requires few { length tasks.now ≤ most_tasks }
    requires within { All (IsArcWithin (length tasks.now)) arcs.now }
    requires total { sum_by extra_size tasks.now + sum_by arc_size arcs.now ≤ most_total }
    ensures { IfOk result (λ found. MatchOption found
        ((v : ℕ) → IsAmong (length tasks.now) v → TaskShareFits tasks.now arcs.now v)
        (λ v. IsFirstWithout (length tasks.now) (TaskShareFits tasks.now arcs.now) v)) }
{
    let count = tasks.len() as u32;
    let into = sizes_into(alloc, count, arcs)?;
    let out = sizes_out_of(alloc, count, arcs)?;
    Ok(first_unfit(tasks, arcs, &into, &out))
}
