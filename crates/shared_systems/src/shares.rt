//! Whether the shares of all tasks fit.

ghost use Rattle.std.specs.Prelude.{◌≡◌, ◌≤◌, ◌<◌, ◌+◌, ◌^◌, ◌↔◌, ℕ, IfOk, IsTrue, MatchOption, length, slice_index};
ghost use Rattle.shared_systems.specs.Shared.{SharedTaskSystem, shared_size_where, is_made_by, is_read_by_alone, HasOwnShare};
ghost use Rattle.shared_systems.specs.Judged.{IsPlainShared};
ghost use Rattle.lists.specs.Numbers.{Each, IsFirstWithout};

use crate::NoMemory;
use crate::items::SharedItems;
use crate::sums::{outputs_of, own_inputs_of};
use mp_system::Task;
use std::alloc::Global;

// Whether a share is at most what the task alone reads, and at most its extra and what it produces.
fn fits(task: Task, own: u64, out: u64) -> bool
    requires { task.extra + out < 2 ^ 64 }
    ensures { IsTrue result ↔ ((task.share ≤ own) × (task.share ≤ task.extra + out)) }
{
    task.share <= own && task.share <= task.extra + out
}

// The lowest task whose share does not fit, given what each alone reads and produces.
fn first_unfit(tasks: &[Task], items: &SharedItems, own: &[u64], out: &[u64]) -> Option<u32>
    requires plain { IsPlainShared (record { tasks = tasks.now; items = items.now }) }
    requires own { (length own.now ≡ length tasks.now + 1) × ((v : ℕ) → slice_index own.now v ≡ shared_size_where (is_read_by_alone v) items.now) }
    requires out { (length out.now ≡ length tasks.now + 1) × ((v : ℕ) → slice_index out.now v ≡ shared_size_where (is_made_by v) items.now) }
    ensures { MatchOption result
        (Each (length tasks.now) (HasOwnShare (record { tasks = tasks.now; items = items.now })))
        (λ v. IsFirstWithout (length tasks.now) (HasOwnShare (record { tasks = tasks.now; items = items.now })) v) }
{
    let _ = items;
    for i in 0..tasks.len() {
        if !fits(tasks[i], own[i + 1], out[i + 1]) {
            return Some(i as u32 + 1);
        }
    }
    None
}

/// The lowest task whose share does not fit, if there is one. Linear.
pub fn first_unfit_share(
    alloc: Global,
    tasks: &[Task],
    items: &SharedItems,
) -> Result<Option<u32>, NoMemory>
    requires plain { IsPlainShared (record { tasks = tasks.now; items = items.now }) }
    ensures { IfOk result (λ found. MatchOption found
        (Each (length tasks.now) (HasOwnShare (record { tasks = tasks.now; items = items.now })))
        (λ v. IsFirstWithout (length tasks.now) (HasOwnShare (record { tasks = tasks.now; items = items.now })) v)) }
{
    let own = own_inputs_of(alloc, tasks.len(), items)?;
    let out = outputs_of(alloc, tasks.len(), items)?;
    Ok(first_unfit(tasks, items, &own, &out))
}
