//! Which tasks are taken as the last that was run before a state.

ghost use Rattle.std.specs.Prelude.{◌≡◌, ℕ, ◌≤◌, ◌↔◌, ◌&&◌, not, true, false, IfOk, MatchOption, length};
ghost use Rattle.limits.specs.Limits.{most_total};
ghost use Rattle.mp_system.specs.Memory.{stands_in};
ghost use Rattle.mp_system.specs.Replay.{is_marked};
ghost use Rattle.shared_systems.specs.Shared.{HasTask};
ghost use Rattle.state_search.specs.States as states;
ghost use Rattle.state_search.specs.States.{has_successor, can_be_last, IsStepBack};
ghost use Rattle.state_search.specs.Views.{IsView, AreAmounts};

use crate::NoMemory;
use crate::marks::is_marked;
use crate::needs::Amounts;
use crate::view::View;
use shared_systems::SharedSystem;
use std::alloc::Global;

// Whether a task is done, and no task that is done reads what it makes.
fn is_free(system: &SharedSystem, marks: &[bool], view: &View, task: u32) -> bool
    requires view { IsView system.now marks.now view.now }
    requires task { HasTask system.now task }
    ensures { result ≡ (is_marked marks.now task && not (has_successor system.now marks.now task)) }
{
    is_marked(marks, task) && !view.taken_up[task as usize]
}

// The memory before such a task.
fn memory_before(
    system: &SharedSystem,
    amounts: &Amounts,
    marks: &[bool],
    view: &View,
    task: u32,
) -> u64
    requires amounts { AreAmounts system.now amounts.now }
    requires view { IsView system.now marks.now view.now }
    requires task { HasTask system.now task }
    requires free { (is_marked marks.now task && not (has_successor system.now marks.now task)) ≡ true }
    ensures value { result ≡ states.memory_before system.now marks.now task }
    ensures within { result ≤ most_total }
{
    system.keeps();
    let i = task as usize;
    let regained = view.regained[i];
    let outputs = amounts.outputs[i];
    view.memory + regained - outputs
}

// The memory before a task, where it can be the last one.
fn memory_if_last(
    system: &SharedSystem,
    amounts: &Amounts,
    bound: u64,
    marks: &[bool],
    view: &View,
    task: u32,
) -> Option<u64>
    requires amounts { AreAmounts system.now amounts.now }
    requires view { IsView system.now marks.now view.now }
    requires task { HasTask system.now task }
    ensures { MatchOption result (can_be_last system.now bound marks.now task ≡ false)
        (λ before. (can_be_last system.now bound marks.now task ≡ true) × (before ≡ states.memory_before system.now marks.now task)) }
{
    system.keeps();
    if !is_free(system, marks, view, task) {
        return None;
    }
    let before = memory_before(system, amounts, marks, view, task);
    let need = amounts.needs[task as usize - 1];
    if before + need >= bound {
        return None;
    }
    Some(before)
}

/// The tasks that are taken as the last before a state: the first that may wait; where there is none, each that can be the last.
pub fn last_of(
    alloc: Global,
    system: &SharedSystem,
    amounts: &Amounts,
    bound: u64,
    marks: &[bool],
    view: &View,
) -> Result<Vec<u32>, NoMemory>
    requires amounts { AreAmounts system.now amounts.now }
    requires view { IsView system.now marks.now view.now }
    requires len { length marks.now ≡ length system.now.tasks }
    ensures { IfOk result (λ steps. (v : ℕ) → (stands_in steps.items v ≡ true) ↔ IsStepBack system.now bound marks.now v) }
{
    let mut steps = Vec::new(alloc);
    for i in 0..system.tasks().len() {
        let task = i as u32 + 1;
        if let Some(before) = memory_if_last(system, amounts, bound, marks, view, task) {
            if before <= view.memory {
                let first = vec![in alloc; task]?;
                return Ok(first);
            }
            steps.push(task)?;
        }
    }
    Ok(steps)
}
