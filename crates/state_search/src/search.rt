//! A search that goes on from the states that wait.

ghost use Rattle.std.specs.Prelude.{◌≡◌, ℕ, ◌<◌, ◌≤◌, true, false, [], OnOk, IfOk, length};
ghost use Rattle.mp_system.specs.Memory.{stands_in};
ghost use Rattle.mp_system.specs.Replay.{is_marked};
ghost use Rattle.shared_systems.specs.Shared.{SharedTaskSystem};
ghost use Rattle.state_search.specs.States.{state_at, all_done, none_done, without, memory_in, IsStepBack};
ghost use Rattle.state_search.specs.Views.{AreAmounts};
ghost use Rattle.state_search.specs.Kept.{AreLookedAt, IsBefore, IsKept, IsFollowed, Extends};

use crate::NoMemory;
use crate::last::last_of;
use crate::marks::is_any_marked;
use crate::needs::Amounts;
use crate::states::{Link, States};
use crate::view::view_of;
use shared_systems::SharedSystem;
use std::alloc::Global;

/// States that are kept, and the places of those from which the search is still to go on.
#[derive(Drop)]
pub struct Search {
    pub states: States,
    pub waiting: Vec<usize>,
}

// No state yet.
fn empty(alloc: Global) -> Search
    ensures rows { result.states.rows ≡ [] }
    ensures links { result.states.links ≡ [] }
    ensures waiting { result.waiting.items ≡ [] }
{
    Search {
        states: States::new(alloc),
        waiting: Vec::new(alloc),
    }
}

/// The state in which all tasks are done, which waits, if its memory is below the bound.
pub fn started(alloc: Global, system: &SharedSystem, bound: u64) -> Result<Search, NoMemory>
    ensures looked { IfOk result (λ search. AreLookedAt system.now bound search.states) }
    ensures some { IfOk result (λ search. memory_in system.now (all_done system.now) < bound → 0 < length search.states.rows) }
    ensures extends { IfOk result (λ search. Extends [] [] search.states.rows search.waiting.items) }
{
    let mut search = empty(alloc);
    let all: Vec<bool> = vec![in alloc; true; system.tasks().len()]?;
    let view = view_of(alloc, system, &all)?;
    if view.memory >= bound {
        return Ok(search);
    }
    let link = Link { next: 0, task: 0 };
    search.states.push(alloc, &all, link)?;
    search.waiting.push(0)?;
    Ok(search)
}

// Keeps a state that lies before another in this way, where it is new.
fn keep(alloc: Global, search: &mut Search, marks: &[bool], link: Link) -> Result<(), NoMemory>
    ensures looked { OnOk result ((system : SharedTaskSystem) (bound : ℕ) → AreLookedAt system bound search.old.states →
        IsBefore system bound search.old.states.rows (length search.old.states.rows) link marks.now →
        AreLookedAt system bound search.new.states) }
    ensures extends { OnOk result (Extends search.old.states.rows search.old.waiting.items search.new.states.rows search.new.waiting.items) }
    ensures kept { OnOk result (IsKept search.new.states.rows marks.now) }
{
    if search.states.has(marks) {
        return Ok(());
    }
    search.waiting.push(search.states.len())?;
    search.states.push(alloc, marks, link)
}

// Keeps the states before these tasks, each of which can be the last before the state at a place, where they are new; not all, where there are
// too many.
fn follow(
    alloc: Global,
    search: &mut Search,
    most: u32,
    place: usize,
    marks: &mut [bool],
    steps: &[u32],
) -> Result<(), NoMemory>
    requires inside { place < length search.old.states.rows }
    requires marks { marks.old ≡ state_at search.old.states.rows place }
    requires tasks { (v : ℕ) → stands_in steps.now v ≡ true → (1 ≤ v) × (v ≤ length marks.old) × (is_marked marks.old v ≡ true) }
    ensures looked { OnOk result ((system : SharedTaskSystem) (bound : ℕ) → AreLookedAt system bound search.old.states →
        ((v : ℕ) → stands_in steps.now v ≡ true → IsStepBack system bound marks.old v) →
        AreLookedAt system bound search.new.states) }
    ensures extends { OnOk result (Extends search.old.states.rows search.old.waiting.items search.new.states.rows search.new.waiting.items) }
    ensures kept { OnOk result (length search.new.states.rows ≤ most →
        (v : ℕ) → stands_in steps.now v ≡ true → IsKept search.new.states.rows (without marks.old v)) }
{
    for task in steps {
        if search.states.len() > most as usize {
            return Ok(());
        }
        let at = *task as usize - 1;
        let link = Link {
            next: place,
            task: *task,
        };
        marks[at] = false;
        keep(alloc, search, marks, link)?;
        marks[at] = true;
    }
    Ok(())
}

// Goes on from the state at a place, which has these marks. Whether no task is done there.
fn expand_marks(
    alloc: Global,
    system: &SharedSystem,
    amounts: &Amounts,
    bound: u64,
    most: u32,
    search: &mut Search,
    place: usize,
    marks: &mut [bool],
) -> Result<bool, NoMemory>
    requires amounts { AreAmounts system.now amounts.now }
    requires inside { place < length search.old.states.rows }
    requires looked { AreLookedAt system.now bound search.old.states }
    requires marks { marks.old ≡ state_at search.old.states.rows place }
    ensures looked { OnOk result (AreLookedAt system.now bound search.new.states) }
    ensures extends { OnOk result (Extends search.old.states.rows search.old.waiting.items search.new.states.rows search.new.waiting.items) }
    ensures start { IfOk result (λ is_start. is_start ≡ true → marks.old ≡ none_done system.now) }
    ensures followed { IfOk result (λ is_start. is_start ≡ false → length search.new.states.rows ≤ most →
        IsFollowed system.now bound search.new.states.rows marks.old) }
{
    if !is_any_marked(marks) {
        return Ok(true);
    }
    let view = view_of(alloc, system, marks)?;
    let steps = last_of(alloc, system, amounts, bound, marks, &view)?;
    follow(alloc, search, most, place, marks, &steps)?;
    Ok(false)
}

/// Goes on from the state at a place. Whether no task is done there.
pub fn expand(
    alloc: Global,
    system: &SharedSystem,
    amounts: &Amounts,
    bound: u64,
    most: u32,
    search: &mut Search,
    place: usize,
) -> Result<bool, NoMemory>
    requires amounts { AreAmounts system.now amounts.now }
    requires inside { place < length search.old.states.rows }
    requires looked { AreLookedAt system.now bound search.old.states }
    ensures looked { OnOk result (AreLookedAt system.now bound search.new.states) }
    ensures extends { OnOk result (Extends search.old.states.rows search.old.waiting.items search.new.states.rows search.new.waiting.items) }
    ensures start { IfOk result (λ is_start. is_start ≡ true → state_at search.old.states.rows place ≡ none_done system.now) }
    ensures followed { IfOk result (λ is_start. is_start ≡ false → length search.new.states.rows ≤ most →
        IsFollowed system.now bound search.new.states.rows (state_at search.old.states.rows place)) }
{
    let mut marks = Vec::from_slice(alloc, search.states.marks(place))?;
    expand_marks(
        alloc, system, amounts, bound, most, search, place, &mut marks,
    )
}
