//! What a state tells of its tasks, made in one pass over the items.

ghost use Rattle.std.specs.Prelude.{◌≡◌, ℕ, ◌+◌, ◌<◌, ◌^◌, ◌||◌, ◌==◌, false, All, IfOk, length, slice_index, slice_index_or, if◌then◌else◌};
ghost use Rattle.std.specs.List.{list_any};
ghost use Rattle.std.specs.List.Sorted.{IsStrictlyIncreasing};
ghost use Rattle.std.specs.Option.{ForSome};
ghost use Rattle.mp_system.specs.System.{is_named};
ghost use Rattle.mp_system.specs.Replay.{is_marked};
ghost use Rattle.shared_systems.specs.Shared.{shared_item_at, shared_size_if};
ghost use Rattle.shared_systems.specs.SharedMemory.{is_held};
ghost use Rattle.state_search.specs.States.{is_taken_up};
ghost use Rattle.state_search.specs.Views.{is_regained, IsView};

use crate::NoMemory;
use crate::marks::{is_any_done, is_gone, is_held};
use shared_systems::{SharedItems, SharedSystem};
use std::alloc::Global;

/// What a state tells of its tasks; of none at the place 0.
#[derive(Drop)]
pub struct View {
    /// The memory of the state.
    pub memory: u64,
    /// The sizes of what the task read and is gone, together: this was held before it was run.
    pub regained: Vec<u64>,
    /// Whether a task that is done reads what the task makes.
    pub taken_up: Vec<bool>,
}

// What the item at a place adds to the memory.
fn held_size(items: &SharedItems, i: usize, marks: &[bool]) -> u64
    requires { i < length items.now }
    ensures { result ≡ shared_size_if (is_held (is_marked marks.now)) (shared_item_at items.now i) }
{
    if is_held(items, i, marks) {
        items.size(i)
    } else {
        0
    }
}

// Adds a size at each of these tasks, which rise.
fn add_sizes(sums: &mut [u64], tasks: &[u32], size: u64)
    requires within { All (λ task. task < length sums.old) tasks.now }
    requires rising { IsStrictlyIncreasing tasks.now }
    requires fits { (v : ℕ) → slice_index sums.old v + size < 2 ^ 64 }
    ensures { (v : ℕ) → slice_index sums.new v ≡ slice_index sums.old v + (if list_any (λ c. c == v) tasks.now then size else 0) }
{
    for task in tasks {
        sums[*task as usize] += size;
    }
}

// Adds the size of the item at a place at each task that read it, where it is gone.
fn add_regained(sums: &mut [u64], items: &SharedItems, i: usize, marks: &[bool])
    requires inside { i < length items.now }
    requires within { All (λ task. task < length sums.old) (shared_item_at items.now i).readers }
    requires rising { IsStrictlyIncreasing (shared_item_at items.now i).readers }
    requires fits { (v : ℕ) → slice_index sums.old v + (shared_item_at items.now i).size < 2 ^ 64 }
    ensures { (v : ℕ) → slice_index sums.new v ≡ slice_index sums.old v + shared_size_if (is_regained marks.now v) (shared_item_at items.now i) }
{
    if is_gone(items, i, marks) {
        add_sizes(sums, items.readers(i), items.size(i));
    }
}

// Marks a task, if there is one.
fn mark_task(taken_up: &mut [bool], task: Option<u32>)
    requires { ForSome task (λ v. v < length taken_up.old) }
    ensures { (v : ℕ) → slice_index_or taken_up.new v false ≡ (slice_index_or taken_up.old v false || is_named task v) }
{
    if let Some(task) = task {
        taken_up[task as usize] = true;
    }
}

// Marks the task that makes the item at a place, where one of its readers is done.
fn mark_taken_up(taken_up: &mut [bool], items: &SharedItems, i: usize, marks: &[bool])
    requires inside { i < length items.now }
    requires within { ForSome (shared_item_at items.now i).from (λ v. v < length taken_up.old) }
    ensures { (v : ℕ) → slice_index_or taken_up.new v false
        ≡ (slice_index_or taken_up.old v false || is_taken_up marks.now v (shared_item_at items.now i)) }
{
    if is_any_done(marks, items.readers(i)) {
        mark_task(taken_up, items.producer(i));
    }
}

/// What a state with these marks tells. Linear in tasks, items and readers.
pub fn view_of(alloc: Global, system: &SharedSystem, marks: &[bool]) -> Result<View, NoMemory>
    ensures { IfOk result (λ view. IsView system.now marks.now view) }
{
    system.keeps();
    let items = system.items();
    let count = system.tasks().len();
    let mut memory: u64 = 0;
    let mut regained: Vec<u64> = vec![in alloc; 0; count + 1]?;
    let mut taken_up: Vec<bool> = vec![in alloc; false; count + 1]?;
    for i in 0..items.len() {
        memory += held_size(items, i, marks);
        add_regained(&mut regained, items, i, marks);
        mark_taken_up(&mut taken_up, items, i, marks);
    }
    Ok(View {
        memory,
        regained,
        taken_up,
    })
}
