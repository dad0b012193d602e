//! What each task reads and needs, in one pass over the uses of all items, and what is there at the start.

ghost use Rattle.std.specs.Prelude.{◌≡◌, ◌==◌, ℕ, ◌+◌, ◌-◌, ◌<◌, ◌≤◌, ◌^◌, All, IfOk, length, slice_index, if◌then◌else◌, false};
ghost use Rattle.std.specs.Option.{ForSome};
ghost use Rattle.std.specs.List.{sum_by, list_any};
ghost use Rattle.std.specs.List.Sorted.{IsStrictlyIncreasing};
ghost use Rattle.limits.specs.Limits.{most_total};
ghost use Rattle.mp_system.specs.System.{is_named};
ghost use Rattle.shared_systems.specs.Shared.{HasTask, shared_size_where, is_made_by, is_read_by};
ghost use Rattle.shared_systems.specs.SharedMemory.{is_held};
ghost use Rattle.shared_systems.specs.Bounds.{IsSharedItemWithin, shared_size};
ghost use Rattle.peak_bounds.specs.Evidence.{memory_of_task};
ghost use Rattle.bound_search.specs.Needs.{IsMost};

use crate::NoMemory;
use mp_system::Task;
use shared_systems::{SharedItems, SharedSystem};
use std::alloc::Global;

/// The task that reads and needs the most, and how much that is; no task, and what is there at the start, where that is no less.
#[derive(Clone, Copy, Drop)]
pub struct Most {
    pub task: Option<u32>,
    pub memory: u64,
}

// Adds a size at a place, if there is one.
fn add_size(sums: &mut [u64], place: Option<u32>, size: u64)
    requires within { ForSome place (λ v. v < length sums.old) }
    requires fits { (v : ℕ) → slice_index sums.old v + size < 2 ^ 64 }
    ensures { (v : ℕ) → slice_index sums.new v ≡ slice_index sums.old v + (if is_named place v then size else 0) }
{
    if let Some(v) = place {
        sums[v as usize] += size;
    }
}

// Adds it at each of these places.
fn add_sizes(sums: &mut [u64], places: &[u32], size: u64)
    requires within { All (λ v. v < length sums.old) places.now }
    requires rising { IsStrictlyIncreasing places.now }
    requires fits { (v : ℕ) → slice_index sums.old v + size < 2 ^ 64 }
    ensures { (v : ℕ) → slice_index sums.new v ≡ slice_index sums.old v + (if list_any (λ c. c == v) places.now then size else 0) }
{
    for i in 0..places.len() {
        sums[places[i] as usize] += size;
    }
}

// For each of so many tasks the sizes of what it reads, together; 0 at the place 0.
fn inputs_of(alloc: Global, count: usize, items: &SharedItems) -> Result<Vec<u64>, NoMemory>
    requires few { count < 2 ^ 32 }
    requires within { All (IsSharedItemWithin count) items.now }
    requires total { sum_by shared_size items.now ≤ most_total }
    ensures len { IfOk result (λ sums. length sums.items ≡ count + 1) }
    ensures sums { IfOk result (λ sums. (v : ℕ) → slice_index sums.items v ≡ shared_size_where (is_read_by v) items.now) }
{
    let mut sums: Vec<u64> = vec![in alloc; 0; count + 1]?;
    for i in 0..items.len() {
        add_sizes(&mut sums, items.readers(i), items.size(i));
    }
    Ok(sums)
}

// The same of what it makes.
fn outputs_of(alloc: Global, count: usize, items: &SharedItems) -> Result<Vec<u64>, NoMemory>
    requires few { count < 2 ^ 32 }
    requires within { All (IsSharedItemWithin count) items.now }
    requires total { sum_by shared_size items.now ≤ most_total }
    ensures len { IfOk result (λ sums. length sums.items ≡ count + 1) }
    ensures sums { IfOk result (λ sums. (v : ℕ) → slice_index sums.items v ≡ shared_size_where (is_made_by v) items.now) }
{
    let mut sums: Vec<u64> = vec![in alloc; 0; count + 1]?;
    for i in 0..items.len() {
        add_size(&mut sums, items.producer(i), items.size(i));
    }
    Ok(sums)
}

// What is there at the start.
fn start_memory(items: &SharedItems) -> u64
    requires { sum_by shared_size items.now ≤ most_total }
    ensures start { result ≡ shared_size_where (is_held (λ v. false)) items.now }
    ensures within { result ≤ most_total }
{
    let mut memory: u64 = 0;
    for i in 0..items.len() {
        if items.producer(i).is_none() {
            memory += items.size(i);
        }
    }
    memory
}

// What a task reads and needs, given the sizes of what it reads and makes.
fn memory_of(system: &SharedSystem, task: u32, reads: u64, makes: u64) -> u64
    requires task { HasTask system.now task }
    requires reads { reads ≡ shared_size_where (is_read_by task) system.now.items }
    requires makes { makes ≡ shared_size_where (is_made_by task) system.now.items }
    ensures memory { result ≡ memory_of_task system.now task }
    ensures within { result ≤ most_total }
{
    system.keeps();
    let Task { extra, share, .. } = system.tasks()[task as usize - 1];
    reads + (extra + makes - share)
}

/// The most that a task reads and needs, or what is there at the start. Linear in the tasks, the items and the readers of all items.
pub fn most_needed(alloc: Global, system: &SharedSystem) -> Result<Most, NoMemory>
    ensures { IfOk result (IsMost system.now) }
{
    system.keeps();
    let count = system.tasks().len();
    let reads = inputs_of(alloc, count, system.items())?;
    let makes = outputs_of(alloc, count, system.items())?;
    let mut most = Most {
        task: None,
        memory: start_memory(system.items()),
    };
    for i in 0..count {
        let task = i as u32 + 1;
        let memory = memory_of(system, task, reads[i + 1], makes[i + 1]);
        if memory > most.memory {
            most = Most {
                task: Some(task),
                memory,
            };
        }
    }
    Ok(most)
}
