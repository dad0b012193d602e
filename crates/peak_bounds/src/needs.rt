//! What is there at the start, and what one task reads and needs.

ghost use Rattle.std.specs.Prelude.{◌≡◌, ◌==◌, ℕ, ◌+◌, ◌<◌, ◌≤◌, ◌^◌, IsTrue, false, if◌then◌else◌, length, slice_index, IfOk};
ghost use Rattle.std.specs.List.{list_any, sum_by};
ghost use Rattle.std.specs.Option.{ForSome};
ghost use Rattle.limits.specs.Limits.{most_total};
ghost use Rattle.mp_system.specs.System.{is_named};
ghost use Rattle.shared_systems.specs.Shared.{HasTask, is_made_by, is_read_by, shared_size_where, shared_outputs_of, shared_need_of};
ghost use Rattle.shared_systems.specs.SharedMemory.{is_held};
ghost use Rattle.shared_systems.specs.Bounds.{shared_size};

use crate::NoMemory;
use mp_system::Task;
use shared_systems::{SharedItems, SharedSystem};
use std::alloc::Global;

/// What is there before any task has run: the items that no task makes.
pub fn at_start(items: &SharedItems) -> u64
    requires { sum_by shared_size items.now ≤ most_total }
    ensures { result ≡ shared_size_where (is_held (λ v. false)) items.now }
{
    let mut sum: u64 = 0;
    for i in 0..items.len() {
        if items.producer(i).is_none() {
            sum += items.size(i);
        }
    }
    sum
}

// What the task makes.
fn outputs(items: &SharedItems, task: u32) -> u64
    requires { sum_by shared_size items.now ≤ most_total }
    ensures sum { result ≡ shared_size_where (is_made_by task) items.now }
    ensures within { result ≤ most_total }
{
    let mut sum: u64 = 0;
    for i in 0..items.len() {
        if items.producer(i) == Some(task) {
            sum += items.size(i);
        }
    }
    sum
}

// Whether a task is one of the readers.
fn has_reader(readers: &[u32], task: u32) -> bool
    ensures { result ≡ list_any (λ c. c == task) readers.now }
{
    readers.iter().any(|reader| *reader == task)
}

/// What the task reads.
pub fn inputs(items: &SharedItems, task: u32) -> u64
    requires { sum_by shared_size items.now ≤ most_total }
    ensures sum { result ≡ shared_size_where (is_read_by task) items.now }
    ensures within { result ≤ most_total }
{
    let mut sum: u64 = 0;
    for i in 0..items.len() {
        if has_reader(items.readers(i), task) {
            sum += items.size(i);
        }
    }
    sum
}

// What a task needs that makes so much.
fn need_making(system: &SharedSystem, task: u32, made: u64) -> u64
    requires task { HasTask system.now task }
    requires made { made ≡ shared_outputs_of system.now task }
    requires within { made ≤ most_total }
    ensures need { result ≡ shared_need_of system.now task }
    ensures within { result ≤ most_total + most_total }
{
    let Task { extra, share, .. } = system.tasks()[task as usize - 1];
    extra + made - share
}

/// What the task needs beside the items that are there when it starts.
pub fn need(system: &SharedSystem, task: u32) -> u64
    requires { HasTask system.now task }
    ensures need { result ≡ shared_need_of system.now task }
    ensures within { result ≤ most_total + most_total }
{
    need_making(system, task, outputs(system.items(), task))
}

// Adds a size to what a task makes, if one makes it.
fn add_made(made: &mut [u64], task: Option<u32>, size: u64)
    requires within { ForSome task (λ v. v < length made.old) }
    requires fits { (v : ℕ) → slice_index made.old v + size < 2 ^ 64 }
    ensures { (v : ℕ) → slice_index made.new v ≡ slice_index made.old v + (if is_named task v then size else 0) }
{
    if let Some(v) = task {
        made[v as usize] += size;
    }
}

// What each task makes, by its number. Linear.
fn made_by_each(alloc: Global, system: &SharedSystem) -> Result<Vec<u64>, NoMemory>
    ensures len { IfOk result (λ made. length made.items ≡ length system.now.tasks + 1) }
    ensures made { IfOk result (λ made. (v : ℕ) → slice_index made.items v ≡ shared_outputs_of system.now v) }
{
    let items = system.items();
    let mut made: Vec<u64> = vec![in alloc; 0; system.tasks().len() + 1]?;
    for i in 0..items.len() {
        add_made(&mut made, items.producer(i), items.size(i));
    }
    Ok(made)
}

/// What each task needs beside the items that are there when it starts, by its number. Linear.
pub fn all_needs(alloc: Global, system: &SharedSystem) -> Result<Vec<u64>, NoMemory>
    ensures len { IfOk result (λ needs. length needs.items ≡ length system.now.tasks + 1) }
    ensures needs { IfOk result (λ needs. (v : ℕ) → HasTask system.now v → slice_index needs.items v ≡ shared_need_of system.now v) }
{
    let mut needs = made_by_each(alloc, system)?;
    for i in 0..system.tasks().len() {
        needs[i + 1] = need_making(system, i as u32 + 1, needs[i + 1]);
    }
    Ok(needs)
}
