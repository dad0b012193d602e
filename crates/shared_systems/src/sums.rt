//! Sums of sizes: of the items that each task produces, and of those that it alone reads.

ghost use Rattle.std.specs.Prelude.{◌≡◌, ℕ, ◌+◌, ◌<◌, ◌≤◌, ◌^◌, All, IfOk, length, slice_index, if◌then◌else◌};
ghost use Rattle.std.specs.Option.{ForSome};
ghost use Rattle.std.specs.List.{sum_by};
ghost use Rattle.limits.specs.Limits.{most_total};
ghost use Rattle.mp_system.specs.System.{is_named};
ghost use Rattle.shared_systems.specs.Shared.{only, shared_size_where, is_made_by, is_read_by_alone};
ghost use Rattle.shared_systems.specs.Bounds.{IsSharedItemWithin, shared_size};

use crate::NoMemory;
use crate::items::SharedItems;
use std::alloc::Global;

/// Adds a size at a place, if there is one.
pub fn add_size(sums: &mut [u64], place: Option<usize>, size: u64)
    requires within { ForSome place (λ v. v < length sums.old) }
    requires fits { (v : ℕ) → slice_index sums.old v + size < 2 ^ 64 }
    ensures { (v : ℕ) → slice_index sums.new v ≡ slice_index sums.old v + (if is_named place v then size else 0) }
{
    if let Some(v) = place {
        sums[v] += size;
    }
}

// The number of a task as a place.
fn place_of(task: Option<u32>) -> Option<usize>
    ensures { result ≡ task }
{
    match task {
        None => None,
        Some(v) => Some(v as usize),
    }
}

// The one reader, where there is just one.
fn only_of(readers: &[u32]) -> Option<u32>
    ensures { result ≡ only readers.now }
{
    match readers {
        [reader] => Some(*reader),
        _ => None,
    }
}

/// For each of so many tasks the sizes of what it produces, together; 0 at the place 0.
pub fn outputs_of(alloc: Global, count: usize, items: &SharedItems) -> Result<Vec<u64>, NoMemory>
    requires few { count < 2 ^ 32 }
    requires within { All (IsSharedItemWithin count) items.now }
    requires total { sum_by shared_size items.now ≤ most_total }
    ensures len { IfOk result (λ sums. length sums.items ≡ count + 1) }
    ensures sums { IfOk result (λ sums. (v : ℕ) → slice_index sums.items v ≡ shared_size_where (is_made_by v) items.now) }
{
    let mut sums: Vec<u64> = vec![in alloc; 0; count + 1]?;
    for i in 0..items.len() {
        add_size(&mut sums, place_of(items.producer(i)), items.size(i));
    }
    Ok(sums)
}

/// For each of so many tasks the sizes of what it alone reads, together; 0 at the place 0.
pub fn own_inputs_of(alloc: Global, count: usize, items: &SharedItems) -> Result<Vec<u64>, NoMemory>
    requires few { count < 2 ^ 32 }
    requires within { All (IsSharedItemWithin count) items.now }
    requires total { sum_by shared_size items.now ≤ most_total }
    ensures len { IfOk result (λ sums. length sums.items ≡ count + 1) }
    ensures sums { IfOk result (λ sums. (v : ℕ) → slice_index sums.items v ≡ shared_size_where (is_read_by_alone v) items.now) }
{
    let mut sums: Vec<u64> = vec![in alloc; 0; count + 1]?;
    for i in 0..items.len() {
        add_size(
            &mut sums,
            place_of(only_of(items.readers(i))),
            items.size(i),
        );
    }
    Ok(sums)
}
