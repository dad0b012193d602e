ghost use Rattle.std.specs.Prelude.{◌≡◌, ℕ, ◌+◌, ◌-◌, ◌<◌, ◌≤◌, ◌^◌, All, if◌then◌else◌, length, slice_index, IfOk, false};
ghost use Rattle.std.specs.List.{sum_by};
ghost use Rattle.std.specs.Option.{ForSome};
ghost use Rattle.mp_system.specs.System.{is_named, item_size, size_where};
ghost use Rattle.mp_system.specs.Memory.{is_present};
ghost use Rattle.fences.specs.Judged.{most_handed_on};
ghost use Rattle.fences.specs.TaskSums.{HasEnds, AreSums};

use crate::NoMemory;
use mp_system::Item;
use std::alloc::Global;

// Adds the size to the sum of the task that is named, if one is.
fn add_size(sums: &mut [u64], task: Option<u32>, size: u64)
    requires { ForSome task (λ t. (1 ≤ t) × (t ≤ length sums.old) × (slice_index sums.old (t - 1) + size < 2 ^ 64)) }
    ensures { (t : ℕ) → 1 ≤ t →
        slice_index sums.new (t - 1) ≡ slice_index sums.old (t - 1) + (if is_named task t then size else 0) }
{
    if let Some(named) = task {
        sums[named as usize - 1] += size;
    }
}

/// For each task the sizes of what it consumes, together, and of what it produces.
#[derive(Drop)]
pub struct Sums {
    pub inputs: Vec<u64>,
    pub outputs: Vec<u64>,
}

/// The sums of these items, by so many tasks.
pub fn sums_of(alloc: Global, items: &[Item], count: usize) -> Result<Sums, NoMemory>
    requires ends { All (HasEnds count) items.now }
    requires total { sum_by item_size items.now ≤ most_handed_on }
    ensures { IfOk result (λ sums. AreSums count items.now sums.inputs.items sums.outputs.items) }
{
    let mut inputs: Vec<u64> = vec![in alloc; 0; count]?;
    let mut outputs: Vec<u64> = vec![in alloc; 0; count]?;
    for i in 0..items.len() {
        add_size(&mut inputs, items[i].to, items[i].size);
        add_size(&mut outputs, items[i].from, items[i].size);
    }
    Ok(Sums { inputs, outputs })
}

/// The sizes of the items that no task produces, together.
pub fn start_size(items: &[Item]) -> u64
    requires { sum_by item_size items.now ≤ most_handed_on }
    ensures { result ≡ size_where (is_present (λ _. false)) items.now }
{
    let mut memory: u64 = 0;
    for item in items {
        if item.from.is_none() {
            memory += item.size;
        }
    }
    memory
}
