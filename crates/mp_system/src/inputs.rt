ghost use Rattle.std.specs.Prelude.{◌≡◌, ◌≤◌, true, false, length, map, IfOk, IfNone, IfSome, OnSome};
ghost use Rattle.std.specs.Option.{ForSome};
ghost use Rattle.mp_system.specs.System.{IsTask, inputs_of};
ghost use Rattle.mp_system.specs.Memory.{is_ready, is_done_or};
ghost use Rattle.mp_system.specs.Replay.{is_marked};
ghost use Rattle.mp_system.specs.ReplayTables.{AreInputs, consumer_of};

use crate::NoMemory;
use crate::system::{Item, System};
use row_table::RowTable;
use row_table::laws::numbers_law;
use std::alloc::Global;

// The consumer of each item, 0 for none.
fn consumers(alloc: Global, items: &[Item]) -> Result<Vec<u32>, NoMemory>
    ensures { IfOk result (λ consumers. consumers.items ≡ map consumer_of items.now) }
{
    items.iter().map(|item| item.to.unwrap_or(0)).collect(alloc)
}

/// For each task the places of the items that it consumes; row 0 has those that no task consumes.
pub fn input_rows(alloc: Global, system: &System) -> Result<RowTable, NoMemory>
    ensures { IfOk result (λ rows. AreInputs system.now rows) }
{
    let consumers = consumers(alloc, system.items())?;
    RowTable::group(alloc, &consumers, system.tasks().len() as u32 + 1, 0)
}

/// The sizes of what a task consumes, together, if all of it has been produced.
pub fn sum_if_ready(inputs: &RowTable, system: &System, ran: &[bool], task: u32) -> Option<u64>
    requires task { IsTask system.now task }
    requires ran { length ran.now ≡ length system.now.tasks }
    requires inputs { AreInputs system.now inputs.now }
    ensures early { IfNone result (is_ready system.now (is_marked ran.now) task ≡ false) }
    ensures ready { OnSome result (is_ready system.now (is_marked ran.now) task ≡ true) }
    ensures sum { IfSome result (λ sum. sum ≡ inputs_of system.now task) }
{
    numbers_law();
    let items = system.items();
    let mut sum: u64 = 0;
    for i in inputs.row(task) {
        let item = items[*i as usize];
        if !is_produced(item.from, ran) {
            return None;
        }
        sum += item.size;
    }
    Some(sum)
}

// Whether the producer has run, or there is none.
fn is_produced(producer: Option<u32>, ran: &[bool]) -> bool
    requires { ForSome producer (λ v. (1 ≤ v) × (v ≤ length ran.now)) }
    ensures { result ≡ is_done_or true (is_marked ran.now) producer }
{
    match producer {
        None => true,
        Some(v) => ran[v as usize - 1],
    }
}
