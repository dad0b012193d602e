//! An order with the collectors put in: each shared item's last reader is looked up, and the collectors are grouped by it.

ghost use Rattle.std.specs.Prelude.{◌≡◌, ℕ, ◌+◌, ◌<◌, ◌≤◌, ◌^◌, All, IfOk, length, take, slice_index};
ghost use Rattle.limits.specs.Limits.{most_tasks};
ghost use Rattle.row_table.specs.Rows.{row_at};
ghost use Rattle.mp_system.specs.Memory.{peak_of};
ghost use Rattle.mp_system.specs.Traversal.{IsTraversal};
ghost use Rattle.shared_systems.specs.SharedMemory.{shared_peak_of};
ghost use Rattle.shared_systems.specs.SharedTraversal.{IsSharedTraversal};
ghost use Rattle.shared_systems.specs.Collected.{collected};
ghost use Rattle.shared_systems.specs.Woven as specs;
ghost use Rattle.shared_systems.specs.Woven.{due_after};
ghost use Rattle.shared_systems.specs.Places.{place_in, last_places};

use crate::NoMemory;
use crate::collecting::are_several;
use crate::items::SharedItems;
use crate::laws::weaving_law;
use crate::places::{last_of, places_of};
use crate::system::SharedSystem;
use row_table::RowTable;
use std::alloc::Global;

// The place of the last reader of each shared item.
fn lasts_of(alloc: Global, all: &SharedItems, places: &[usize]) -> Result<Vec<u32>, NoMemory>
    requires readers { All (λ x. All (λ c. c < length places.now) x.readers) all.now }
    requires small { (v : ℕ) → slice_index places.now v ≤ most_tasks }
    ensures { IfOk result (λ lasts. lasts.items ≡ last_places (slice_index places.now) all.now) }
{
    let mut lasts = Vec::new(alloc);
    for i in 0..all.len() {
        let readers = all.readers(i);
        if are_several(readers) {
            lasts.push(last_of(readers, places) as u32)?;
        }
    }
    Ok(lasts)
}

// For each place of an order the collectors that are due after the task there.
fn due_rows(alloc: Global, system: &SharedSystem, order: &[u32]) -> Result<RowTable, NoMemory>
    requires { length order.now ≤ length system.now.tasks }
    ensures len { IfOk result (λ rows. length rows ≡ length order.now + 1) }
    ensures rows { IfOk result (λ rows. (i : ℕ) → i < length order.now →
        row_at rows i ≡ due_after system.now (take i order.now) (slice_index order.now i)) }
{
    let tasks = system.tasks().len();
    let places = places_of(alloc, order, tasks)?;
    let lasts = lasts_of(alloc, system.items(), &places)?;
    let rows = RowTable::group(alloc, &lasts, order.len() as u32 + 1, tasks as u32 + 1)?;
    Ok(rows)
}

// The tasks, each with what is due after it.
fn mixed_of(
    alloc: Global,
    system: &SharedSystem,
    order: &[u32],
    rows: &RowTable,
) -> Result<Vec<u32>, NoMemory>
    requires short { length order.now ≤ length system.now.tasks }
    requires len { length rows.now ≡ length order.now + 1 }
    requires rows { (i : ℕ) → i < length order.now →
        row_at rows.now i ≡ due_after system.now (take i order.now) (slice_index order.now i) }
    ensures { IfOk result (λ mixed. mixed.items ≡ specs.woven system.now order.now) }
{
    let most = system.tasks().len();
    let mut mixed = Vec::with_capacity(alloc, most)?;
    for i in 0..order.len() {
        mixed.push(order[i])?;
        mixed.extend_from_slice(rows.row(i as u32))?;
    }
    Ok(mixed)
}

impl SharedSystem {
    /// An order of the tasks with each collector put in right after the last of its readers. Of a traversal it is a traversal of the
    /// collected system, with the same peak. Linear.
    pub fn woven(&self, alloc: Global, order: &[u32]) -> Result<Vec<u32>, NoMemory>
        requires { length order.now ≤ length self.now.tasks }
        ensures value { IfOk result (λ mixed. mixed.items ≡ specs.woven self.now order.now) }
        ensures traversal { IfOk result (λ mixed.
            IsSharedTraversal self.now order.now → IsTraversal (collected self.now) mixed.items) }
        ensures peak { IfOk result (λ mixed.
            IsSharedTraversal self.now order.now → peak_of (collected self.now) mixed.items ≡ shared_peak_of self.now order.now) }
    {
        weaving_law();
        let _ = self.tasks();
        let rows = due_rows(alloc, self, order)?;
        let mixed = mixed_of(alloc, self, order, &rows)?;
        Ok(mixed)
    }
}
