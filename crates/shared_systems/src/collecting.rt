//! The collected system: a collector for each shared item, and items of size 0 by which tasks wait.

ghost use Rattle.std.specs.Prelude.{◌≡◌, ◌+◌, ◌<◌, ◌≤◌, ◌^◌, ◌++◌, ◌∷◌, IfOk, OnOk, replicate, count_by, length, take, IsTrue, ◌↔◌, MatchOption};
ghost use Rattle.shared_systems.specs.Shared.{shared_item_at};
ghost use Rattle.shared_systems.specs.Collected as specs;
ghost use Rattle.shared_systems.specs.Collected.{waits_for, waits_of, kept_item, wait_items, items_from, is_shared, are_several, collector, HasRoom};

use crate::NoMemory;
use crate::items::SharedItems;
use crate::system::SharedSystem;
use limits::{MOST_POSITIONS, MOST_TASKS};
use mp_system::{Item, System, Task};
use std::alloc::Global;

// The task that runs after all readers of an item.
const COLLECTOR: Task = Task {
    extra: 0,
    share: 0,
    time: 1,
};

// The item by which a task waits for another.
fn wait(from: u32, to: u32) -> Item
    ensures { result ≡ specs.wait from to }
{
    Item {
        size: 0,
        from: Some(from),
        to: Some(to),
    }
}

/// Whether there are several readers.
pub fn are_several(readers: &[u32]) -> bool
    ensures { result ≡ are_several readers.now }
{
    match readers {
        [] => false,
        [_] => false,
        _ => true,
    }
}

// Who takes up an item with these readers, whose collector would have this number.
fn taker(collector: u32, readers: &[u32]) -> Option<u32>
    ensures { result ≡ specs.taker collector readers.now }
{
    match readers {
        [] => None,
        [reader] => Some(*reader),
        _ => Some(collector),
    }
}

// The readers wait for the producer.
fn push_waits_for(items: &mut Vec<Item>, from: Option<u32>, readers: &[u32]) -> Result<(), NoMemory>
    ensures { OnOk result (items.new.items ≡ items.old.items ++ waits_for from readers.now) }
{
    let Some(producer) = from else {
        return Ok(());
    };
    for reader in readers {
        items.push(wait(producer, *reader))?;
    }
    Ok(())
}

// The collector waits for the readers.
fn push_waits_of(items: &mut Vec<Item>, collector: u32, readers: &[u32]) -> Result<(), NoMemory>
    ensures { OnOk result (items.new.items ≡ items.old.items ++ waits_of collector readers.now) }
{
    for reader in readers {
        items.push(wait(*reader, collector))?;
    }
    Ok(())
}

// What stands for the item at a place.
fn push_item(
    items: &mut Vec<Item>,
    collector: u32,
    all: &SharedItems,
    i: usize,
) -> Result<(), NoMemory>
    requires { i < length all.now }
    ensures { OnOk result (items.new.items ≡ items.old.items
        ++ (kept_item collector (shared_item_at all.now i) ∷ wait_items collector (shared_item_at all.now i))) }
{
    let from = all.producer(i);
    let readers = all.readers(i);
    items.push(Item {
        size: all.size(i),
        from,
        to: taker(collector, readers),
    })?;
    if are_several(readers) {
        push_waits_for(items, from, readers)?;
        push_waits_of(items, collector, readers)?;
    }
    Ok(())
}

// What stands for all items; the first collector has this number.
fn items_of(alloc: Global, first: u32, all: &SharedItems) -> Result<Vec<Item>, NoMemory>
    requires { first + count_by is_shared all.now < 2 ^ 32 }
    ensures { IfOk result (λ items. items.items ≡ items_from first all.now) }
{
    let mut items = Vec::with_capacity(alloc, all.len())?;
    let mut next = first;
    for i in 0..all.len() {
        push_item(&mut items, next, all, i)?;
        if are_several(all.readers(i)) {
            next += 1;
        }
    }
    Ok(items)
}

// The tasks, and a collector for each shared item.
fn tasks_of(alloc: Global, tasks: &[Task], all: &SharedItems) -> Result<Vec<Task>, NoMemory>
    ensures { IfOk result (λ made. made.items ≡ tasks.now ++ replicate (count_by is_shared all.now) collector) }
{
    let mut made = Vec::from_slice(alloc, tasks)?;
    for i in 0..all.len() {
        if are_several(all.readers(i)) {
            made.push(COLLECTOR)?;
        }
    }
    Ok(made)
}

impl SharedSystem {
    /// The collected system: its tasks, and after them a collector for each item with several readers, in the order of the items; none if
    /// these would be more tasks or items than a system may have. Linear.
    pub fn collected(&self, alloc: Global) -> Result<Option<System>, NoMemory>
        ensures system { IfOk result (λ made. MatchOption made (¬ HasRoom self.now) (λ system. system ≡ specs.collected self.now)) }
        ensures room { IfOk result (λ made. MatchOption made (¬ HasRoom self.now) (λ _. HasRoom self.now)) }
    {
        let items = items_of(alloc, self.tasks().len() as u32 + 1, self.items())?;
        let tasks = tasks_of(alloc, self.tasks(), self.items())?;
        if tasks.len() as u64 > MOST_TASKS || items.len() as u64 > MOST_POSITIONS {
            return Ok(None);
        }
        Ok(Some(System::new(tasks, items)))
    }
}
