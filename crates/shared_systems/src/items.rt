ghost use Rattle.std.specs.Prelude.{◌≡◌, ℕ, ◌+◌, ◌<◌, ◌≤◌, ◌^◌, length, IfOk};
ghost use Rattle.std.specs.List.{sum_by};
ghost use Rattle.mp_system.specs.Given.{end_given};
ghost use Rattle.shared_systems.specs.Shared.{SharedItem, shared_item_at};
ghost use Rattle.shared_systems.specs.Given.{items_given, count_given};
ghost use Rattle.shared_systems.specs.Stored as stored;
ghost use Rattle.shared_systems.specs.Stored.{start_at, end_at, stored_items, AreStored};

use crate::NoMemory;
use crate::given::GivenSharedItem;
use std::alloc::Global;
use std::marker::Model;

/// An item, with the place in the list of all readers where its own end; they begin where those of the item before end. The number 0
/// stands for no producer.
#[derive(Clone, Copy)]
pub(crate) struct Entry {
    pub(crate) size: u64,
    pub(crate) from: u32,
    pub(crate) end: u32,
}

/// Items with their readers, which stand in one list.
#[derive(Drop)]
pub struct SharedItems {
    entries: Vec<Entry>,
    readers: Vec<u32>,
}

impl Model for SharedItems {
    ghost use Rattle.std.specs.Prelude.{List};
    ghost use Rattle.shared_systems.specs.Shared.{SharedItem};
    ghost use Rattle.shared_systems.specs.Stored.{stored_items, AreStored};

    ghost Value = { List SharedItem };

    ghost view = { λ s. stored_items 0 s.entries.items s.readers.items };

    ghost invariant = { λ s. AreStored s.entries.items s.readers.items };
}

// Where the readers of the item at a place begin, and where they end.
fn bounds(entries: &[Entry], i: usize) -> (usize, usize)
    requires { i < length entries.now }
    ensures start { result.0 ≡ start_at entries.now i }
    ensures end { result.1 ≡ end_at entries.now i }
{
    let end = entries[i].end as usize;
    if i == 0 {
        return (0, end);
    }
    (entries[i - 1].end as usize, end)
}

// The task that a number names; 0 names none.
fn end_of(task: u32) -> Option<u32>
    ensures { result ≡ end_given task }
{
    (task != 0).then_some(task)
}

// The entries of given items.
fn entries_of(alloc: Global, items: &[GivenSharedItem]) -> Result<Vec<Entry>, NoMemory>
    requires { sum_by count_given items.now < 2 ^ 32 }
    ensures { IfOk result (λ entries. entries.items ≡ stored.entries_of 0 items.now) }
{
    let mut entries = Vec::with_capacity(alloc, items.len())?;
    let mut end = 0;
    for item in items {
        end += item.readers;
        entries.push(Entry {
            size: item.size,
            from: item.from,
            end,
        })?;
    }
    Ok(entries)
}

impl SharedItems {
    /// The items that a caller's arrays give: each takes as many of the readers as it says, one after the other. Linear.
    pub fn of_arrays(
        alloc: Global,
        items: &[GivenSharedItem],
        readers: &[u32],
    ) -> Result<SharedItems, NoMemory>
        requires counts { sum_by count_given items.now ≡ length readers.now }
        requires few { length readers.now < 2 ^ 32 }
        ensures { IfOk result (λ made. made ≡ items_given items.now readers.now) }
    {
        let entries = entries_of(alloc, items)?;
        let readers = Vec::from_slice(alloc, readers)?;
        Ok(SharedItems { entries, readers })
    }

    // The items of these entries, whose readers stand in this list.
    pub(crate) fn of_entries(entries: Vec<Entry>, readers: Vec<u32>) -> SharedItems
        requires { AreStored entries.items readers.items }
        ensures { result ≡ stored_items 0 entries.items readers.items }
    {
        SharedItems { entries, readers }
    }

    /// How many items there are.
    pub fn len(&self) -> usize
        ensures { result ≡ length self.now }
    {
        self.entries.len()
    }

    /// The size of the item at a place, counted from 0.
    pub fn size(&self, i: usize) -> u64
        requires { i < length self.now }
        ensures { result ≡ (shared_item_at self.now i).size }
    {
        self.entries[i].size
    }

    /// Its producer; without one the item is there from the start.
    pub fn producer(&self, i: usize) -> Option<u32>
        requires { i < length self.now }
        ensures { result ≡ (shared_item_at self.now i).from }
    {
        end_of(self.entries[i].from)
    }

    /// Its readers; without any the item stays to the end.
    pub fn readers(&self, i: usize) -> &[u32]
        requires { i < length self.now }
        ensures { result.now ≡ (shared_item_at self.now i).readers }
    {
        let (start, end) = bounds(&self.entries, i);
        &self.readers[start..end]
    }
}
