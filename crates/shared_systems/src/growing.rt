//! Items that are made one after the other, as the lines of a file state them: the readers of an item first, and then the item. No list is
//! copied.

ghost use Rattle.std.specs.Prelude.{◌≡◌, ◌+◌, ◌<◌, ◌^◌, length, OnOk, OnErr};
ghost use Rattle.std.specs.List.{sum_by};
ghost use Rattle.shared_systems.specs.Bounds.{reader_count};
ghost use Rattle.shared_systems.specs.Growing.{no_items, with_reader, with_item};

use crate::NoMemory;
use crate::items::{Entry, SharedItems};
use std::alloc::Global;
use std::marker::Model;

/// Items that are made one after the other, and readers that wait for the next one. A call that is refused memory changes nothing.
#[derive(Drop)]
pub struct GrowingItems {
    entries: Vec<Entry>,
    readers: Vec<u32>,
}

impl Model for GrowingItems {
    ghost use Rattle.std.specs.Prelude.{length, drop};
    ghost use Rattle.shared_systems.specs.Growing.{ItemsSoFar};
    ghost use Rattle.shared_systems.specs.Stored.{stored_items, start_at, AreStored};

    ghost Value = { ItemsSoFar };

    ghost view = { λ s. record {
      items = stored_items 0 s.entries.items s.readers.items;
      waiting = drop (start_at s.entries.items (length s.entries.items)) s.readers.items;
    } };

    ghost invariant = { λ s. AreStored s.entries.items s.readers.items };
}

impl GrowingItems {
    /// No items yet.
    pub fn new(alloc: Global) -> GrowingItems
        ensures { result ≡ no_items }
    {
        GrowingItems {
            entries: Vec::new(alloc),
            readers: Vec::new(alloc),
        }
    }

    /// How many items are made.
    pub fn len(&self) -> usize
        ensures { result ≡ length self.now.items }
    {
        self.entries.len()
    }

    /// How many readers all of them have together, with those that wait.
    pub fn uses(&self) -> usize
        ensures { result ≡ sum_by reader_count self.now.items + length self.now.waiting }
    {
        self.readers.len()
    }

    /// One more reader for the next item: the number of a task.
    pub fn push_reader(&mut self, task: u32) -> Result<(), NoMemory>
        ensures ok { OnOk result (self.new ≡ with_reader self.old task) }
        ensures err { OnErr result (self.new ≡ self.old) }
    {
        self.readers.push(task)?;
        Ok(())
    }

    /// One more item, with the readers that wait. The producer is the number of a task; 0 where the item is there from the start.
    pub fn push_item(&mut self, size: u64, from: u32) -> Result<(), NoMemory>
        requires { sum_by reader_count self.old.items + length self.old.waiting < 2 ^ 32 }
        ensures ok { OnOk result (self.new ≡ with_item self.old size from) }
        ensures err { OnErr result (self.new ≡ self.old) }
    {
        let end = self.uses() as u32;
        self.entries.push(Entry { size, from, end })?;
        Ok(())
    }

    /// The items. Readers that still wait are left out.
    pub fn finish(self) -> SharedItems
        ensures { result ≡ self.items }
    {
        let GrowingItems { entries, readers } = self;
        SharedItems::of_entries(entries, readers)
    }
}
