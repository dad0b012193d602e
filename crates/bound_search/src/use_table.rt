//! The uses of a system's items, as the arcs of its network stand for them.

use crate::NoMemory;
use crate::legs::NONE;
use crate::network::signed;
use crate::tables::{amount_at, count_of, number_at};
use shared_systems::SharedSystem;
use std::alloc::Global;

/// Which uses belong to an item, and which arcs to a use of a shared one.
#[derive(Drop)]
pub struct UseTable {
    sizes: Vec<i64>,
    // The first use of each item, and how many there are.
    firsts: Vec<u32>,
    items: Vec<u32>,
    // The arc from the collector to the reader.
    sides: Vec<u32>,
    // The use of each such arc.
    of_sides: Vec<u32>,
    // The item of each collector.
    of_collectors: Vec<u32>,
}

impl UseTable {
    /// The uses of a system's items. Linear.
    pub fn new(alloc: Global, system: &SharedSystem) -> Result<UseTable, NoMemory> {
        let mut table = UseTable {
            sizes: Vec::new(alloc),
            firsts: Vec::new(alloc),
            items: Vec::new(alloc),
            sides: Vec::new(alloc),
            of_sides: Vec::new(alloc),
            of_collectors: Vec::new(alloc),
        };
        let items = system.items();
        for i in 0..items.len() {
            table.push_item(signed(items.size(i)), items.readers(i).len())?;
        }
        table.firsts.push(count_of(table.items.len()))?;
        for k in 0..table.of_sides.len() {
            let place = number_at(&table.of_sides, count_of(k));
            let arc = count_of(table.items.len()).saturating_add(count_of(k));
            crate::tables::put_number(&mut table.sides, place, arc);
        }
        Ok(table)
    }

    fn push_item(&mut self, size: i64, readers: usize) -> Result<(), NoMemory> {
        let item = count_of(self.sizes.len());
        self.sizes.push(size)?;
        self.firsts.push(count_of(self.items.len()))?;
        if readers > 1 {
            self.of_collectors.push(item)?;
        }
        for _ in 0..readers.max(1) {
            if readers > 1 {
                self.of_sides.push(count_of(self.items.len()))?;
            }
            self.items.push(item)?;
            self.sides.push(NONE)?;
        }
        Ok(())
    }

    /// How many items there are.
    pub fn items(&self) -> u32 {
        count_of(self.sizes.len())
    }

    /// How many uses there are.
    pub fn uses(&self) -> u32 {
        count_of(self.items.len())
    }

    /// The size of an item.
    pub fn size(&self, item: u32) -> i64 {
        amount_at(&self.sizes, item)
    }

    /// The first use of an item, and the place after its last one.
    pub fn first(&self, item: u32) -> u32 {
        number_at(&self.firsts, item)
    }

    /// Whether an item has several readers.
    pub fn is_shared(&self, item: u32) -> bool {
        self.side(self.first(item)) != NONE
    }

    /// The arc from the collector to the reader of a use.
    pub fn side(&self, place: u32) -> u32 {
        number_at(&self.sides, place)
    }

    /// The item of an arc's use.
    pub fn item_of_arc(&self, arc: u32) -> u32 {
        if arc < self.uses() {
            number_at(&self.items, arc)
        } else {
            number_at(
                &self.items,
                number_at(&self.of_sides, arc.saturating_sub(self.uses())),
            )
        }
    }

    /// The item of a collector, which are counted from 0.
    pub fn item_of_collector(&self, collector: u32) -> u32 {
        number_at(&self.of_collectors, collector)
    }
}
