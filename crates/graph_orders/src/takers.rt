//! Which reader of an item comes after all its other readers, so that it takes the item up and no collector is needed.

use crate::NoMemory;
use crate::rows::Rows;
use crate::tables::{count_of, is_marked, mark, number_at, put_number};
use shared_systems::SharedSystem;
use std::alloc::Global;

// After so many steps for an item, and so many for each task and use of items, none is found.
const MOST_STEPS: usize = 4_000;

const STEPS_EACH: usize = 16;

/// The suppliers of each task, and an order of the tasks.
#[derive(Drop)]
struct Takers {
    before: Rows,
    places: Vec<u32>,
    has_readers: Vec<bool>,
    marks: Vec<u32>,
    work: Vec<u32>,
    left: usize,
}

// The ends of all uses of items that have a producer: who makes, and who reads.
fn uses_of(alloc: Global, system: &SharedSystem) -> Result<(Vec<u32>, Vec<u32>), NoMemory> {
    let items = system.items();
    let mut makers = Vec::new(alloc);
    let mut readers = Vec::new(alloc);
    for i in 0..items.len() {
        if let Some(maker) = items.producer(i) {
            for reader in items.readers(i) {
                makers.push(maker.saturating_sub(1))?;
                readers.push(reader.saturating_sub(1))?;
            }
        }
    }
    Ok((makers, readers))
}

// The place of each task in an order in which all come after their suppliers.
fn places_of(alloc: Global, before: &Rows, after: &Rows, tasks: u32) -> Result<Vec<u32>, NoMemory> {
    let mut missing = Vec::with_capacity(alloc, tasks as usize)?;
    let mut line = Vec::with_capacity(alloc, tasks as usize)?;
    for task in 0..tasks {
        missing.push(count_of(before.row(task).len()))?;
        if before.row(task).is_empty() {
            line.push(task)?;
        }
    }
    let mut places = vec![in alloc; 0; tasks as usize]?;
    for place in 0..tasks {
        if place >= count_of(line.len()) {
            break;
        }
        let task = number_at(&line, place);
        put_number(&mut places, task, place);
        for later in after.row(task) {
            let left = number_at(&missing, *later).saturating_sub(1);
            put_number(&mut missing, *later, left);
            if left == 0 {
                line.push(*later)?;
            }
        }
    }
    Ok(places)
}

impl Takers {
    fn new(alloc: Global, system: &SharedSystem) -> Result<Takers, NoMemory> {
        let tasks = system.tasks().len();
        let (makers, readers) = uses_of(alloc, system)?;
        let before = Rows::new(alloc, &readers, &makers, tasks)?;
        let after = Rows::new(alloc, &makers, &readers, tasks)?;
        let places = places_of(alloc, &before, &after, count_of(tasks))?;
        let mut has_readers = vec![in alloc; false; tasks]?;
        for maker in &makers {
            mark(&mut has_readers, *maker);
        }
        Ok(Takers {
            before,
            places,
            has_readers,
            marks: vec![in alloc; 0; tasks]?,
            work: Vec::new(alloc),
            left: makers
                .len()
                .saturating_add(tasks)
                .saturating_mul(STEPS_EACH),
        })
    }

    // The reader that stands last, and the place of the one that stands first.
    fn ends_of(&self, readers: &[u32]) -> (u32, u32) {
        let mut last: u32 = 0;
        let mut latest: u32 = 0;
        let mut earliest = u32::MAX;
        for reader in readers {
            let task = reader.saturating_sub(1);
            let place = number_at(&self.places, task);
            earliest = earliest.min(place);
            if place >= latest {
                latest = place;
                last = task;
            }
        }
        (last, earliest)
    }

    // Marks what comes before a task, back to a place. Whether the steps sufficed.
    fn mark_before(&mut self, task: u32, stamp: u32, earliest: u32) -> Result<bool, NoMemory> {
        let mut steps: usize = 0;
        put_number(&mut self.marks, task, stamp);
        self.work.clear();
        self.work.push(task)?;
        for _ in 0..MOST_STEPS {
            let Some(node) = self.work.pop() else {
                self.left = self.left.saturating_sub(steps);
                return Ok(true);
            };
            let row = self.before.row(node);
            steps = steps.saturating_add(row.len().saturating_add(1));
            if steps > MOST_STEPS {
                break;
            }
            for earlier in row {
                if number_at(&self.places, *earlier) >= earliest
                    && number_at(&self.marks, *earlier) != stamp
                {
                    put_number(&mut self.marks, *earlier, stamp);
                    self.work.push(*earlier)?;
                }
            }
        }
        self.left = self.left.saturating_sub(steps);
        Ok(false)
    }

    // The reader that comes after all others, if it is found.
    fn taker(&mut self, stamp: u32, readers: &[u32]) -> Result<Option<u32>, NoMemory> {
        let (last, earliest) = self.ends_of(readers);
        for reader in readers {
            let task = reader.saturating_sub(1);
            if task != last && !is_marked(&self.has_readers, task) {
                return Ok(None);
            }
        }
        if self.left == 0 || !self.mark_before(last, stamp, earliest)? {
            return Ok(None);
        }
        for reader in readers {
            if number_at(&self.marks, reader.saturating_sub(1)) != stamp {
                return Ok(None);
            }
        }
        Ok(Some(last))
    }
}

/// For each item with several readers the node of the one that is found to come after all others, if there is one; for an item with one
/// reader that one. Near linear.
pub fn takers_of(alloc: Global, system: &SharedSystem) -> Result<Vec<Option<u32>>, NoMemory> {
    let mut takers = Takers::new(alloc, system)?;
    let items = system.items();
    let mut found = Vec::with_capacity(alloc, items.len())?;
    for i in 0..items.len() {
        let readers = items.readers(i);
        let taker = match readers {
            [] => None,
            [reader] => Some(reader.saturating_sub(1)),
            _ => takers.taker(count_of(i).saturating_add(1), readers)?,
        };
        found.push(taker)?;
    }
    Ok(found)
}
