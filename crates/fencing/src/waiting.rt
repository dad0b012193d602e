//! Fences that forbid no run: from a collector to a task that comes after all its readers anyway.

use crate::NoMemory;
use crate::backwards::Backwards;
use crate::network::Network;
use std::alloc::Global;

// How many tasks and arcs are looked at before a task, and how many more for each task that makes what it reads; and within how many, and so many
// more for each reader, the last reader of a collector is to be found. `are_implied` looks at as many for each fence.
const LOOKS: usize = 200;

const MAKER_LOOKS: usize = 2;

const READER_LOOKS: usize = 4;

// How many collectors of one task are followed.
const MOST_COLLECTORS: usize = 200;

// For a collector the last task from which readers of it were found, and how many; and the last one that comes after a task with a fence from it.
#[derive(Clone, Copy)]
struct Seen {
    task: u32,
    readers: usize,
    passed: u32,
}

const NOT_SEEN: Seen = Seen {
    task: 0,
    readers: 0,
    passed: 0,
};

#[derive(Drop)]
struct Waiting<'a> {
    network: &'a Network<'a>,
    search: Backwards<'a>,
    seen: Vec<Seen>,
    task: u32,
}

impl<'a> Waiting<'a> {
    // The collectors from which fences lead to a task that was found are over before it.
    fn pass(&mut self, found: u32) {
        let task = self.task;
        for fence in self.search.fences_to(found) {
            if let Some(seen) = self.seen.get_mut(fence.from as usize) {
                seen.passed = task;
            }
        }
    }

    // Notes that a reader was found: whether it is the last one that the collector waits for, and no fence leads to a task before.
    fn is_last_reader(&mut self, collector: u32) -> bool {
        let task = self.task;
        let all = self.network.readers(collector);
        let Some(seen) = self.seen.get_mut(collector as usize) else {
            return false;
        };
        if seen.passed == task {
            return false;
        }
        if seen.task != task {
            seen.task = task;
            seen.readers = 0;
        }
        seen.readers = seen.readers.saturating_add(1);
        seen.readers == all
    }

    // Makes a fence from each collector of which this is the last reader. So many looks were needed.
    fn collect(&mut self, reader: u32, looks: usize) -> Result<(), NoMemory> {
        let network = self.network;
        for place in network.collected(reader).iter().take(MOST_COLLECTORS) {
            let collector = network.consumer(*place);
            let readers = network.readers(collector);
            if network.is_reading(*place)
                && self.is_last_reader(collector)
                && looks <= readers.saturating_mul(READER_LOOKS).saturating_add(LOOKS)
            {
                self.search.fence(collector)?;
            }
        }
        Ok(())
    }

    // Makes the fences to a task.
    fn fence(&mut self, task: u32) -> Result<(), NoMemory> {
        self.task = task;
        let makers = self.network.inputs(task).len();
        let most = makers.saturating_mul(MAKER_LOOKS).saturating_add(LOOKS);
        self.search.begin(task)?;
        self.search.find_makers(0)?;
        let mut looks = makers.saturating_add(1);
        for place in 1..self.network.len() {
            let Some(found) = self.search.found_at(place) else {
                break;
            };
            self.pass(found.task);
            self.collect(found.task, looks)?;
            let arcs = self.network.inputs(found.task).len();
            looks = looks.saturating_add(arcs).saturating_add(1);
            if looks >= most {
                break;
            }
            self.search.find_makers(place)?;
        }
        Ok(())
    }
}

/// A search backwards with all these fences, as far as they are found near a task. The number of tasks before the collectors is told.
pub fn with_fences<'a>(
    alloc: Global,
    network: &'a Network<'a>,
    tasks: u32,
) -> Result<Backwards<'a>, NoMemory> {
    let mut waiting = Waiting {
        network,
        search: Backwards::new(alloc, network)?,
        seen: vec![in alloc; NOT_SEEN; network.len()]?,
        task: 0,
    };
    for task in network.order {
        if *task <= tasks {
            waiting.fence(*task)?;
        }
    }
    Ok(waiting.search)
}
