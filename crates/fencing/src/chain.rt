//! Good fences along a schedule, by a search that promises nothing: what it finds is judged before it is used.
//!
//! Memory is handed on along the schedule, as in `ledger`, with more care for who hands it on. A task first takes what is free at tasks that it
//! waits for anyway, also by way of others and by way of fences, which costs no fence; then out of the pool; and then of those who will end first,
//! so that it need not wait long. Of these it waits for the latest first, since that one may come after others of them. Chaining in project
//! planning is from N. Policella, A. Cesta, A. Oddi and S. F. Smith, "Generating robust partial order schedules", 2004; memory on arcs of a task
//! graph is from L. Marchal, B. Simon and F. Vivien, "Limiting the memory footprint when dynamically scheduling DAGs on shared-memory platforms",
//! 2018.

use crate::NoMemory;
use crate::fencing::Fencing;
use crate::network::Network;
use crate::schedule::{Event, Schedule};
use fences::Fence;
use std::alloc::Global;
use std::cmp::Reverse;
use std::collections::BinaryHeap;

// How many tasks are looked at in search of free memory, at least and at most, and in all searches together where there are many. Half as many
// more are looked at behind fences.
const LEAST_LOOKS: u64 = 8;

const MOST_LOOKS: u64 = 20;

const LOOKS_IN_ALL: u64 = 4_000_000;

// How many arcs of one task are followed, and how many tasks are found at most beside those that a task waits for by an item.
const MOST_ARCS: usize = 50;

const MOST_FOUND: usize = 200;

// The places of the fences into a task.
#[derive(Clone, Copy)]
struct FencesInto {
    first: usize,
    end: usize,
}

const NO_FENCES: FencesInto = FencesInto { first: 0, end: 0 };

// The last task for which readers of a collector were found, and how many.
#[derive(Clone, Copy)]
struct Readers {
    found_for: u32,
    count: usize,
}

const NO_READERS: Readers = Readers {
    found_for: 0,
    count: 0,
};

// Who gave something back. The first to end is the least.
#[derive(Clone, Copy, PartialEq, Eq, PartialOrd, Ord, Drop)]
struct Piece {
    end: u64,
    task: u32,
}

// A task that was found: the arc from it, and at which place in the list of what was found that arc leads.
#[derive(Clone, Copy)]
struct Found {
    task: u32,
    arc: usize,
    to: usize,
}

const NOT_FOUND: Found = Found {
    task: 0,
    arc: 0,
    to: 0,
};

// What is handed on along a fence.
#[derive(Clone, Copy, PartialEq, Eq, PartialOrd, Ord)]
struct Handed {
    amount: u64,
    fence: usize,
}

// What has been handed on so far, and the search for what one task takes. Arcs are numbered from 0, first the items, behind them the fences.
#[derive(Drop)]
struct Chaining<'a> {
    network: &'a Network<'a>,
    // What is left of what each gave back, and when it ends.
    free: Vec<u64>,
    ends: Vec<u64>,
    fences_into: Vec<FencesInto>,
    readers: Vec<Readers>,
    // For each the last search in which it was found, and its place in the list of what was found.
    found_in: Vec<u32>,
    places: Vec<usize>,
    fences: Vec<Fence>,
    // What is handed on along each arc.
    amounts: Vec<u64>,
    pool: u64,
    // What all tasks take that have not started.
    still_taken: u64,
    heap: BinaryHeap<Reverse<Piece>>,
    // The task that comes next, when it can start, and what it still lacks.
    task: u32,
    start: u64,
    lacking: u64,
    // What it waits for, as far as it was found; itself first, and a task always behind the one that its arc leads to. What stands before `next`
    // has been looked at.
    search: u32,
    found: Vec<Found>,
    next: usize,
    looks: u64,
    most_looks: u64,
    popped: Vec<Piece>,
    // Collectors of which all readers were found.
    collectors: Vec<Found>,
}

// How many tasks are looked at in one search.
fn looks_for(network: &Network) -> u64 {
    let size = network.len().saturating_add(network.items().len()).max(1);
    (LOOKS_IN_ALL / size as u64).clamp(LEAST_LOOKS, MOST_LOOKS)
}

impl<'a> Chaining<'a> {
    fn new(
        alloc: Global,
        network: &'a Network<'a>,
        pool: u64,
        still_taken: u64,
    ) -> Result<Chaining<'a>, NoMemory> {
        let amounts: Vec<u64> = network.items().iter().map(|item| item.size).collect(alloc)?;
        let count = network.len();
        Ok(Chaining {
            network,
            free: vec![in alloc; 0; count]?,
            ends: vec![in alloc; 0; count]?,
            fences_into: vec![in alloc; NO_FENCES; count]?,
            readers: vec![in alloc; NO_READERS; count]?,
            found_in: vec![in alloc; 0; count]?,
            places: vec![in alloc; 0; count]?,
            fences: Vec::new(alloc),
            amounts,
            pool,
            still_taken,
            heap: BinaryHeap::new(alloc),
            task: 0,
            start: 0,
            lacking: 0,
            search: 0,
            found: Vec::new(alloc),
            next: 0,
            looks: 0,
            most_looks: looks_for(network),
            popped: Vec::new(alloc),
            collectors: Vec::new(alloc),
        })
    }

    fn free_at(&self, task: u32) -> u64 {
        self.free.get(task as usize).copied().unwrap_or(0)
    }

    fn set_free(&mut self, task: u32, free: u64) {
        if let Some(place) = self.free.get_mut(task as usize) {
            *place = free;
        }
    }

    fn end_of(&self, task: u32) -> u64 {
        self.ends.get(task as usize).copied().unwrap_or(0)
    }

    fn place_of(&self, task: u32) -> usize {
        self.places.get(task as usize).copied().unwrap_or(0)
    }

    fn fences_of(&self, task: u32) -> FencesInto {
        self.fences_into
            .get(task as usize)
            .copied()
            .unwrap_or(NO_FENCES)
    }

    fn found_at(&self, place: usize) -> Found {
        self.found.get(place).copied().unwrap_or(NOT_FOUND)
    }

    // Raises what is handed on from a task that was found to the one that comes next.
    fn raise(&mut self, place: usize, amount: u64) {
        let mut place = place;
        for _ in 0..self.found.len() {
            if place == 0 {
                break;
            }
            let found = self.found_at(place);
            if let Some(handed) = self.amounts.get_mut(found.arc) {
                *handed = handed.saturating_add(amount);
            }
            place = found.to;
        }
    }

    // Takes what is free at a task that was found, or as much of it as is lacking.
    fn take(&mut self, place: usize) {
        let task = self.found_at(place).task;
        let free = self.free_at(task);
        let amount = free.min(self.lacking);
        if amount > 0 {
            self.set_free(task, free.saturating_sub(amount));
            self.lacking = self.lacking.saturating_sub(amount);
            self.raise(place, amount);
        }
    }

    fn is_found(&self, task: u32) -> bool {
        self.found_in.get(task as usize).copied() == Some(self.search)
    }

    // Notes a task that is found, if it was not found before.
    fn find(&mut self, found: Found) -> Result<(), NoMemory> {
        if self.is_found(found.task) {
            return Ok(());
        }
        if let Some(found_in) = self.found_in.get_mut(found.task as usize) {
            *found_in = self.search;
        }
        if let Some(place) = self.places.get_mut(found.task as usize) {
            *place = self.found.len();
        }
        self.found.push(found)?;
        Ok(())
    }

    // Finds those that a task waits for which was found, by so many items and fences at most.
    fn find_before(&mut self, to: usize, most: usize) -> Result<(), NoMemory> {
        let network = self.network;
        let waiting = self.found_at(to).task;
        for arc in network.arcs(waiting).iter().take(most) {
            self.find(Found {
                task: arc.from,
                arc: arc.place as usize,
                to,
            })?;
        }
        let FencesInto { first, end } = self.fences_of(waiting);
        for k in (first..end).take(most) {
            let arc = network.items().len().saturating_add(k);
            if let Some(fence) = self.fences.get(k).copied()
                && self.amounts.get(arc).copied().unwrap_or(0) > 0
            {
                self.find(Found {
                    task: fence.from,
                    arc,
                    to,
                })?;
            }
        }
        Ok(())
    }

    // The task that comes next waits for this one by a fence.
    fn fence(&mut self, from: u32) -> Result<(), NoMemory> {
        let task = self.task;
        let arc = self.amounts.len();
        self.fences.push(Fence { from, to: task })?;
        self.amounts.push(0)?;
        if let Some(fences) = self.fences_into.get_mut(task as usize) {
            fences.end = fences.end.saturating_add(1);
        }
        self.start = self.start.max(self.end_of(from));
        let place = self.found.len();
        self.find(Found {
            task: from,
            arc,
            to: 0,
        })?;
        self.take(place);
        Ok(())
    }

    // Notes that a reader was found: whether it is the last one that the collector waits for.
    fn is_last_reader(&mut self, collector: u32) -> bool {
        let search = self.search;
        let all = self.network.readers(collector);
        let Some(readers) = self.readers.get_mut(collector as usize) else {
            return false;
        };
        if readers.found_for != search {
            readers.found_for = search;
            readers.count = 0;
        }
        readers.count = readers.count.saturating_add(1);
        readers.count == all
    }

    // A collector of which all readers were found comes before the task anyway, so that a fence from it costs no time. Readers are counted only
    // where something is free.
    fn find_collectors(&mut self, reader: u32) -> Result<(), NoMemory> {
        let network = self.network;
        for place in network.collected(reader).iter().take(MOST_ARCS) {
            let collector = network.consumer(*place);
            if self.lacking > 0
                && self.free_at(collector) > 0
                && !self.is_found(collector)
                && network.is_reading(*place)
                && self.is_last_reader(collector)
            {
                self.fence(collector)?;
            }
        }
        Ok(())
    }

    // Takes what is free at tasks that were found, those that are fewer arcs away first, and finds more behind them.
    fn search(&mut self) -> Result<(), NoMemory> {
        for _ in 0..self.looks {
            if self.lacking == 0 || self.next >= self.found.len() {
                break;
            }
            let place = self.next;
            self.next = place.saturating_add(1);
            self.looks = self.looks.saturating_sub(1);
            self.take(place);
            if self.found.len() < MOST_FOUND {
                self.find_before(place, MOST_ARCS)?;
            }
            self.find_collectors(self.found_at(place).task)?;
        }
        Ok(())
    }

    fn draw(&mut self) {
        let drawn = self.pool.min(self.lacking);
        self.pool = self.pool.saturating_sub(drawn);
        self.lacking = self.lacking.saturating_sub(drawn);
    }

    // Pops pieces, those that end first, until they are enough. What is at tasks that were found is taken.
    fn pop(&mut self) -> Result<(), NoMemory> {
        self.popped.clear();
        let mut sum: u64 = 0;
        for _ in 0..self.free.len() {
            if sum >= self.lacking {
                break;
            }
            let Some(Reverse(piece)) = self.heap.pop() else {
                break;
            };
            let free = self.free_at(piece.task);
            if free > 0 {
                if self.is_found(piece.task) {
                    self.take(self.place_of(piece.task));
                } else {
                    sum = sum.saturating_add(free);
                }
                self.popped.push(piece)?;
            }
        }
        Ok(())
    }

    // Takes from those that were popped, the latest first. What is left goes back.
    fn take_popped(&mut self) -> Result<(), NoMemory> {
        self.looks = self.looks.max(self.most_looks / 2);
        for k in (0..self.popped.len()).rev() {
            let task = self.popped.get(k).map_or(0, |piece| piece.task);
            if self.is_found(task) {
                self.take(self.place_of(task));
            } else if self.lacking > 0 && self.free_at(task) > 0 {
                self.fence(task)?;
                self.search()?;
            }
        }
        for k in 0..self.popped.len() {
            if let Some(piece) = self.popped.get(k).copied()
                && self.free_at(piece.task) > 0
            {
                self.heap.push(Reverse(piece))?;
            }
        }
        Ok(())
    }

    // When the last ends of those by whose items a task waits.
    fn latest_before(&self, task: u32) -> u64 {
        let mut latest: u64 = 0;
        for arc in self.network.arcs(task) {
            latest = latest.max(self.end_of(arc.from));
        }
        latest
    }

    // Begins a search behind a task, by so many items and fences at most.
    fn begin(&mut self, task: u32, most: usize) -> Result<(), NoMemory> {
        self.search = self.search.saturating_add(1);
        self.found.clear();
        self.next = 1;
        self.looks = self.most_looks;
        self.find(Found {
            task,
            arc: 0,
            to: 0,
        })?;
        self.find_before(0, most)
    }

    // Takes what the task lacks. All tasks that it waits for by an item are found, however many they are.
    fn take_all(&mut self) -> Result<(), NoMemory> {
        self.begin(self.task, usize::MAX)?;
        self.search()?;
        self.draw();
        if self.lacking > 0 {
            self.pop()?;
            self.take_popped()?;
        }
        Ok(())
    }

    // Starts a task: whether there is as much as it takes. Where the pool has what all that have not started take, it gives.
    fn start(&mut self, task: u32, room: u64) -> Result<bool, NoMemory> {
        self.task = task;
        self.start = self.latest_before(task);
        let taken = self.network.taken(task, room);
        self.lacking = taken;
        let fences = self.fences.len();
        if let Some(into) = self.fences_into.get_mut(task as usize) {
            *into = FencesInto {
                first: fences,
                end: fences,
            };
        }
        if self.pool >= self.still_taken {
            self.draw();
        } else if taken > 0 {
            self.take_all()?;
        }
        self.still_taken = self.still_taken.saturating_sub(taken);
        let end = self.start.saturating_add(self.network.time(task));
        if let Some(place) = self.ends.get_mut(task as usize) {
            *place = end;
        }
        Ok(self.lacking == 0)
    }

    // A task or a collector ends, at this time if it is known, and gives back what it does not leave.
    fn end(&mut self, task: u32, room: u64, at: Option<u64>) -> Result<(), NoMemory> {
        if let Some(at) = at
            && let Some(end) = self.ends.get_mut(task as usize)
        {
            *end = at;
        }
        let taken = self.network.taken(task, room);
        let free = self.network.given(task, taken);
        self.set_free(task, free);
        if free > 0 {
            let end = self.end_of(task);
            self.heap.push(Reverse(Piece { end, task }))?;
        }
        Ok(())
    }

    // What is handed on along a fence, by its place.
    fn handed(&self, fence: usize) -> u64 {
        let arc = self.network.items().len().saturating_add(fence);
        self.amounts.get(arc).copied().unwrap_or(0)
    }

    fn set_handed(&mut self, fence: usize, amount: u64) {
        let arc = self.network.items().len().saturating_add(fence);
        if let Some(handed) = self.amounts.get_mut(arc) {
            *handed = amount;
        }
    }

    // Whether what is free at tasks that a task waits for, and in the pool, is as much as it lacks.
    fn has_enough(&mut self, task: u32) -> Result<bool, NoMemory> {
        self.begin(task, MOST_FOUND)?;
        let mut sum = self.pool;
        for _ in 0..self.looks {
            if sum >= self.lacking || self.next >= self.found.len() {
                break;
            }
            let place = self.next;
            self.next = place.saturating_add(1);
            sum = sum.saturating_add(self.free_at(self.found_at(place).task));
            if self.found.len() < MOST_FOUND {
                self.find_before(place, MOST_ARCS)?;
            }
        }
        Ok(sum >= self.lacking)
    }

    // Drops a fence if what it hands on is free elsewhere.
    fn try_drop(&mut self, place: usize) -> Result<(), NoMemory> {
        let Some(fence) = self.fences.get(place).copied() else {
            return Ok(());
        };
        let amount = self.handed(place);
        let free = self.free_at(fence.from);
        self.set_handed(place, 0);
        self.set_free(fence.from, free.saturating_add(amount));
        self.lacking = amount;
        if self.has_enough(fence.to)? {
            for k in 1..self.next {
                self.take(k);
            }
            self.draw();
        } else {
            self.set_handed(place, amount);
            self.set_free(fence.from, free);
        }
        Ok(())
    }

    // Drops fences that are not needed, those that hand on least first.
    fn thin(&mut self, alloc: Global) -> Result<(), NoMemory> {
        let mut handed = Vec::new(alloc);
        for fence in 0..self.fences.len() {
            let amount = self.handed(fence);
            handed.push(Handed { amount, fence })?;
        }
        handed.sort_unstable();
        for one in handed.iter() {
            self.try_drop(one.fence)?;
        }
        Ok(())
    }

    // The fences that hand on something, with their amounts behind those of the items.
    fn fencing(&self, alloc: Global) -> Result<Fencing, NoMemory> {
        let items = self.network.items().len();
        let mut amounts: Vec<u64> = self.amounts.iter().take(items).copied().collect(alloc)?;
        let mut fences = Vec::new(alloc);
        for place in 0..self.fences.len() {
            let amount = self.handed(place);
            if let Some(fence) = self.fences.get(place).copied()
                && amount > 0
            {
                fences.push(fence)?;
                amounts.push(amount)?;
            }
        }
        Ok(Fencing { fences, amounts })
    }
}

// What all tasks take together.
fn taken_by_all(network: &Network, room: u64) -> u64 {
    let mut sum: u64 = 0;
    for task in network.order {
        sum = sum.saturating_add(network.taken(*task, room));
    }
    sum
}

/// Fences along a schedule, where each task needs less by the room of its worker, and the bound is what is left beside all rooms. None where
/// memory is lacking, as it is below the schedule's peak.
pub fn chain_along(
    alloc: Global,
    network: &Network,
    schedule: &Schedule,
    room: u64,
    bound: u64,
) -> Result<Option<Fencing>, NoMemory> {
    let Some(pool) = bound.checked_sub(network.stock()) else {
        return Ok(None);
    };
    let mut chaining = Chaining::new(alloc, network, pool, taken_by_all(network, room))?;
    for event in schedule.events.iter() {
        match *event {
            Event::Start(task) => {
                if !chaining.start(task, room)? {
                    return Ok(None);
                }
            }
            Event::End(task, at) => {
                let at = if schedule.timed { Some(at) } else { None };
                chaining.end(task, room, at)?;
            }
        }
    }
    chaining.thin(alloc)?;
    Ok(Some(chaining.fencing(alloc)?))
}
