//! Memory that is handed on to tasks by those that they come after, as far as these are found near them.

use crate::NoMemory;
use crate::backwards::Backwards;
use std::alloc::Global;

// How many tasks and arcs are looked at before a task.
const LOOKS: usize = 200;

/// What is handed on along each arc, first the items, behind them the fences; what is left of what each task gave back; and what the task that comes
/// next still lacks.
#[derive(Drop)]
pub struct Handing {
    pub amounts: Vec<u64>,
    free: Vec<u64>,
    lacking: u64,
    /// How many tasks were looked at.
    pub steps: u64,
}

fn find_before(search: &mut Backwards, place: usize) -> Result<(), NoMemory> {
    search.find_makers(place)?;
    search.find_fenced(place)
}

impl Handing {
    fn new(alloc: Global, search: &Backwards) -> Result<Handing, NoMemory> {
        let network = search.network;
        let mut amounts: Vec<u64> = network.items().iter().map(|item| item.size).collect(alloc)?;
        for _ in 0..search.fences().len() {
            amounts.push(0)?;
        }
        Ok(Handing {
            amounts,
            free: vec![in alloc; 0; network.len()]?,
            lacking: 0,
            steps: 0,
        })
    }

    // Raises what is handed on from a task that was found to the one from which the search began.
    fn raise(&mut self, search: &Backwards, place: usize, amount: u64) {
        let mut place = place;
        for _ in 0..self.free.len() {
            if place == 0 {
                break;
            }
            let Some(found) = search.found_at(place) else {
                break;
            };
            if let Some(handed) = self.amounts.get_mut(found.arc) {
                *handed = handed.saturating_add(amount);
            }
            place = found.to;
        }
    }

    // Takes what is free at a task that was found, or as much of it as is lacking.
    fn take(&mut self, search: &Backwards, place: usize, task: u32) {
        let free = self.free.get(task as usize).copied().unwrap_or(0);
        let amount = free.min(self.lacking);
        if amount > 0 {
            self.set_free(task, free.saturating_sub(amount));
            self.lacking = self.lacking.saturating_sub(amount);
            self.raise(search, place, amount);
        }
    }

    fn set_free(&mut self, task: u32, amount: u64) {
        if let Some(free) = self.free.get_mut(task as usize) {
            *free = amount;
        }
    }

    // Takes what a task lacks, as far as it is found.
    fn take_all(&mut self, search: &mut Backwards, task: u32) -> Result<(), NoMemory> {
        search.begin(task)?;
        find_before(search, 0)?;
        let mut looks: usize = 0;
        for place in 1..self.free.len() {
            let Some(found) = search.found_at(place) else {
                break;
            };
            self.take(search, place, found.task);
            looks = looks
                .saturating_add(search.arcs(found.task))
                .saturating_add(1);
            self.steps = self.steps.saturating_add(1);
            if self.lacking == 0 || looks >= LOOKS {
                break;
            }
            find_before(search, place)?;
        }
        Ok(())
    }
}

/// What is handed on along each arc, where each task needs less by the room of its worker.
pub fn handed_on(alloc: Global, search: &mut Backwards, room: u64) -> Result<Handing, NoMemory> {
    let network = search.network;
    let mut handing = Handing::new(alloc, search)?;
    for task in network.order {
        let taken = network.taken(*task, room);
        handing.lacking = taken;
        if taken > 0 {
            handing.take_all(search, *task)?;
        }
        handing.set_free(*task, network.given(*task, taken));
    }
    Ok(handing)
}
