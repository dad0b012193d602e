//! A search backwards from a task, over the items and fences by which it waits for others.

use crate::NoMemory;
use crate::network::Network;
use fences::Fence;
use std::alloc::Global;

/// A task that was found: the arc from it, and at which place in the list of what was found that arc leads. Arcs are numbered from 0, first the
/// items, behind them the fences.
#[derive(Clone, Copy)]
pub struct Found {
    pub task: u32,
    pub arc: usize,
    pub to: usize,
}

/// The search, and the fences so far, those to one task one behind the other.
#[derive(Drop)]
pub struct Backwards<'a> {
    pub network: &'a Network<'a>,
    fences: Vec<Fence>,
    // Of the fences to each task the place of the first, and the place behind the last.
    first: Vec<usize>,
    end: Vec<usize>,
    // For each task the last search, by its number, in which it was found.
    found_in: Vec<u32>,
    number: u32,
    task: u32,
    found: Vec<Found>,
}

impl<'a> Backwards<'a> {
    pub fn new(alloc: Global, network: &'a Network<'a>) -> Result<Backwards<'a>, NoMemory> {
        Ok(Backwards {
            network,
            fences: Vec::new(alloc),
            first: vec![in alloc; 0; network.len()]?,
            end: vec![in alloc; 0; network.len()]?,
            found_in: vec![in alloc; 0; network.len()]?,
            number: 0,
            task: 0,
            found: Vec::new(alloc),
        })
    }

    /// Begins at a task.
    pub fn begin(&mut self, task: u32) -> Result<(), NoMemory> {
        self.number = self.number.saturating_add(1);
        self.task = task;
        self.found.clear();
        self.find(Found {
            task,
            arc: 0,
            to: 0,
        })
    }

    /// What was found, the task itself first, and those first that are fewer arcs away.
    pub fn found_at(&self, place: usize) -> Option<Found> {
        self.found.get(place).copied()
    }

    fn find(&mut self, found: Found) -> Result<(), NoMemory> {
        if let Some(number) = self.found_in.get_mut(found.task as usize)
            && *number != self.number
        {
            *number = self.number;
            self.found.push(found)?;
        }
        Ok(())
    }

    /// How many arcs lead to a task.
    pub fn arcs(&self, task: u32) -> usize {
        let items = self.network.inputs(task).len();
        items.saturating_add(self.fences_to(task).len())
    }

    /// The fences to a task.
    pub fn fences_to(&self, task: u32) -> &[Fence] {
        let first = self.first.get(task as usize).copied().unwrap_or(0);
        let end = self.end.get(task as usize).copied().unwrap_or(0);
        self.fences.get(first..end).unwrap_or(&[])
    }

    /// Finds those that one waits for by an item which was found.
    pub fn find_makers(&mut self, to: usize) -> Result<(), NoMemory> {
        let network = self.network;
        let Some(waiting) = self.found_at(to) else {
            return Ok(());
        };
        for place in network.inputs(waiting.task) {
            if let Some(task) = network.producer(*place) {
                let arc = *place as usize;
                self.find(Found { task, arc, to })?;
            }
        }
        Ok(())
    }

    /// Finds those that one waits for by a fence which was found.
    pub fn find_fenced(&mut self, to: usize) -> Result<(), NoMemory> {
        let Some(waiting) = self.found_at(to) else {
            return Ok(());
        };
        let first = self.first.get(waiting.task as usize).copied().unwrap_or(0);
        let end = self.end.get(waiting.task as usize).copied().unwrap_or(0);
        for k in first..end {
            if let Some(Fence { from, .. }) = self.fences.get(k).copied() {
                let arc = self.network.items().len().saturating_add(k);
                self.find(Found {
                    task: from,
                    arc,
                    to,
                })?;
            }
        }
        Ok(())
    }

    /// A fence to the task from which the search began.
    pub fn fence(&mut self, from: u32) -> Result<(), NoMemory> {
        let task = self.task;
        let place = self.fences.len();
        if let Some(end) = self.end.get_mut(task as usize) {
            if *end != place
                && let Some(first) = self.first.get_mut(task as usize)
            {
                *first = place;
            }
            *end = place.saturating_add(1);
        }
        self.fences.push(Fence { from, to: task })?;
        Ok(())
    }

    pub fn fences(&self) -> &[Fence] {
        &self.fences
    }
}
