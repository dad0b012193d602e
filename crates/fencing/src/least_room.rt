//! The room for each worker with which amounts certify least, by a search that promises nothing.

ghost use Rattle.std.specs.Prelude.{◌≤◌, ℕ, IfOk, IfSome};
ghost use Rattle.fencing.specs.Asked.{IsFor};

use crate::NoMemory;
use crate::backwards::Backwards;
use crate::least_flow::{LeastFlow, least_flow};
use crate::network::Network;
use crate::waiting::with_fences;
use fences::{Fence, Workers};
use mp_system::System;
use std::alloc::Global;

/// For how many workers, what is set aside for all of them, and fences and amounts.
#[derive(Drop)]
pub struct Least {
    pub workers: Workers,
    pub reserve: u64,
    pub fences: Vec<Fence>,
    pub amounts: Vec<u64>,
}

// How many steps all searches for a least flow may make together, and how often the rooms that are left are halved.
const STEPS: u64 = 100_000_000;

const HALVINGS: u32 = 12;

// The least so far, and the rooms that are left.
#[derive(Drop)]
struct Rooms {
    count: u64,
    low: u64,
    high: u64,
    best: LeastFlow,
    room: u64,
    steps: u64,
}

// What the bound is with a room for each worker.
fn with_room(flow: &LeastFlow, room: u64, count: u64) -> u64 {
    flow.bound.saturating_add(room.saturating_mul(count))
}

impl Rooms {
    // The bound with a room; it is kept if it is less.
    fn try_room(
        &mut self,
        alloc: Global,
        search: &mut Backwards,
        room: u64,
    ) -> Result<u64, NoMemory> {
        let found = least_flow(alloc, search, room, self.steps)?;
        self.steps = found.steps;
        let bound = with_room(&found, room, self.count);
        if bound < with_room(&self.best, self.room, self.count) {
            self.best = found;
            self.room = room;
        }
        Ok(bound)
    }

    // Halves the rooms that are left: least flows are convex in the room, so where the bound rises less rooms are better.
    fn halve(&mut self, alloc: Global, search: &mut Backwards) -> Result<(), NoMemory> {
        let half = self
            .low
            .saturating_add(self.high.saturating_sub(self.low) / 2);
        let here = self.try_room(alloc, search, half)?;
        let next = self.try_room(alloc, search, half.saturating_add(1))?;
        if next < here {
            self.low = half.saturating_add(1);
        } else {
            self.high = half;
        }
        Ok(())
    }
}

// The greatest need of a task.
fn greatest_need(network: &Network) -> u64 {
    let mut greatest: u64 = 0;
    for task in network.order {
        greatest = greatest.max(network.taken(*task, 0));
    }
    greatest
}

// The fences along which something is handed on, and the amounts of the items and these.
fn used(
    alloc: Global,
    search: &Backwards,
    all: &[u64],
) -> Result<(Vec<Fence>, Vec<u64>), NoMemory> {
    let items = search.network.items().len();
    let mut fences = Vec::new(alloc);
    let mut amounts = Vec::from_slice(alloc, all.get(..items).unwrap_or(&[]))?;
    for (k, fence) in search.fences().iter().enumerate() {
        let amount = all.get(items.saturating_add(k)).copied().unwrap_or(0);
        if amount > 0 {
            fences.push(*fence)?;
            amounts.push(amount)?;
        }
    }
    Ok((fences, amounts))
}

// The least with some rooms for each of so many workers.
fn least_of_rooms(
    alloc: Global,
    search: &mut Backwards,
    first: LeastFlow,
    count: u32,
) -> Result<(LeastFlow, u64), NoMemory> {
    let high = greatest_need(search.network);
    let steps = first.steps;
    let mut rooms = Rooms {
        count: count as u64,
        low: 0,
        high,
        best: first,
        room: 0,
        steps,
    };
    for _ in 0..HALVINGS {
        if rooms.low >= rooms.high || rooms.steps == 0 {
            break;
        }
        rooms.halve(alloc, search)?;
    }
    Ok((rooms.best, rooms.room))
}

/// Fences that forbid no run and amounts, which are to be judged, from a traversal of the collected system; none where sums are too great. The
/// number of tasks before the collectors is told.
pub fn least_along(
    alloc: Global,
    system: &System,
    order: &[u32],
    tasks: u32,
    workers: Option<u32>,
) -> Result<Option<Least>, NoMemory>
    ensures { IfOk result (λ found. IfSome found (λ least. IsFor workers least.workers)) }
{
    let network = Network::new(alloc, system, order, tasks)?;
    let mut search = with_fences(alloc, &network, tasks)?;
    let first = least_flow(alloc, &mut search, 0, STEPS)?;
    let (found, room, workers) = match workers {
        None => (first, 0, Workers::Any),
        Some(count) => {
            let (found, room) = least_of_rooms(alloc, &mut search, first, count)?;
            (found, room, Workers::AtMost { count, room })
        }
    };
    let count = match workers {
        Workers::Any => 0,
        Workers::AtMost { count, .. } => count as u64,
    };
    let Some(reserve) = room.checked_mul(count) else {
        return Ok(None);
    };
    let (fences, amounts) = used(alloc, &search, &found.amounts)?;
    Ok(Some(Least {
        workers,
        reserve,
        fences,
        amounts,
    }))
}
