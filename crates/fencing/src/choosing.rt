//! The best fences of those that a search finds, which promises nothing. Where it is told for how many workers they are, it judges fences by a
//! simulated run on so many: it tries some rooms for each worker, and then chains the schedules of runs again and again, with the best of these
//! rooms and with none: a room that is best at first may leave less to gain.

ghost use Rattle.std.specs.Prelude.{ℕ, ◌≤◌, IfOk, IfSome};
ghost use Rattle.mp_system.specs.Traversal.{IsTraversal};
ghost use Rattle.fencing.specs.Asked.{IsFor};

use crate::NoMemory;
use crate::chain::chain_along;
use crate::fencing::Fencing;
use crate::improving::Aim;
use crate::network::Network;
use crate::rooms::{Chosen, greatest_room};
use crate::schedule::Schedule;
use crate::simulating::simulate;
use fences::Workers;
use mp_system::System;
use std::alloc::Global;

// How many rooms are tried at most, and how often runs are chained at most with each of two rooms, which takes about so many tries each time.
const MOST_ROOMS: u64 = 21;

const ROUNDS: u64 = 6;

const TRIES_A_ROUND: u64 = 5;

// By runs on how many workers fences for any number are judged.
const NUMBERS: [u32; 3] = [4, 16, 64];

// How many tasks, collectors and items are gone over for all of these together.
const EFFORT: u64 = 800_000;

// Fences with some room for each worker, and how long a run takes with them.
#[derive(Drop)]
struct Candidate {
    room: u64,
    makespan: u64,
    fencing: Fencing,
}

// A search for the best fences for so many workers.
#[derive(Drop)]
struct Search<'a> {
    network: &'a Network<'a>,
    bound: u64,
    count: u32,
    candidates: Vec<Candidate>,
    // The least makespan, and the room with which it comes.
    least: u64,
    room: u64,
}

// How many chains can be made, by the size of the network.
fn tries_for(network: &Network) -> u64 {
    let size = network.len().saturating_add(network.items().len()).max(1);
    EFFORT / size as u64
}

impl<'a> Search<'a> {
    // What the bound leaves beside the rooms of all workers.
    fn left_beside(&self, room: u64) -> Option<u64> {
        self.bound
            .checked_sub(room.saturating_mul(self.count as u64))
    }

    // Whether a room leaves as much as the order's peak.
    fn fits(&self, room: u64) -> bool {
        match self.left_beside(room) {
            None => false,
            Some(left) => self.network.peak(room) <= left,
        }
    }

    // The greatest room of those that are tried here which fits.
    fn fitting(&self, greatest: u64) -> u64 {
        let mut room = greatest;
        for _ in 0..MOST_ROOMS {
            if self.fits(room) {
                return room;
            }
            room = room.saturating_sub(room / 8);
        }
        0
    }

    // Chains the order with this room and simulates a run, if it can be chained.
    fn try_room(&mut self, alloc: Global, along: &Schedule, room: u64) -> Result<(), NoMemory> {
        let Some(left) = self.left_beside(room) else {
            return Ok(());
        };
        let Some(fencing) = chain_along(alloc, self.network, along, room, left)? else {
            return Ok(());
        };
        let run = simulate(alloc, self.network, &fencing.fences, along, self.count)?;
        let makespan = run.makespan;
        if makespan < self.least {
            self.least = makespan;
            self.room = room;
        }
        self.candidates.push(Candidate {
            room,
            makespan,
            fencing,
        })?;
        Ok(())
    }

    // Whether the last candidate has no fence, so that no other is better.
    fn is_done(&self) -> bool {
        match self.candidates.last() {
            None => false,
            Some(candidate) => candidate.fencing.fences.is_empty(),
        }
    }

    // Tries so many rooms: none, and then from the greatest one down.
    fn try_rooms(
        &mut self,
        alloc: Global,
        along: &Schedule,
        greatest: u64,
        rooms: u64,
    ) -> Result<(), NoMemory> {
        self.try_room(alloc, along, 0)?;
        let steps = rooms.saturating_sub(1).clamp(1, greatest.max(1));
        for step in (1..=steps.min(greatest)).rev() {
            if self.is_done() {
                break;
            }
            let room = greatest.saturating_mul(step) / steps;
            self.try_room(alloc, along, room)?;
        }
        Ok(())
    }

    // Chains the runs with a room again and again.
    fn chain_again(
        &mut self,
        alloc: Global,
        along: &Schedule,
        room: u64,
        rounds: u64,
    ) -> Result<(), NoMemory> {
        let Some(left) = self.left_beside(room) else {
            return Ok(());
        };
        let count = self.count;
        let aim = Aim {
            network: self.network,
            room,
            left,
            numbers: [count, (count / 4).max(2), count.saturating_mul(4)],
            counting: 1,
        };
        if let Some(improved) = aim.improve(alloc, along, rounds)? {
            let makespan = improved.runs.first().map_or(u64::MAX, |run| run.makespan);
            self.candidates.push(Candidate {
                room,
                makespan,
                fencing: improved.fencing,
            })?;
        }
        Ok(())
    }
}

// The one with the fewest fences of those with which a run takes about as long as with the best of them, half a percent more at most.
fn best_of(candidates: Vec<Candidate>) -> Option<Candidate> {
    let mut least = u64::MAX;
    for candidate in candidates.iter() {
        least = least.min(candidate.makespan);
    }
    let most = least.saturating_add(least / 200);
    let mut fences = usize::MAX;
    let mut best = None;
    for candidate in candidates {
        let count = candidate.fencing.fences.len();
        if candidate.makespan <= most && count < fences {
            fences = count;
            best = Some(candidate);
        }
    }
    best
}

// The best fences for so many workers, and the room for each of them.
fn best_for(
    alloc: Global,
    network: &Network,
    along: &Schedule,
    bound: u64,
    count: u32,
    greatest: u64,
) -> Result<Option<Candidate>, NoMemory> {
    let tries = tries_for(network);
    let rooms = (tries / 2).clamp(2, MOST_ROOMS);
    let rounds = (tries.saturating_sub(rooms) / TRIES_A_ROUND).min(ROUNDS);
    let mut search = Search {
        network,
        bound,
        count,
        candidates: Vec::new(alloc),
        least: u64::MAX,
        room: 0,
    };
    let greatest = search.fitting(greatest);
    search.try_rooms(alloc, along, greatest, rooms)?;
    if rounds > 0 && !search.is_done() {
        let room = search.room;
        search.chain_again(alloc, along, room, rounds)?;
        if room > 0 {
            search.chain_again(alloc, along, 0, rounds)?;
        }
    }
    Ok(best_of(search.candidates))
}

// Good fences for any number of workers.
fn best_for_any(
    alloc: Global,
    network: &Network,
    along: &Schedule,
    bound: u64,
) -> Result<Option<Fencing>, NoMemory> {
    let rounds = (tries_for(network) / TRIES_A_ROUND).min(ROUNDS);
    if rounds == 0 {
        return chain_along(alloc, network, along, 0, bound);
    }
    let aim = Aim {
        network,
        room: 0,
        left: bound,
        numbers: NUMBERS,
        counting: NUMBERS.len(),
    };
    match aim.improve(alloc, along, rounds)? {
        None => Ok(None),
        Some(improved) => Ok(Some(improved.fencing)),
    }
}

/// Good fences along a traversal, which are to be judged; none where the search fails. The number of tasks before the collectors is told.
pub fn best_chain(
    alloc: Global,
    system: &System,
    order: &[u32],
    tasks: u32,
    bound: u64,
    workers: Option<u32>,
) -> Result<Option<Chosen>, NoMemory>
    requires traversal { IsTraversal system.now order.now }
    requires workers { IfSome workers (λ count. 1 ≤ count) }
    ensures { IfOk result (λ found. IfSome found (λ chosen. IsFor workers chosen.workers)) }
{
    let network = Network::new(alloc, system, order, tasks)?;
    let along = Schedule::along(alloc, order)?;
    let (workers, fencing) = match workers {
        None => {
            let Some(fencing) = best_for_any(alloc, &network, &along, bound)? else {
                return Ok(None);
            };
            (Workers::Any, fencing)
        }
        Some(count) => {
            let greatest = greatest_room(alloc, system, order, bound, count)?;
            let Some(best) = best_for(alloc, &network, &along, bound, count, greatest)? else {
                return Ok(None);
            };
            let room = best.room;
            (Workers::AtMost { count, room }, best.fencing)
        }
    };
    Ok(Some(Chosen { workers, fencing }))
}
