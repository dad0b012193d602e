//! Better fences from good ones, by a search that promises nothing: runs with them are simulated on several numbers of workers, and the schedules
//! of these runs are chained. A schedule for more or for fewer workers often leads to better fences for so many.

use crate::NoMemory;
use crate::chain::chain_along;
use crate::fencing::Fencing;
use crate::network::Network;
use crate::schedule::Schedule;
use crate::simulating::{Outcome, simulate};
use fences::Fence;
use std::alloc::Global;

/// What fences are searched for, and how they are judged.
#[derive(Drop)]
pub struct Aim<'a> {
    pub network: &'a Network<'a>,
    /// The room for each worker, and what the bound leaves beside all rooms.
    pub room: u64,
    pub left: u64,
    /// On how many workers runs are simulated. The first of these count.
    pub numbers: [u32; 3],
    pub counting: usize,
}

/// Fences, the runs with them, and how much longer than without fences these take: the sum of those that count, in millionths.
#[derive(Drop)]
pub struct Improved {
    pub fencing: Fencing,
    pub runs: Vec<Outcome>,
    score: u64,
}

// How long runs take, each in millionths of one without fences, and those that count together.
fn score_of(runs: &[Outcome], free: &[Outcome], counting: usize) -> u64 {
    let mut score: u64 = 0;
    for (run, free) in runs.iter().zip(free.iter()).take(counting) {
        score = score.saturating_add(run.makespan.saturating_mul(1_000_000) / free.makespan.max(1));
    }
    score
}

impl<'a> Aim<'a> {
    // The runs with these fences.
    fn runs_with(
        &self,
        alloc: Global,
        fences: &[Fence],
        schedule: &Schedule,
    ) -> Result<Vec<Outcome>, NoMemory> {
        let mut runs = Vec::new(alloc);
        for number in self.numbers {
            runs.push(simulate(alloc, self.network, fences, schedule, number)?)?;
        }
        Ok(runs)
    }

    // Chains a schedule, if it fits.
    fn chained(
        &self,
        alloc: Global,
        schedule: &Schedule,
        free: &[Outcome],
    ) -> Result<Option<Improved>, NoMemory> {
        let Some(fencing) = chain_along(alloc, self.network, schedule, self.room, self.left)? else {
            return Ok(None);
        };
        let runs = self.runs_with(alloc, &fencing.fences, schedule)?;
        let score = score_of(&runs, free, self.counting);
        Ok(Some(Improved {
            fencing,
            runs,
            score,
        }))
    }

    // The best to which the runs with some fences lead, if it is better than these.
    fn better(
        &self,
        alloc: Global,
        from: &Improved,
        free: &[Outcome],
    ) -> Result<Option<Improved>, NoMemory> {
        let mut best = None;
        let mut least = from.score;
        for run in from.runs.iter() {
            if let Some(next) = self.chained(alloc, &run.schedule, free)?
                && next.score < least
            {
                least = next.score;
                best = Some(next);
            }
        }
        Ok(best)
    }

    /// Fences along a schedule, and then better ones so many times, as long as there are any.
    pub fn improve(
        &self,
        alloc: Global,
        along: &Schedule,
        rounds: u64,
    ) -> Result<Option<Improved>, NoMemory> {
        let free = self.runs_with(alloc, &[], along)?;
        let Some(mut best) = self.chained(alloc, along, &free)? else {
            return Ok(None);
        };
        for _ in 0..rounds {
            let Some(next) = self.better(alloc, &best, &free)? else {
                break;
            };
            best = next;
        }
        Ok(Some(best))
    }
}
