//! The best orders that were found so far.

use crate::NoMemory;
use std::alloc::Global;

// So many orders are kept, of different peaks.
const MOST_KEPT: usize = 4;

/// An order and its peak.
#[derive(Drop)]
pub struct Candidate {
    pub peak: i64,
    pub order: Vec<u32>,
    /// How many states of each part were looked at in vain.
    pub states: u32,
}

/// A few orders of different peaks, the best one first.
#[derive(Drop)]
pub struct Pool {
    kept: Vec<Candidate>,
}

impl Pool {
    /// No orders.
    pub fn new(alloc: Global) -> Pool {
        Pool {
            kept: Vec::new(alloc),
        }
    }

    /// How many there are.
    pub fn len(&self) -> usize {
        self.kept.len()
    }

    /// One of them, the best at 0.
    pub fn at(&self, place: usize) -> &[u32] {
        match self.kept.get(place) {
            Some(candidate) => &candidate.order,
            None => &[],
        }
    }

    /// Its peak.
    pub fn peak(&self, place: usize) -> i64 {
        self.kept
            .get(place)
            .map_or(i64::MAX, |candidate| candidate.peak)
    }

    /// How many states of each part were looked at in vain.
    pub fn states(&self, place: usize) -> u32 {
        self.kept.get(place).map_or(0, |candidate| candidate.states)
    }

    // Whether one has this peak.
    fn has(&self, peak: i64) -> bool {
        for candidate in &self.kept {
            if candidate.peak == peak {
                return true;
            }
        }
        false
    }

    // Lets the best of the first so many rise to the first place.
    fn raise_best(&mut self, count: usize) {
        for place in (1..count).rev() {
            if place < self.kept.len() && self.peak(place) < self.peak(place - 1) {
                self.kept.swap(place, place - 1);
            }
        }
    }

    // Drops the order at a place.
    fn drop_at(&mut self, place: usize) {
        let count = self.kept.len();
        for k in place.saturating_add(1)..count {
            self.kept.swap(k, k - 1);
        }
        if place < count {
            self.kept.pop();
        }
    }

    /// Puts the orders in the order of their peaks again, and keeps one of each peak.
    pub fn sort(&mut self) {
        let count = self.kept.len();
        for _ in 0..count {
            self.raise_best(count);
        }
        for place in (1..count).rev() {
            if self.peak(place) == self.peak(place - 1) {
                self.drop_at(place);
            }
        }
    }

    /// Keeps an order, if it is among the best ones, and none of them has its peak.
    pub fn offer(&mut self, peak: i64, order: Vec<u32>) -> Result<(), NoMemory> {
        if self.has(peak) {
            return Ok(());
        }
        self.kept.push(Candidate {
            peak,
            order,
            states: 0,
        })?;
        let count = self.kept.len();
        self.raise_best(count);
        if self.kept.len() > MOST_KEPT {
            self.kept.pop();
        }
        Ok(())
    }

    /// Puts an order in place of one that it came from, and that is not better.
    pub fn put(&mut self, place: usize, found: Candidate) {
        if let Some(candidate) = self.kept.get_mut(place)
            && found.peak <= candidate.peak
        {
            *candidate = found;
        }
    }
}
