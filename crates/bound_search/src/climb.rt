//! A growth that climbs by steps. It grows on from where it was within a bound some steps above what is shown; where that ends
//! blocked, so much is shown. Where all tasks come inside, or the effort does not suffice, it falls back to where it was.

use crate::NoMemory;
use crate::effort::Effort;
use crate::growth::{Ended, Growth};
use crate::side::Side;
use std::alloc::Global;

// Into how many steps the range of what may be shown is cut at first; into fewer if the top is near.
const STEPS: i64 = 64;

const STEPS_IF_NEAR: i64 = 16;

/// A climb in one direction.
#[derive(Drop)]
pub struct Climb {
    // What has come inside within the bound of the last step that did not fail.
    growth: Growth,
    // What its growth has shown, though it may not have been kept; no more than the top can be shown.
    reached: i64,
    top: i64,
    // Whether the top is near to what can be shown.
    is_near: bool,
    step: i64,
    is_begun: bool,
}

/// What a step came to.
#[derive(Drop)]
pub struct Step {
    /// The bound that it shows, with the tasks; none if it failed.
    pub shown: Option<(i64, Vec<u32>)>,
    /// How many steps of the effort it took.
    pub taken: u64,
}

impl Climb {
    /// No more than the top can be shown, which may be near to that.
    pub fn new(alloc: Global, side: &Side, top: i64, is_near: bool) -> Result<Climb, NoMemory> {
        Ok(Climb {
            growth: Growth::new(alloc, &side.network, Effort::new(u64::MAX))?,
            reached: 0,
            top,
            is_near,
            step: 1,
            is_begun: false,
        })
    }

    /// Whether more than a bound may be shown.
    pub fn is_open(&self, bound: i64) -> bool {
        bound.max(self.reached) < self.top
    }

    // What the blocked tasks of a growth show.
    fn shown(
        alloc: Global,
        side: &Side,
        growth: &mut Growth,
    ) -> Result<Option<(i64, Vec<u32>)>, NoMemory> {
        let bound = growth.least_value(&side.network)?;
        let tasks = Vec::from_slice(alloc, growth.blocked())?;
        Ok(Some((bound, tasks)))
    }

    // Goes on without a copy, within what is shown.
    fn creep(
        &mut self,
        alloc: Global,
        side: &Side,
        bound: i64,
        most: u64,
    ) -> Result<Step, NoMemory> {
        self.growth.allow(most);
        let mut shown = None;
        match self.growth.grow(alloc, side, bound)? {
            Ended::Blocked => shown = Climb::shown(alloc, side, &mut self.growth)?,
            Ended::Complete => self.top = bound,
            Ended::Spent => {}
        }
        let taken = self.growth.effort().taken();
        Ok(Step { shown, taken })
    }

    // Grows within a bound that may be too high.
    fn leap(
        &mut self,
        alloc: Global,
        side: &Side,
        bound: i64,
        most: u64,
    ) -> Result<Step, NoMemory> {
        let mut growth = self.growth.copy(alloc, &side.network)?;
        growth.allow(most.saturating_sub(side.size()));
        let mut shown = None;
        match growth.grow(alloc, side, bound)? {
            Ended::Blocked => {
                shown = Climb::shown(alloc, side, &mut growth)?;
                let taken = growth.effort().taken();
                self.growth = growth;
                return Ok(Step { shown, taken });
            }
            Ended::Complete => self.top = bound,
            Ended::Spent => {}
        }
        let taken = growth.effort().taken().saturating_add(side.size());
        Ok(Step { shown, taken })
    }

    /// Tries to show the top at once.
    pub fn try_top(&mut self, alloc: Global, side: &Side, most: u64) -> Result<Step, NoMemory> {
        self.leap(alloc, side, self.top.saturating_sub(1), most)
    }

    // How far the first step after a bound is shown goes from there.
    fn first_step(&self, bound: i64) -> i64 {
        let range = self.top.saturating_sub(bound);
        if self.is_near {
            (range / STEPS_IF_NEAR).max(1)
        } else {
            (range / STEPS).max(1)
        }
    }

    // How far the next step goes from a bound.
    fn next_step(&mut self, bound: i64) -> i64 {
        let range = self.top.saturating_sub(bound);
        if self.is_begun {
            self.step.min(range.saturating_add(1) / 2).max(1)
        } else {
            1
        }
    }

    /// Takes a step above what is shown, a bound or more, with so much of the effort at most.
    pub fn go_on(
        &mut self,
        alloc: Global,
        side: &Side,
        bound: i64,
        most: u64,
    ) -> Result<Step, NoMemory> {
        let bound = bound.max(self.reached);
        let step = self.next_step(bound);
        let done = if step == 1 {
            self.creep(alloc, side, bound, most)?
        } else {
            self.leap(
                alloc,
                side,
                bound.saturating_add(step).saturating_sub(1),
                most / 2,
            )?
        };
        if let Some((shown, _)) = &done.shown {
            self.reached = *shown;
        }
        if !self.is_begun && done.shown.is_some() {
            self.is_begun = true;
            self.step = self.first_step(bound);
        } else if done.shown.is_none() {
            self.step = (step / 4).max(1);
        } else if done.taken < most / 4 {
            self.step = step.saturating_mul(2);
        }
        Ok(done)
    }
}
