//! The search for the best bound that an effort allows.

use crate::NoMemory;
use crate::climb::{Climb, Step};
use crate::effort::Effort;
use crate::layers::best_layer;
use crate::lowering::evidence_of;
use crate::network::{Network, signed};
use crate::order::{backwards, best_order};
use crate::side::{Side, node_at_peak, peak_of, starts_of};
use crate::tables::{amount_at, count_of, number_at};
use crate::use_table::UseTable;
use crate::within::cut_of;
use peak_bounds::Evidence;
use shared_systems::SharedSystem;
use std::alloc::Global;

// How many tasks of an order are cut by themselves.
const CUTS: u32 = 16;

// How many times all tasks of a set may look at the whole system together, as a share of the effort.
const WIDEST: u64 = 6;

// Which part of the effort may be spent on showing the top at once: where that is the peak of the order that the search has by itself, and
// where a lower one was told.
const PART_FOR_TOP: u64 = 16;

const PART_FOR_TOP_IF_TOLD: u64 = 32;

// How often one direction or the other has its turn, with half of what is left of the effort.
const TURNS: u32 = 16;

// The one or the other.
fn side_of<'a>(forwards: &'a Side, mirrored: &'a Side, is_first: bool) -> &'a Side {
    if is_first { forwards } else { mirrored }
}

// A bound, and the tasks that show it.
#[derive(Drop)]
struct Found {
    bound: i64,
    is_first: bool,
    set: Vec<u32>,
}

/// What was found so far, each with a higher bound than the one before.
#[derive(Drop)]
pub struct Search {
    table: UseTable,
    forwards: Side,
    mirrored: Side,
    // What each task needs at most in the order.
    starts: Vec<i64>,
    // The lowest peak that is known.
    peak: i64,
    // Whether that was told, and is below the peak of the order.
    is_told: bool,
    bound: i64,
    effort: u64,
    spent: u64,
    // What was spent on evidence.
    shown: u64,
    found: Vec<Found>,
}

impl Search {
    /// What is found above a bound, and not above the lowest peak that is known, with an effort that is counted in steps. It is not promised
    /// to hold: whoever needs that judges the evidence.
    pub fn new(
        alloc: Global,
        system: &SharedSystem,
        effort: u64,
        bound: u64,
        lowest: u64,
    ) -> Result<Search, NoMemory> {
        let network = Network::new(alloc, system)?;
        let order = best_order(alloc, &network)?;
        let peak = peak_of(&network, &order);
        let lowest = i64::try_from(lowest).unwrap_or(i64::MAX);
        let mirror = network.mirror(alloc)?;
        let mirrored = Side::new(alloc, mirror, backwards(alloc, &order)?)?;
        let mut search = Search {
            table: UseTable::new(alloc, system)?,
            starts: starts_of(alloc, &network, &order)?,
            peak: peak.min(lowest),
            is_told: lowest < peak,
            forwards: Side::new(alloc, network, order)?,
            mirrored,
            bound: signed(bound),
            effort,
            spent: 0,
            shown: 0,
            found: Vec::new(alloc),
        };
        search.cut_some(alloc)?;
        search.look_at_layers(alloc, true)?;
        search.look_at_layers(alloc, false)?;
        search.climb(alloc)?;
        Ok(search)
    }

    /// How many bounds were found that were not yet asked for.
    pub fn found(&self) -> usize {
        self.found.len()
    }

    fn spend(&mut self, steps: u64) {
        self.spent = self.spent.saturating_add(steps);
    }

    // How much of the effort is left.
    fn left(&self) -> u64 {
        self.effort.saturating_sub(self.spent)
    }

    // How far the best order is from the bound.
    fn range(&self) -> i64 {
        self.peak.saturating_sub(self.bound)
    }

    // How many tasks a set may have, so that it does not take much longer to judge its evidence than to find it.
    fn widest(&self) -> u64 {
        self.effort.saturating_mul(WIDEST) / self.forwards.size().max(1)
    }

    // Keeps what was found, if its evidence can be made. What is only a little lower is forgotten.
    fn find(&mut self, bound: i64, is_first: bool, set: Vec<u32>) -> Result<(), NoMemory> {
        if bound <= self.bound || set.len() as u64 > self.widest() {
            return Ok(());
        }
        let near = bound.saturating_sub(self.range() / 16);
        self.bound = bound;
        let last = self.found.len().saturating_sub(1);
        if last > 0
            && let Some(before) = self.found.get(last - 1)
            && before.bound > near
        {
            self.found.truncate(last);
        }
        self.found.push(Found {
            bound,
            is_first,
            set,
        })?;
        Ok(())
    }

    // Cuts one task, if it may show more than is known.
    fn cut(&mut self, alloc: Global, task: u32) -> Result<(), NoMemory> {
        let most = self.effort / 8;
        let is_open = amount_at(&self.starts, task) > self.bound && self.spent < most;
        if !is_open || !self.forwards.network.is_task(task) {
            return Ok(());
        }
        let side = &self.forwards;
        let (cut, effort) = cut_of(alloc, &side.network, &side.order, task, Effort::new(most))?;
        self.spend(effort.taken());
        if let Some(bound) = cut {
            self.find(bound, true, Vec::from_slice(alloc, &[task])?)?;
        }
        Ok(())
    }

    // Cuts the task at the peak of the order, and some others of it, the last ones first.
    fn cut_some(&mut self, alloc: Global) -> Result<(), NoMemory> {
        let peak = peak_of(&self.forwards.network, &self.forwards.order);
        let node = node_at_peak(&self.forwards.order, &self.starts, peak);
        self.cut(alloc, node)?;
        let last = count_of(self.forwards.order.len()).saturating_sub(1);
        for k in 0..CUTS {
            let place = last.saturating_sub(last / (CUTS - 1) * k);
            let node = number_at(&self.forwards.order, place);
            self.cut(alloc, node)?;
        }
        Ok(())
    }

    // Looks for a layer that shows clearly more.
    fn look_at_layers(&mut self, alloc: Global, is_first: bool) -> Result<(), NoMemory> {
        if self.range() <= 0 {
            return Ok(());
        }
        let side = side_of(&self.forwards, &self.mirrored, is_first);
        let limit = self.bound.saturating_add(self.range() / 16);
        let effort = Effort::new(self.effort / 8);
        let (layer, effort) = best_layer(alloc, side, limit, self.widest(), effort)?;
        self.spend(effort.taken());
        if let Some(layer) = layer {
            self.find(layer.bound, is_first, layer.tasks)?;
        }
        Ok(())
    }

    // Takes note of what a step of a climb came to.
    fn take(&mut self, step: Step, is_first: bool) -> Result<(), NoMemory> {
        self.spend(step.taken);
        if let Some((bound, set)) = step.shown {
            self.find(bound, is_first, set)?;
        }
        Ok(())
    }

    // Climbs in one direction, with so much of the effort. By how much the bound rose.
    fn climb_by(
        &mut self,
        alloc: Global,
        climb: &mut Climb,
        is_first: bool,
        most: u64,
    ) -> Result<i64, NoMemory> {
        let before = self.bound;
        let end = self.spent.saturating_add(most);
        for _ in 0..most {
            let left = end.saturating_sub(self.spent);
            if left <= most / 4 || !climb.is_open(self.bound) {
                break;
            }
            let side = side_of(&self.forwards, &self.mirrored, is_first);
            let step = climb.go_on(alloc, side, self.bound, left)?;
            self.take(step, is_first)?;
        }
        Ok(self.bound.saturating_sub(before))
    }

    // Climbs in both directions, each time in the one that gained more when it had its turn last.
    fn climb_on(
        &mut self,
        alloc: Global,
        first: &mut Climb,
        last: &mut Climb,
    ) -> Result<(), NoMemory> {
        let share = self.left() / 4;
        let mut by_first = self.climb_by(alloc, first, true, share)?;
        let mut by_last = self.climb_by(alloc, last, false, share)?;
        for turn in 0..TURNS {
            let most = self.left() / 2;
            if by_first > by_last || by_first == by_last && turn % 2 == 1 {
                by_first = self.climb_by(alloc, first, true, most)?;
            } else {
                by_last = self.climb_by(alloc, last, false, most)?;
            }
        }
        Ok(())
    }

    // Tries to show the peak of the order at once, and then climbs.
    fn climb(&mut self, alloc: Global) -> Result<(), NoMemory> {
        if self.range() <= 0 {
            return Ok(());
        }
        let mut first = Climb::new(alloc, &self.forwards, self.peak, self.is_told)?;
        let mut last = Climb::new(alloc, &self.mirrored, self.peak, self.is_told)?;
        let most = if self.is_told {
            self.effort / PART_FOR_TOP_IF_TOLD
        } else {
            self.effort / PART_FOR_TOP
        };
        let step = first.try_top(alloc, &self.forwards, most)?;
        self.take(step, true)?;
        if self.range() > 0 {
            let step = last.try_top(alloc, &self.mirrored, most)?;
            self.take(step, false)?;
        }
        self.climb_on(alloc, &mut first, &mut last)
    }

    // The evidence of what was found; none if the effort does not suffice for it.
    fn evidence(&mut self, alloc: Global, found: &mut Found) -> Result<Option<Evidence>, NoMemory> {
        found.set.sort_unstable();
        let left = self.effort.saturating_sub(self.shown);
        let side = side_of(&self.forwards, &self.mirrored, found.is_first);
        let effort = Effort::new(left / 4 * 3);
        let (evidence, effort) = evidence_of(
            alloc,
            &side.network,
            &side.order,
            &self.table,
            &found.set,
            found.bound,
            effort,
        )?;
        self.shown = self.shown.saturating_add(effort.taken());
        match evidence {
            Some(set) => Ok(Some(Evidence::Set(set))),
            None => Ok(None),
        }
    }

    /// The highest bound that was not yet asked for, with its evidence; none if there is no evidence for it.
    pub fn next(&mut self, alloc: Global) -> Result<Option<(u64, Evidence)>, NoMemory> {
        let Some(mut found) = self.found.pop() else {
            return Ok(None);
        };
        match self.evidence(alloc, &mut found)? {
            Some(evidence) => Ok(Some((u64::try_from(found.bound).unwrap_or(0), evidence))),
            None => Ok(None),
        }
    }
}
