//! Fewer fences from good ones, by a search that promises nothing: what it finds is judged before it is used.
//!
//! A fence can go if what is handed on along it can be led otherwise, along items and the other fences, whose amounts are raised and lowered for
//! it, or from what is left over and what is drawn elsewhere. The amounts are a flow with lower bounds, as in `least_flow`, and a way is one
//! through what it leaves: L. R. Ford and D. R. Fulkerson, "Flows in networks", 1962. The fences on the longest paths come first. Where the steps
//! suffice, no fence is left that could go.

use crate::NoMemory;
use crate::fencing::Fencing;
use crate::followers::Followers;
use crate::least_flow::{NO_ENDS, Through, ends_of, through_of};
use crate::network::Network;
use crate::schedule::{Event, Schedule};
use crate::simulating::{paths_of, simulate};
use fences::{Fence, FenceCertificate, Workers};
use std::alloc::Global;
use std::cmp::Reverse;

// How many steps all searches may make together, at least and at most, and times the tasks, collectors and items; what part of them those may
// make that lower what is drawn; and how many times its even share of what is left one fence may have.
const LEAST_STEPS: u64 = 20_000_000;

const MOST_STEPS: u64 = 60_000_000;

const STEPS_BY_SIZE: u64 = 1_000_000_000_000;

const FIRST_PART: u64 = 6;

const SHARES: u64 = 4;

// Which way a search goes: back from where a task starts along what it is handed, or on from where it ends along what it hands on. That is its near
// side, and the other one its far side.
#[derive(Clone, Copy, PartialEq, Eq)]
enum Way {
    Back,
    On,
}

fn turned(way: Way) -> Way {
    match way {
        Way::Back => Way::On,
        Way::On => Way::Back,
    }
}

// One side of a task that was found: the number of what is changed on the way from there, whether that is raised, and at which place in the list of
// what was found the way goes on.
#[derive(Clone, Copy)]
struct Found {
    task: u32,
    is_far: bool,
    value: usize,
    is_raised: bool,
    to: usize,
}

// A number before it was changed.
#[derive(Clone, Copy)]
struct Changed {
    value: usize,
    old: u64,
}

// How long the longest path by way of a fence is.
#[derive(Clone, Copy, PartialEq, Eq, PartialOrd, Ord)]
struct Length {
    length: Reverse<u64>,
    fence: usize,
}

#[derive(Drop)]
struct Pruning<'a> {
    network: &'a Network<'a>,
    fences: &'a [Fence],
    is_gone: Vec<bool>,
    // The arcs into and out of each task, first the items, behind them the fences.
    into: Followers,
    out: Followers,
    // What can be lowered: what each arc hands on above its size; behind these for each task what it draws, what is left over there, and how much
    // more than it holds goes through it; and what is left of the bound.
    values: Vec<u64>,
    changed: Vec<Changed>,
    // For each side of each task the last search, by its number, in which it was found.
    found_in: Vec<u32>,
    number: u32,
    found: Vec<Found>,
    steps: u64,
}

// How many steps all searches may make together.
fn steps_for(network: &Network) -> u64 {
    let size = network.len().saturating_add(network.items().len()).max(1);
    (STEPS_BY_SIZE / size as u64).clamp(LEAST_STEPS, MOST_STEPS)
}

impl<'a> Pruning<'a> {
    fn value(&self, value: usize) -> u64 {
        self.values.get(value).copied().unwrap_or(0)
    }

    fn set(&mut self, value: usize, new: u64) -> Result<(), NoMemory> {
        if let Some(old) = self.values.get_mut(value) {
            let before = *old;
            *old = new;
            self.changed.push(Changed { value, old: before })?;
        }
        Ok(())
    }

    fn change(&mut self, value: usize, is_raised: bool, amount: u64) -> Result<(), NoMemory> {
        let old = self.value(value);
        let new = if is_raised {
            old.saturating_add(amount)
        } else {
            old.saturating_sub(amount)
        };
        self.set(value, new)
    }

    // Takes all changes back.
    fn undo(&mut self) {
        for _ in 0..self.changed.len() {
            let Some(Changed { value, old }) = self.changed.pop() else {
                break;
            };
            if let Some(new) = self.values.get_mut(value) {
                *new = old;
            }
        }
    }

    fn arcs(&self) -> usize {
        self.network.items().len().saturating_add(self.fences.len())
    }

    // The numbers of what a task draws, of what is left over there, of what goes through it beside, and of what is left of the bound.
    fn drawn(&self, task: u32) -> usize {
        self.arcs()
            .saturating_add((task as usize).saturating_mul(3))
    }

    fn over(&self, task: u32) -> usize {
        self.drawn(task).saturating_add(1)
    }

    fn more(&self, task: u32) -> usize {
        self.drawn(task).saturating_add(2)
    }

    fn bound_left(&self) -> usize {
        self.values.len().saturating_sub(1)
    }

    // Where a way can end on the far side of a task.
    fn at_end(&self, task: u32, way: Way) -> usize {
        match way {
            Way::Back => self.over(task),
            Way::On => self.drawn(task),
        }
    }

    fn is_gone(&self, arc: usize) -> bool {
        match arc.checked_sub(self.network.items().len()) {
            None => false,
            Some(fence) => self.is_gone.get(fence).copied().unwrap_or(true),
        }
    }

    fn set_gone(&mut self, fence: usize, is_gone: bool) {
        if let Some(place) = self.is_gone.get_mut(fence) {
            *place = is_gone;
        }
    }

    // Where an arc comes from, or where it leads.
    fn end_of(&self, arc: usize, way: Way) -> u32 {
        let items = self.network.items();
        let (from, to) = match items.get(arc) {
            Some(item) => (item.from.unwrap_or(0), item.to.unwrap_or(0)),
            None => match self.fences.get(arc.saturating_sub(items.len())) {
                Some(fence) => (fence.from, fence.to),
                None => (0, 0),
            },
        };
        match way {
            Way::Back => from,
            Way::On => to,
        }
    }

    fn begin(&mut self, task: u32) -> Result<(), NoMemory> {
        self.number = self.number.saturating_add(1);
        self.found.clear();
        self.find(Found {
            task,
            is_far: false,
            value: 0,
            is_raised: true,
            to: 0,
        })
    }

    fn find(&mut self, found: Found) -> Result<(), NoMemory> {
        let side = (found.task as usize)
            .saturating_mul(2)
            .saturating_add(if found.is_far { 1 } else { 0 });
        if let Some(number) = self.found_in.get_mut(side)
            && *number != self.number
        {
            *number = self.number;
            self.found.push(found)?;
        }
        Ok(())
    }

    // Finds the other side of the same task.
    fn find_across(&mut self, at: Found, to: usize) -> Result<(), NoMemory> {
        let value = self.more(at.task);
        if at.is_far || self.value(value) > 0 {
            self.find(Found {
                task: at.task,
                is_far: !at.is_far,
                value,
                is_raised: at.is_far,
                to,
            })?;
        }
        Ok(())
    }

    // Finds the other end of an arc: by raising it, if it is not gone, or by lowering it, as far as it hands on something.
    fn find_along(&mut self, at: Found, arc: usize, way: Way, to: usize) -> Result<(), NoMemory> {
        self.steps = self.steps.saturating_sub(1);
        let is_open = if at.is_far {
            self.value(arc) > 0
        } else {
            !self.is_gone(arc)
        };
        if is_open {
            self.find(Found {
                task: self.end_of(arc, if at.is_far { turned(way) } else { way }),
                is_far: !at.is_far,
                value: arc,
                is_raised: !at.is_far,
                to,
            })?;
        }
        Ok(())
    }

    // Finds those next to one side of a task. The way so far leads on at a place.
    fn find_next(&mut self, to: usize, way: Way) -> Result<(), NoMemory> {
        let Some(at) = self.found.get(to).copied() else {
            return Ok(());
        };
        self.find_across(at, to)?;
        let is_into = (way == Way::Back) != at.is_far;
        for place in 0..self.arcs_at(at.task, is_into).len() {
            if self.steps == 0 {
                break;
            }
            let arc = self.arcs_at(at.task, is_into).get(place).copied();
            if let Some(arc) = arc {
                self.find_along(at, arc as usize, way, to)?;
            }
        }
        Ok(())
    }

    fn arcs_at(&self, task: u32, is_into: bool) -> &[u32] {
        if is_into {
            self.into.of(task)
        } else {
            self.out.of(task)
        }
    }

    // The place of the first far side that is found from a task where a way can end, or of that of the task that it should lead to.
    fn search(&mut self, task: u32, aim: u32, way: Way) -> Result<Option<usize>, NoMemory> {
        self.begin(task)?;
        for place in 0..self.found_in.len() {
            let Some(at) = self.found.get(place).copied() else {
                break;
            };
            if at.is_far && (at.task == aim || self.value(self.at_end(at.task, way)) > 0) {
                return Ok(Some(place));
            }
            if self.steps == 0 {
                break;
            }
            self.steps = self.steps.saturating_sub(1);
            self.find_next(place, way)?;
        }
        Ok(None)
    }

    // How much can be led by a way that was found, this amount at most.
    fn room_of(&self, place: usize, most: u64) -> u64 {
        let mut place = place;
        let mut room = most;
        for _ in 0..self.found.len() {
            let Some(found) = self.found.get(place).copied() else {
                break;
            };
            if place == 0 {
                break;
            }
            if !found.is_raised {
                room = room.min(self.value(found.value));
            }
            place = found.to;
        }
        room
    }

    // Leads an amount by a way that was found.
    fn lead(&mut self, place: usize, amount: u64) -> Result<(), NoMemory> {
        let mut place = place;
        for _ in 0..self.found.len() {
            let Some(found) = self.found.get(place).copied() else {
                break;
            };
            if place == 0 {
                break;
            }
            self.steps = self.steps.saturating_sub(1);
            self.change(found.value, found.is_raised, amount)?;
            place = found.to;
        }
        Ok(())
    }

    // Leads as much as can be by one way from a task to another, or the other way round, this amount at most. Where the way ends elsewhere what is
    // left over or drawn is so here instead.
    fn lead_one(&mut self, task: u32, aim: u32, way: Way, most: u64) -> Result<u64, NoMemory> {
        let Some(place) = self.search(task, aim, way)? else {
            return Ok(0);
        };
        let end = self.found.get(place).map_or(aim, |found| found.task);
        let mut amount = self.room_of(place, most);
        if end != aim {
            amount = amount.min(self.value(self.at_end(end, way)));
            self.change(self.at_end(end, way), false, amount)?;
            self.change(self.at_end(aim, way), true, amount)?;
        }
        self.lead(place, amount)?;
        Ok(amount)
    }

    // Leads an amount otherwise than by a fence: how much of it cannot be.
    fn lead_all(&mut self, fence: Fence, amount: u64) -> Result<u64, NoMemory> {
        let mut left = amount;
        for _ in 0..self.steps {
            if left == 0 || self.steps == 0 {
                break;
            }
            let mut led = self.lead_one(fence.to, fence.from, Way::Back, left)?;
            if led == 0 {
                led = self.lead_one(fence.from, fence.to, Way::On, left)?;
            }
            if led == 0 {
                break;
            }
            left = left.saturating_sub(led);
        }
        let drawn = left.min(self.value(self.bound_left()));
        self.change(self.bound_left(), false, drawn)?;
        self.change(self.over(fence.from), true, drawn)?;
        self.change(self.drawn(fence.to), true, drawn)?;
        Ok(left.saturating_sub(drawn))
    }

    // Drops a fence if what it hands on can be led otherwise, with so many steps.
    fn try_drop(&mut self, place: usize, steps: u64) -> Result<(), NoMemory> {
        let Some(fence) = self.fences.get(place).copied() else {
            return Ok(());
        };
        let arc = self.network.items().len().saturating_add(place);
        let amount = self.value(arc);
        self.changed.clear();
        self.steps = steps;
        self.set_gone(place, true);
        self.change(arc, false, amount)?;
        if self.lead_all(fence, amount)? > 0 {
            self.undo();
            self.set_gone(place, false);
        }
        Ok(())
    }

    // Lowers what a task draws, as far as something is left over where it can be led from.
    fn lower(&mut self, task: u32) -> Result<(), NoMemory> {
        self.changed.clear();
        for _ in 0..self.steps {
            let drawn = self.value(self.drawn(task));
            if drawn == 0 || self.steps == 0 {
                break;
            }
            let led = self.lead_one(task, 0, Way::Back, drawn)?;
            if led == 0 {
                break;
            }
            self.change(self.drawn(task), false, led)?;
            self.change(self.over(0), false, led)?;
            self.change(self.bound_left(), true, led)?;
        }
        Ok(())
    }

    fn lower_all(&mut self) -> Result<(), NoMemory> {
        let network = self.network;
        self.steps = steps_for(network) / FIRST_PART;
        for task in network.order {
            self.lower(*task)?;
        }
        Ok(())
    }

    // Drops the fences that are not needed, in this order.
    fn drop_all(&mut self, lengths: &[Length]) -> Result<(), NoMemory> {
        let mut left = steps_for(self.network);
        let mut count = lengths.len() as u64;
        for one in lengths {
            let steps = (left / count.max(1)).saturating_mul(SHARES).min(left);
            self.try_drop(one.fence, steps)?;
            left = left.saturating_sub(steps.saturating_sub(self.steps));
            count = count.saturating_sub(1);
        }
        Ok(())
    }

    // The fences that are left and hand on something, with the amounts.
    fn fencing(&self, alloc: Global) -> Result<Fencing, NoMemory> {
        let mut amounts = Vec::new(alloc);
        for (place, item) in self.network.items().iter().enumerate() {
            amounts.push(item.size.saturating_add(self.value(place)))?;
        }
        let mut fences = Vec::new(alloc);
        for (place, fence) in self.fences.iter().enumerate() {
            let amount = self.value(self.network.items().len().saturating_add(place));
            if amount > 0 {
                fences.push(*fence)?;
                amounts.push(amount)?;
            }
        }
        Ok(Fencing { fences, amounts })
    }
}

// The arcs by where they begin, or by where they lead.
fn arcs_by(
    alloc: Global,
    network: &Network,
    fences: &[Fence],
    way: Way,
) -> Result<Followers, NoMemory> {
    let mut arcs = Vec::new(alloc);
    let mut number: u32 = 0;
    let items = network.items().iter();
    for item in items {
        let to = number;
        if let (Some(tail), Some(head)) = (item.from, item.to) {
            let from = if way == Way::Back { head } else { tail };
            arcs.push(Fence { from, to })?;
        }
        number = number.saturating_add(1);
    }
    for fence in fences {
        let to = number;
        let from = if way == Way::Back {
            fence.to
        } else {
            fence.from
        };
        arcs.push(Fence { from, to })?;
        number = number.saturating_add(1);
    }
    Followers::new(alloc, &arcs, network.len())
}

// What can be lowered at first; none where the amounts do not stay within the bound.
fn values_of(
    alloc: Global,
    network: &Network,
    certificate: &FenceCertificate,
    room: u64,
    bound: u64,
) -> Result<Option<Vec<u64>>, NoMemory> {
    let ends = ends_of(alloc, network, &certificate.fences, &certificate.amounts)?;
    let mut values = Vec::new(alloc);
    for (k, amount) in certificate.amounts.iter().enumerate() {
        let size = network.items().get(k).map_or(0, |item| item.size);
        values.push(amount.saturating_sub(size))?;
    }
    let mut sum = network.stock();
    let mut task: u32 = 0;
    for own in ends.iter() {
        let own = if task == 0 { NO_ENDS } else { *own };
        let Through { drawn, over, more } = through_of(network, own, task, room);
        task = task.saturating_add(1);
        values.push(drawn)?;
        values.push(over)?;
        values.push(more)?;
        sum = sum.saturating_add(drawn);
    }
    let Some(left) = bound.checked_sub(sum) else {
        return Ok(None);
    };
    values.push(left)?;
    Ok(Some(values))
}

// When each ends, if there are workers for all.
fn ends_at(alloc: Global, network: &Network, events: &[Event]) -> Result<Vec<u64>, NoMemory> {
    let mut ends: Vec<u64> = vec![in alloc; 0; network.len()]?;
    for event in events {
        if let Event::End(task, at) = *event
            && let Some(end) = ends.get_mut(task as usize)
        {
            *end = at;
        }
    }
    Ok(ends)
}

// The fences, those on the longest paths first.
fn by_length(alloc: Global, network: &Network, fences: &[Fence]) -> Result<Vec<Length>, NoMemory> {
    let along = Schedule::along(alloc, network.order)?;
    let run = simulate(alloc, network, fences, &along, u32::MAX)?;
    let fenced = Followers::new(alloc, fences, network.len())?;
    let paths = paths_of(alloc, network, &fenced, &run.schedule)?;
    let ends = ends_at(alloc, network, &run.schedule.events)?;
    let mut lengths = Vec::new(alloc);
    for (place, fence) in fences.iter().enumerate() {
        let before = ends.get(fence.from as usize).copied().unwrap_or(0);
        let behind = paths.get(fence.to as usize).copied().unwrap_or(0);
        lengths.push(Length {
            length: Reverse(before.saturating_add(behind)),
            fence: place,
        })?;
    }
    lengths.sort_unstable();
    Ok(lengths)
}

// The room for each worker, and what is left of the bound beside all rooms.
fn room_beside(certificate: &FenceCertificate) -> (u64, u64) {
    match certificate.workers {
        Workers::Any => (0, certificate.bound),
        Workers::AtMost { count, room } => {
            let reserve = room.saturating_mul(count as u64);
            (room, certificate.bound.saturating_sub(reserve))
        }
    }
}

/// Some of the fences of a certificate along an order, and amounts for them, which are to be judged. None where its amounts do not certify it.
pub fn pruned(
    alloc: Global,
    network: &Network,
    certificate: &FenceCertificate,
) -> Result<Option<Fencing>, NoMemory> {
    let fences: &[Fence] = &certificate.fences;
    let (room, bound) = room_beside(certificate);
    let Some(values) = values_of(alloc, network, certificate, room, bound)? else {
        return Ok(None);
    };
    let lengths = by_length(alloc, network, fences)?;
    let mut pruning = Pruning {
        network,
        fences,
        is_gone: vec![in alloc; false; fences.len()]?,
        into: arcs_by(alloc, network, fences, Way::Back)?,
        out: arcs_by(alloc, network, fences, Way::On)?,
        values,
        changed: Vec::new(alloc),
        found_in: vec![in alloc; 0; network.len().saturating_mul(2)]?,
        number: 0,
        found: Vec::new(alloc),
        steps: 0,
    };
    pruning.lower_all()?;
    pruning.drop_all(&lengths)?;
    Ok(Some(pruning.fencing(alloc)?))
}
