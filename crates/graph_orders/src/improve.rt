//! An order is improved where its peak is: parts of it around that place are put anew, larger and larger ones.

use crate::NoMemory;
use crate::course::Course;
use crate::crossing::{MOST_NODES, crossed};
use crate::cut::{Part, lowered};
use crate::effort::Effort;
use crate::network::Network;
use std::alloc::Global;

// The greatest need of these nodes, which run one after the other from a level on.
fn highest(network: &Network, level: i64, nodes: &[u32]) -> i64 {
    let mut memory = level;
    let mut peak = level;
    for node in nodes {
        peak = peak.max(memory.saturating_add(network.need(*node)));
        memory = memory.saturating_add(network.change(*node));
    }
    peak
}

// The part of an order around a place, so wide, and moved by so many halves of that; none if the place is not in it.
fn part_around(course: &Course, place: u32, radius: u32, shift: u32) -> Option<Part> {
    let half = radius / 2;
    let (less, more) = match shift {
        0 => (radius.saturating_add(half), radius.saturating_sub(half)),
        1 => (radius, radius),
        _ => (radius.saturating_sub(half), radius.saturating_add(half)),
    };
    let from = place.saturating_sub(less);
    let to = place
        .saturating_add(more)
        .saturating_add(1)
        .min(course.len());
    if from <= place && place < to {
        Some(Part { from, to, place })
    } else {
        None
    }
}

// Tries to put one part anew so that all of it stays below a peak. Whether it did.
fn improve_part(
    alloc: Global,
    network: &Network,
    course: &mut Course,
    part: Part,
    peak: i64,
    most: u32,
    effort: &mut Effort,
) -> Result<bool, NoMemory> {
    if let Some(nodes) = lowered(alloc, network, course, part, effort)?
        && highest(network, course.level(part.from), &nodes) < peak
    {
        course.put(network, part.from, &nodes);
        return Ok(true);
    }
    if part.len() > MOST_NODES {
        return Ok(false);
    }
    let bound = peak.saturating_sub(1);
    if let Some(nodes) = crossed(alloc, network, course, part, bound, most, effort)?
        && nodes.len() == part.len() as usize
    {
        course.put(network, part.from, &nodes);
        return Ok(true);
    }
    Ok(false)
}

// Lowers the order at a place where so much is needed. Whether it could.
fn improve_at(
    alloc: Global,
    network: &Network,
    course: &mut Course,
    place: u32,
    peak: i64,
    most: u32,
    effort: &mut Effort,
) -> Result<bool, NoMemory> {
    let mut radius: u32 = 4;
    for _ in 0..32 {
        for shift in 0..3 {
            if effort.is_spent() {
                return Ok(false);
            }
            if let Some(part) = part_around(course, place, radius, shift)
                && improve_part(alloc, network, course, part, peak, most, effort)?
            {
                return Ok(true);
            }
        }
        if radius > course.len() {
            break;
        }
        radius = radius.saturating_mul(2);
    }
    Ok(false)
}

/// How an order is improved: how many states of a part are looked at, and at how many places, the highest first, nothing may be found.
#[derive(Clone, Copy, Drop)]
pub struct Depth {
    pub states: u32,
    pub misses: u32,
}

/// Improves an order until it is good enough, nothing more is found, or the effort is spent.
pub fn improved(
    alloc: Global,
    network: &Network,
    order: &[u32],
    enough: i64,
    depth: Depth,
    effort: &mut Effort,
) -> Result<Vec<u32>, NoMemory> {
    effort.spend(network.size());
    let mut course = Course::new(alloc, network, order)?;
    let mut misses: u32 = 0;
    for _ in 0..effort.left() {
        let Some((place, peak)) = course.peak(network) else {
            break;
        };
        if peak <= enough {
            break;
        }
        if improve_at(
            alloc,
            network,
            &mut course,
            place,
            peak,
            depth.states,
            effort,
        )? {
            continue;
        }
        misses = misses.saturating_add(1);
        if misses >= depth.misses || effort.is_spent() {
            break;
        }
        course.settle(place);
    }
    Vec::from_slice(alloc, course.order())
}
