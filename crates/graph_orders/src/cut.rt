//! A part of an order is put anew so that one of its nodes starts with the least memory that it can start with, and what stands before it and
//! after it keeps its order.

use crate::NoMemory;
use crate::course::Course;
use crate::effort::Effort;
use crate::flow::{Flow, MUCH};
use crate::network::Network;
use crate::tables::{count_of, number_at, put_number};
use std::alloc::Global;

// Where a node of the part stands.
const FREE: u32 = 0;

const FIRST: u32 = 1;

const LATER: u32 = 2;

/// A part of an order, from one place to another, in which the node at a place is to start low.
#[derive(Clone, Copy, Drop)]
pub struct Part {
    pub from: u32,
    pub to: u32,
    pub place: u32,
}

impl Part {
    /// The place of a node in the part; none if it stands elsewhere.
    #[inline]
    pub fn within(&self, course: &Course, node: u32) -> Option<u32> {
        let place = course.place(node);
        if self.from <= place && place < self.to {
            Some(place - self.from)
        } else {
            None
        }
    }

    /// How many nodes it has.
    pub fn len(&self) -> u32 {
        self.to.saturating_sub(self.from)
    }
}

// Marks what must come before the node, or after it, with all between.
fn mark_side(
    network: &Network,
    course: &Course,
    part: Part,
    sides: &mut [u32],
    side: u32,
    work: &mut Vec<u32>,
    effort: &mut Effort,
) -> Result<(), NoMemory> {
    work.clear();
    work.push(course.node(part.place))?;
    for _ in 0..part.len() {
        let Some(node) = work.pop() else {
            break;
        };
        let row = if side == FIRST {
            network.before(node)
        } else {
            network.after(node)
        };
        effort.spend(row.len().saturating_add(1));
        for other in row {
            if let Some(k) = part.within(course, *other)
                && number_at(sides, k) == FREE
            {
                put_number(sides, k, side);
                work.push(*other)?;
            }
        }
    }
    Ok(())
}

// The flow that shows which of the free nodes are better first.
fn flow_of(
    alloc: Global,
    network: &Network,
    course: &Course,
    part: Part,
    sides: &[u32],
    effort: Effort,
) -> Result<Flow, NoMemory> {
    let source = part.len();
    let sink = source.saturating_add(1);
    let mut flow = Flow::new(alloc, sink.saturating_add(1), effort);
    for k in 0..part.len() {
        if number_at(sides, k) != FREE {
            continue;
        }
        let node = course.node(part.from.saturating_add(k));
        let change = network.change(node);
        if change < 0 {
            flow.arc(source, k, 0i64.saturating_sub(change))?;
        } else if change > 0 {
            flow.arc(k, sink, change)?;
        }
        flow.effort
            .spend(network.before(node).len().saturating_add(1));
        for earlier in network.before(node) {
            if let Some(other) = part.within(course, *earlier)
                && number_at(sides, other) == FREE
            {
                flow.arc(k, other, MUCH)?;
            }
        }
    }
    Ok(flow)
}

/// The nodes of a part in the order in which its node starts lowest; none if the effort did not suffice.
pub fn lowered(
    alloc: Global,
    network: &Network,
    course: &Course,
    part: Part,
    effort: &mut Effort,
) -> Result<Option<Vec<u32>>, NoMemory> {
    let mut sides = vec![in alloc; FREE; part.len() as usize]?;
    let mut work = Vec::new(alloc);
    let middle = part.place.saturating_sub(part.from);
    put_number(&mut sides, middle, LATER);
    mark_side(network, course, part, &mut sides, FIRST, &mut work, effort)?;
    mark_side(network, course, part, &mut sides, LATER, &mut work, effort)?;
    let mut flow = flow_of(alloc, network, course, part, &sides, *effort)?;
    let cut = flow.cut(alloc, part.len(), part.len().saturating_add(1))?;
    *effort = flow.effort;
    let Some(is_first) = cut else {
        return Ok(None);
    };
    let mut first = Vec::with_capacity(alloc, part.len() as usize)?;
    let mut later = Vec::with_capacity(alloc, part.len() as usize)?;
    for k in 0..part.len() {
        let node = course.node(part.from.saturating_add(k));
        let side = number_at(&sides, k);
        if k == middle {
            continue;
        }
        if side == FIRST || (side == FREE && crate::tables::is_marked(&is_first, k)) {
            first.push(node)?;
        } else {
            later.push(node)?;
        }
    }
    first.push(course.node(part.place))?;
    for node in &later {
        first.push(*node)?;
    }
    effort.spend(count_of(first.len()) as usize);
    Ok(Some(first))
}
