//! Arcs that others imply are dropped: they carry no information, and rules see more without them.

use crate::NoMemory;
use crate::effort::Effort;
use crate::links::{Links, NONE};
use crate::tables::{count_of, number_at, put_number};
use std::alloc::Global;

// After so many steps from one node its other arcs stay.
const MOST_STEPS: u32 = 20_000;

// A node after another one, by its place in an order.
#[derive(Clone, Copy, Debug, PartialEq, Eq, PartialOrd, Ord, Drop)]
struct Later {
    place: u32,
    node: u32,
    arc: u32,
}

/// What is looked at for one node after the other.
#[derive(Drop)]
struct Dropping {
    places: Vec<u32>,
    marks: Vec<u32>,
    laters: Vec<Later>,
    work: Vec<u32>,
    steps: u32,
}

impl Dropping {
    // The arcs out of a node, by the places of the nodes that they lead to. The last of these places.
    fn list(&mut self, links: &Links, node: u32) -> Result<u32, NoMemory> {
        self.laters.clear();
        let mut arc = links.first_out(node);
        for _ in 0..links.outs(node) {
            let later = links.later(arc);
            self.laters.push(Later {
                place: number_at(&self.places, later),
                node: later,
                arc,
            })?;
            arc = links.next_out(arc);
        }
        self.laters.sort_unstable();
        Ok(self.laters.last().map_or(0, |later| later.place))
    }

    // Marks all that comes after a node, up to a place.
    fn spread(&mut self, links: &Links, from: u32, stamp: u32, last: u32) -> Result<(), NoMemory> {
        self.work.clear();
        self.work.push(from)?;
        for _ in 0..MOST_STEPS {
            let Some(node) = self.work.pop() else {
                break;
            };
            let mut arc = links.first_out(node);
            for _ in 0..links.outs(node) {
                let later = links.later(arc);
                self.steps = self.steps.saturating_add(1);
                if number_at(&self.places, later) <= last
                    && number_at(&self.marks, later) != stamp
                {
                    put_number(&mut self.marks, later, stamp);
                    self.work.push(later)?;
                }
                arc = links.next_out(arc);
            }
            if self.steps >= MOST_STEPS {
                break;
            }
        }
        Ok(())
    }

    // Drops the arcs out of a node to what comes after another node right after it.
    fn drop_implied(&mut self, links: &mut Links, node: u32) -> Result<(), NoMemory> {
        let last = self.list(links, node)?;
        self.steps = 0;
        for k in 0..self.laters.len() {
            let Some(later) = self.laters.get(k).copied() else {
                break;
            };
            if number_at(&self.marks, later.node) == node {
                links.remove(later.arc);
                continue;
            }
            put_number(&mut self.marks, later.node, node);
            if self.steps < MOST_STEPS {
                self.spread(links, later.node, node, last)?;
            }
        }
        Ok(())
    }
}

/// Drops arcs that others imply, along an order of all nodes, as far as that is seen within an effort.
pub fn drop_implied(
    alloc: Global,
    links: &mut Links,
    order: &[u32],
    effort: &mut Effort,
) -> Result<(), NoMemory> {
    let nodes = links.nodes() as usize;
    let mut places = vec![in alloc; 0; nodes]?;
    for (place, node) in order.iter().enumerate() {
        put_number(&mut places, *node, count_of(place));
    }
    let mut dropping = Dropping {
        places,
        marks: vec![in alloc; NONE; nodes]?,
        laters: Vec::new(alloc),
        work: Vec::new(alloc),
        steps: 0,
    };
    for node in order.iter().rev() {
        if links.outs(*node) < 2 {
            continue;
        }
        if effort.is_spent() {
            break;
        }
        dropping.drop_implied(links, *node)?;
        effort.spend((dropping.steps as usize).saturating_add(dropping.laters.len()));
    }
    Ok(())
}
