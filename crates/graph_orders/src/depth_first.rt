//! Depth first orders: each node after all that it waits for, which are visited in the order of a list.

use crate::NoMemory;
use crate::network::Network;
use crate::rows::Rows;
use crate::tables::{amount_at, count_of, is_marked, mark, put_amount};
use std::alloc::Global;

// A node whose suppliers are listed first, and which of them comes next.
#[derive(Clone, Copy, Drop)]
struct Visit {
    node: u32,
    next: usize,
}

// An order that is being made.
#[derive(Drop)]
struct Listing {
    order: Vec<u32>,
    seen: Vec<bool>,
    path: Vec<Visit>,
}

impl Listing {
    fn enter(&mut self, node: u32) -> Result<(), NoMemory> {
        if !is_marked(&self.seen, node) {
            mark(&mut self.seen, node);
            self.path.push(Visit { node, next: 0 })?;
        }
        Ok(())
    }

    // One step along the path.
    fn step(&mut self, suppliers: &Rows, visit: Visit) -> Result<(), NoMemory> {
        match suppliers.row(visit.node).get(visit.next) {
            None => {
                self.order.push(visit.node)?;
                Ok(())
            }
            Some(supplier) => {
                self.path.push(Visit {
                    node: visit.node,
                    next: visit.next.saturating_add(1),
                })?;
                self.enter(*supplier)
            }
        }
    }

    // All that a node waits for, and the node.
    fn visit(&mut self, suppliers: &Rows, node: u32, most: usize) -> Result<(), NoMemory> {
        self.enter(node)?;
        for _ in 0..most {
            let Some(visit) = self.path.pop() else {
                break;
            };
            self.step(suppliers, visit)?;
        }
        Ok(())
    }
}

/// Where depth first visits begin.
#[derive(Clone, Copy, Debug, PartialEq, Eq)]
pub enum Roots {
    /// At tasks after which no other task comes right away; collectors are visited on the way only.
    Tasks,
    /// At all nodes after which nothing comes.
    All,
}

// Whether visits begin at a node.
fn is_root(network: &Network, roots: Roots, node: u32) -> bool {
    match roots {
        Roots::All => network.after(node).is_empty(),
        Roots::Tasks => {
            !network.is_collector(node)
                && network
                    .after(node)
                    .iter()
                    .all(|later| network.is_collector(*later))
        }
    }
}

/// The roots in the order of a list that has each node once, each root with all that it waits for, in the order of the list too. Linear.
pub fn depth_first(
    alloc: Global,
    network: &Network,
    listing: &[u32],
    roots: Roots,
) -> Result<Vec<u32>, NoMemory> {
    let suppliers = network.before_in_order(alloc, listing)?;
    let mut made = Listing {
        order: Vec::with_capacity(alloc, listing.len())?,
        seen: vec![in alloc; false; network.nodes() as usize]?,
        path: Vec::new(alloc),
    };
    for node in listing {
        if is_root(network, roots, *node) {
            made.visit(&suppliers, *node, network.size().saturating_mul(2))?;
        }
    }
    Ok(made.order)
}

// What running a node with all that it waits for leaves beyond its peak, its peak and what it leaves.
#[derive(Clone, Copy, Debug, PartialEq, Eq, PartialOrd, Ord, Drop)]
struct Estimate {
    rank: i64,
    peak: i64,
    left: i64,
}

// Nodes by rank.
#[derive(Clone, Copy, Debug, PartialEq, Eq, PartialOrd, Ord, Drop)]
struct Ranked {
    rank: i64,
    node: u32,
}

/// How what several nodes read is shared out.
#[derive(Clone, Copy, Debug, PartialEq, Eq)]
pub enum Sharing {
    /// Each is charged with all of it.
    Whole,
    /// Each is charged with its part.
    Parts,
}

// What running a node with all that it waits for needs and leaves, as if its suppliers were its alone.
fn estimated(
    network: &Network,
    sharing: Sharing,
    peaks: &[i64],
    lefts: &[i64],
    node: u32,
    suppliers: &mut Vec<Estimate>,
) -> Result<(i64, i64), NoMemory> {
    suppliers.clear();
    for supplier in network.before(node) {
        let peak = amount_at(peaks, *supplier);
        let whole = amount_at(lefts, *supplier);
        let left = match sharing {
            Sharing::Whole => whole,
            Sharing::Parts => whole / (count_of(network.after(*supplier).len()).max(1) as i64),
        };
        let rank = left.saturating_sub(peak);
        suppliers.push(Estimate { rank, peak, left })?;
    }
    suppliers.sort_unstable();
    let mut memory: i64 = 0;
    let mut peak: i64 = 0;
    for supplier in suppliers.iter() {
        peak = peak.max(memory.saturating_add(supplier.peak));
        memory = memory.saturating_add(supplier.left.max(0));
    }
    peak = peak.max(memory.saturating_add(network.need(node)));
    Ok((peak, memory.saturating_add(network.change(node))))
}

/// All nodes, those first that need much beyond what they leave, as estimated along an order of all nodes. Nearly linear.
pub fn by_estimates(
    alloc: Global,
    network: &Network,
    order: &[u32],
    sharing: Sharing,
) -> Result<Vec<u32>, NoMemory> {
    let mut peaks = vec![in alloc; 0; network.nodes() as usize]?;
    let mut lefts = vec![in alloc; 0; network.nodes() as usize]?;
    let mut ranked = Vec::with_capacity(alloc, order.len())?;
    let mut suppliers = Vec::new(alloc);
    for node in order {
        let (peak, left) = estimated(network, sharing, &peaks, &lefts, *node, &mut suppliers)?;
        put_amount(&mut peaks, *node, peak);
        put_amount(&mut lefts, *node, left);
        let rank = left.saturating_sub(peak);
        ranked.push(Ranked { rank, node: *node })?;
    }
    ranked.sort_unstable();
    ranked.iter().map(|ranked| ranked.node).collect(alloc)
}
