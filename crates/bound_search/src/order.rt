//! An order of a network's nodes.

use crate::NoMemory;
use crate::network::Network;
use crate::side::peak_of;
use crate::tables::{count_of, is_marked, mark, number_at, put_number};
use std::alloc::Global;

// A node whose suppliers are listed first, and which of its arcs comes next.
#[derive(Clone, Copy, Drop)]
struct Visit {
    node: u32,
    next: usize,
}

// An order that is being made.
#[derive(Drop)]
struct Listing {
    listed: Vec<u32>,
    seen: Vec<bool>,
    // How many readers of each collector are not listed yet.
    missing: Vec<u32>,
    path: Vec<Visit>,
}

// How many nodes come right before each.
fn missing_of(alloc: Global, network: &Network) -> Result<Vec<u32>, NoMemory> {
    let mut missing = vec![in alloc; 0; network.nodes() as usize]?;
    for node in 0..network.nodes() {
        let before = count_of(network.earlier(node).len());
        put_number(&mut missing, node, before);
    }
    Ok(missing)
}

impl Listing {
    fn new(alloc: Global, network: &Network) -> Result<Listing, NoMemory> {
        let nodes = network.nodes() as usize;
        let mut seen = vec![in alloc; false; nodes]?;
        mark(&mut seen, network.root());
        mark(&mut seen, network.far());
        Ok(Listing {
            listed: Vec::with_capacity(alloc, nodes)?,
            seen,
            missing: missing_of(alloc, network)?,
            path: Vec::new(alloc),
        })
    }

    // Lists a task, and the collectors that wait for nothing else.
    fn list(&mut self, network: &Network, node: u32) -> Result<(), NoMemory> {
        self.listed.push(node)?;
        for after in network.later(node) {
            if network.is_collector(*after) {
                let missing = number_at(&self.missing, *after).saturating_sub(1);
                put_number(&mut self.missing, *after, missing);
                if missing == 0 {
                    self.listed.push(*after)?;
                }
            }
        }
        Ok(())
    }

    fn enter(&mut self, node: u32) -> Result<(), NoMemory> {
        if !is_marked(&self.seen, node) {
            mark(&mut self.seen, node);
            self.path.push(Visit { node, next: 0 })?;
        }
        Ok(())
    }

    // One step along the path.
    fn step(&mut self, network: &Network, visit: Visit) -> Result<(), NoMemory> {
        match network.earlier(visit.node).get(visit.next) {
            None => self.list(network, visit.node),
            Some(before) => {
                self.path.push(Visit {
                    node: visit.node,
                    next: visit.next.saturating_add(1),
                })?;
                self.enter(*before)
            }
        }
    }
}

// All tasks, each after its suppliers, by their numbers as far as these allow, and each collector right after the last of its readers.
// Linear.
fn order_of(alloc: Global, network: &Network) -> Result<Vec<u32>, NoMemory> {
    let mut listing = Listing::new(alloc, network)?;
    let most = network.nodes().saturating_add(network.arcs());
    for task in 1..=network.tasks() {
        listing.enter(task)?;
        for _ in 0..most {
            let Some(visit) = listing.path.pop() else {
                break;
            };
            listing.step(network, visit)?;
        }
    }
    Ok(listing.listed)
}

// An order that is made of what is ready: what waits for nothing, and how many nodes before each other one are not listed.
#[derive(Drop)]
struct Waiting {
    listed: Vec<u32>,
    missing: Vec<u32>,
    ready: Vec<u32>,
}

impl Waiting {
    fn new(alloc: Global, network: &Network) -> Result<Waiting, NoMemory> {
        let nodes = network.nodes() as usize;
        let mut waiting = Waiting {
            listed: Vec::with_capacity(alloc, nodes)?,
            missing: missing_of(alloc, network)?,
            ready: Vec::new(alloc),
        };
        for task in 1..=network.tasks() {
            if number_at(&waiting.missing, task) == 0 {
                waiting.ready.push(task)?;
            }
        }
        waiting.release(network, network.root())?;
        waiting.ready.sort_unstable();
        Ok(waiting)
    }

    // Those after a node wait for one less. Collectors are listed at once.
    fn release(&mut self, network: &Network, node: u32) -> Result<(), NoMemory> {
        for after in network.later(node) {
            let missing = number_at(&self.missing, *after).saturating_sub(1);
            put_number(&mut self.missing, *after, missing);
            if missing == 0 && network.is_collector(*after) {
                self.listed.push(*after)?;
            } else if missing == 0 && network.is_task(*after) {
                self.ready.push(*after)?;
            }
        }
        Ok(())
    }

    fn list(&mut self, network: &Network, node: u32) -> Result<(), NoMemory> {
        self.listed.push(node)?;
        self.release(network, node)
    }
}

// All tasks, of those that are ready the one first that became so last. Linear.
fn last_ready_first(alloc: Global, network: &Network) -> Result<Vec<u32>, NoMemory> {
    let mut waiting = Waiting::new(alloc, network)?;
    waiting.ready.reverse();
    for _ in 0..network.tasks() {
        let Some(task) = waiting.ready.pop() else {
            break;
        };
        waiting.list(network, task)?;
    }
    Ok(waiting.listed)
}

// All tasks, of those that are ready the one first that became so first. Linear.
fn first_ready_first(alloc: Global, network: &Network) -> Result<Vec<u32>, NoMemory> {
    let mut waiting = Waiting::new(alloc, network)?;
    for k in 0..network.tasks() {
        let Some(task) = waiting.ready.get(k as usize).copied() else {
            break;
        };
        waiting.list(network, task)?;
    }
    Ok(waiting.listed)
}

// That of two orders with the lower peak.
fn lower_of(network: &Network, one: Vec<u32>, other: Vec<u32>) -> Vec<u32> {
    if peak_of(network, &other) < peak_of(network, &one) {
        other
    } else {
        one
    }
}

/// The best of three orders. Linear.
pub fn best_order(alloc: Global, network: &Network) -> Result<Vec<u32>, NoMemory> {
    let best = order_of(alloc, network)?;
    let best = lower_of(network, best, last_ready_first(alloc, network)?);
    Ok(lower_of(network, best, first_ready_first(alloc, network)?))
}

/// An order from the last to the first.
pub fn backwards(alloc: Global, order: &[u32]) -> Result<Vec<u32>, NoMemory> {
    order.iter().rev().copied().collect(alloc)
}
