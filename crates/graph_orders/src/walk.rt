//! Orders of a network's nodes, step by step.

use crate::NoMemory;
use crate::network::Network;
use crate::tables::{count_of, number_at, put_number};
use std::alloc::Global;

/// The greatest memory over all states and running nodes of an order.
pub fn peak_along(network: &Network, order: &[u32]) -> i64 {
    let mut memory = network.start();
    let mut peak = memory;
    for node in order {
        peak = peak.max(memory.saturating_add(network.need(*node)));
        memory = memory.saturating_add(network.change(*node));
        peak = peak.max(memory);
    }
    peak
}

/// How many nodes come right before each.
pub fn missing_of(alloc: Global, network: &Network) -> Result<Vec<u32>, NoMemory> {
    let mut missing = Vec::with_capacity(alloc, network.nodes() as usize)?;
    for node in 0..network.nodes() {
        missing.push(count_of(network.before(node).len()))?;
    }
    Ok(missing)
}

// An order in which collectors stand as early as they can.
#[derive(Drop)]
struct Weaving {
    woven: Vec<u32>,
    missing: Vec<u32>,
    work: Vec<u32>,
}

impl Weaving {
    // Lists a node, and then all collectors that wait for nothing else.
    fn list(&mut self, network: &Network, node: u32) -> Result<(), NoMemory> {
        self.work.push(node)?;
        for _ in 0..network.nodes() {
            let Some(next) = self.work.pop() else {
                break;
            };
            self.woven.push(next)?;
            for later in network.after(next) {
                let left = number_at(&self.missing, *later).saturating_sub(1);
                put_number(&mut self.missing, *later, left);
                if left == 0 && network.is_collector(*later) {
                    self.work.push(*later)?;
                }
            }
        }
        Ok(())
    }
}

/// The tasks of an order as they stand there, and each collector as soon as all that it waits for has run. Linear.
pub fn with_collectors(
    alloc: Global,
    network: &Network,
    order: &[u32],
) -> Result<Vec<u32>, NoMemory> {
    let mut weaving = Weaving {
        woven: Vec::with_capacity(alloc, network.nodes() as usize)?,
        missing: missing_of(alloc, network)?,
        work: Vec::new(alloc),
    };
    for node in order {
        if !network.is_collector(*node) {
            weaving.list(network, *node)?;
        }
    }
    Ok(weaving.woven)
}

/// The same order from the last to the first.
pub fn backwards(alloc: Global, order: &[u32]) -> Result<Vec<u32>, NoMemory> {
    order.iter().rev().copied().collect(alloc)
}
