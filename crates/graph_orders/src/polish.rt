//! An order is changed without a higher peak: what frees something runs as soon as it can within what was needed before.

use crate::NoMemory;
use crate::network::Network;
use crate::queue::Queue;
use crate::tables::{is_marked, mark, number_at, put_number};
use crate::walk::missing_of;
use std::alloc::Global;

// An order that is being made.
#[derive(Drop)]
struct Polishing {
    order: Vec<u32>,
    done: Vec<bool>,
    missing: Vec<u32>,
    // Ready nodes that free something, by what they need.
    freeing: Queue,
    memory: i64,
    peak: i64,
}

impl Polishing {
    fn reach(&mut self, network: &Network, node: u32) {
        if network.change(node) <= 0 {
            self.freeing.put(node, network.need(node));
        }
    }

    fn run(&mut self, network: &Network, node: u32) -> Result<(), NoMemory> {
        mark(&mut self.done, node);
        self.freeing.take_out(node);
        self.order.push(node)?;
        self.peak = self
            .peak
            .max(self.memory.saturating_add(network.need(node)));
        self.memory = self.memory.saturating_add(network.change(node));
        for later in network.after(node) {
            let left = number_at(&self.missing, *later).saturating_sub(1);
            put_number(&mut self.missing, *later, left);
            if left == 0 {
                self.reach(network, *later);
            }
        }
        Ok(())
    }

    // Runs what frees something and raises the peak no more.
    fn run_freeing(&mut self, network: &Network) -> Result<(), NoMemory> {
        for _ in 0..network.nodes() {
            let Some(node) = self.freeing.first() else {
                break;
            };
            if self.memory.saturating_add(network.need(node)) > self.peak {
                break;
            }
            self.run(network, node)?;
        }
        Ok(())
    }
}

/// The same order, but for what frees something: that runs as early as it can without a new peak.
pub fn polished(alloc: Global, network: &Network, order: &[u32]) -> Result<Vec<u32>, NoMemory> {
    let mut polishing = Polishing {
        order: Vec::with_capacity(alloc, order.len())?,
        done: vec![in alloc; false; network.nodes() as usize]?,
        missing: missing_of(alloc, network)?,
        freeing: Queue::new(alloc, network.nodes())?,
        memory: network.start(),
        peak: network.start(),
    };
    for node in 0..network.nodes() {
        if number_at(&polishing.missing, node) == 0 {
            polishing.reach(network, node);
        }
    }
    for node in order {
        if is_marked(&polishing.done, *node) {
            continue;
        }
        polishing.run_freeing(network)?;
        if !is_marked(&polishing.done, *node) {
            polishing.run(network, *node)?;
        }
    }
    Ok(polishing.order)
}
