//! What is known of the memory at which tasks can start: each closed set that a flow shows tells it of all tasks right after it.

use crate::NoMemory;
use crate::kept_flow::{KeptFlow, MUCH};
use crate::low_set::LowSet;
use crate::network::Network;
use crate::tables::{amount_at, count_of, is_marked, number_at, put_amount};
use std::alloc::Global;

/// A memory at which each task can start, and a closed set with little memory.
#[derive(Drop)]
pub struct Known {
    memory: Vec<i64>,
    low: LowSet,
}

impl Known {
    /// Nothing is known of so many nodes.
    pub fn new(alloc: Global, nodes: u32) -> Result<Known, NoMemory> {
        Ok(Known {
            memory: vec![in alloc; MUCH; nodes as usize]?,
            low: LowSet::new(alloc, nodes)?,
        })
    }

    /// The same is known, and no set.
    pub fn copy(&self, alloc: Global) -> Result<Known, NoMemory> {
        Ok(Known {
            memory: Vec::from_slice(alloc, &self.memory)?,
            low: LowSet::new(alloc, count_of(self.memory.len()))?,
        })
    }

    /// A memory at which a task can start.
    #[inline]
    pub fn memory(&self, task: u32) -> i64 {
        amount_at(&self.memory, task)
    }

    /// A task can start at this memory.
    pub fn know(&mut self, task: u32, memory: i64) {
        if memory < self.memory(task) {
            put_amount(&mut self.memory, task, memory);
        }
    }

    /// The low set is the least closed set that the flow shows with these nodes, beside the dead ones.
    pub fn find_low(&mut self, network: &Network, kept: &mut KeptFlow, closed: &[u32]) {
        self.low.clear();
        self.low.add(network.root());
        self.low.add_all(closed);
        self.low.add_all(kept.seen());
        let nodes = closed.len().saturating_add(kept.seen().len());
        kept.spend(nodes);
    }

    /// A task is low too.
    pub fn lower(&mut self, task: u32) {
        self.low.add(task);
    }

    // Whether all nodes right before one are low.
    fn is_over_low(&self, network: &Network, kept: &KeptFlow, node: u32) -> bool {
        for before in network.earlier(node) {
            if !self.low.has(*before) && !is_marked(kept.dead(), *before) {
                return false;
            }
        }
        true
    }

    // A task can start at this memory, if all before it are low.
    fn learn(&mut self, network: &Network, kept: &mut KeptFlow, task: u32, memory: i64) {
        if kept.is_inside(task) || self.memory(task) <= memory {
            return;
        }
        kept.spend(network.earlier(task).len());
        if self.is_over_low(network, kept, task) {
            self.know(task, memory);
        }
    }

    /// So can those right after a node.
    pub fn learn_after(&mut self, network: &Network, kept: &mut KeptFlow, node: u32, memory: i64) {
        kept.spend(network.later(node).len());
        for after in network.later(node) {
            self.learn(network, kept, *after, memory);
        }
    }

    /// So can those of some tasks.
    pub fn learn_all(
        &mut self,
        network: &Network,
        kept: &mut KeptFlow,
        tasks: &[u32],
        memory: i64,
    ) {
        kept.spend(tasks.len());
        for task in tasks {
            self.learn(network, kept, *task, memory);
        }
    }

    /// So can those right after one of these nodes, or after one that the flow shows.
    pub fn learn_near(
        &mut self,
        network: &Network,
        kept: &mut KeptFlow,
        closed: &[u32],
        memory: i64,
    ) {
        for node in closed {
            self.learn_after(network, kept, *node, memory);
        }
        for k in 0..kept.seen().len() {
            let node = number_at(kept.seen(), count_of(k));
            self.learn_after(network, kept, node, memory);
        }
    }
}
