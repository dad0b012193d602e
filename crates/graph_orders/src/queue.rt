//! Nodes with keys, the one with the least key first.

use crate::NoMemory;
use min_tree::MinTree;
use std::alloc::Global;

// More than what a key is below 0, and no number that stands for a key is so great that it overflows.
const SHIFT: i64 = 0x4000_0000_0000_0000;

// At most so many numbers stand in a tree.
const MOST: usize = 0x8000_0000;

/// Nodes in a queue. Each change takes time logarithmic in the number of all nodes.
#[derive(Drop)]
pub struct Queue {
    tree: MinTree,
}

// The number that stands for a key.
#[inline]
fn number_of(key: i64) -> u64 {
    u64::try_from(key.saturating_add(SHIFT)).unwrap_or(0)
}

impl Queue {
    /// None of so many nodes is in the queue.
    pub fn new(alloc: Global, nodes: u32) -> Result<Queue, NoMemory> {
        let count = (nodes as usize).max(1).min(MOST);
        let tree = MinTree::new(alloc, count)?;
        Ok(Queue { tree })
    }

    /// Puts a node in, or changes its key.
    pub fn put(&mut self, node: u32, key: i64) {
        if (node as usize) < self.tree.len() {
            self.tree.put(node as usize, number_of(key));
        }
    }

    /// Takes a node out.
    pub fn take_out(&mut self, node: u32) {
        if (node as usize) < self.tree.len() {
            self.tree.put(node as usize, u64::MAX);
        }
    }

    /// The first node of those with the least key; none if the queue is empty.
    pub fn first(&self) -> Option<u32> {
        if self.tree.len() == 0 || self.tree.least() == u64::MAX {
            return None;
        }
        u32::try_from(self.tree.first_least()).ok()
    }

    /// Takes that node out.
    pub fn pop(&mut self) -> Option<u32> {
        let node = self.first()?;
        self.take_out(node);
        Some(node)
    }
}
