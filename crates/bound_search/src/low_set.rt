//! A closed set with little memory.

use crate::NoMemory;
use crate::tables::{number_at, put_number};
use std::alloc::Global;

/// A set of nodes that is made anew without looking at all nodes.
#[derive(Drop)]
pub struct LowSet {
    marks: Vec<u32>,
    stamp: u32,
}

impl LowSet {
    /// None of so many nodes.
    pub fn new(alloc: Global, nodes: u32) -> Result<LowSet, NoMemory> {
        Ok(LowSet {
            marks: vec![in alloc; 0; nodes as usize]?,
            stamp: 1,
        })
    }

    /// No nodes.
    pub fn clear(&mut self) {
        self.stamp = self.stamp.saturating_add(1);
    }

    /// Takes a node in.
    #[inline]
    pub fn add(&mut self, node: u32) {
        put_number(&mut self.marks, node, self.stamp);
    }

    /// Takes nodes in.
    pub fn add_all(&mut self, nodes: &[u32]) {
        for node in nodes {
            self.add(*node);
        }
    }

    /// Whether it has a node.
    #[inline]
    pub fn has(&self, node: u32) -> bool {
        number_at(&self.marks, node) == self.stamp
    }
}
