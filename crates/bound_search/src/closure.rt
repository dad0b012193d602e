//! All nodes that come before a node.

use crate::NoMemory;
use crate::network::Network;
use crate::tables::{count_of, is_marked, number_at, put_number};
use std::alloc::Global;

/// The nodes that come before one, but for the root, which comes before all.
#[derive(Drop)]
pub struct Closure {
    marks: Vec<u32>,
    stamp: u32,
    members: Vec<u32>,
}

impl Closure {
    /// No nodes yet, and room for so many.
    pub fn new(alloc: Global, nodes: u32) -> Result<Closure, NoMemory> {
        Ok(Closure {
            marks: vec![in alloc; 0; nodes as usize]?,
            stamp: 1,
            members: Vec::new(alloc),
        })
    }

    /// The nodes.
    pub fn members(&self) -> &[u32] {
        &self.members
    }

    /// No nodes but the root.
    pub fn clear(&mut self, network: &Network) {
        self.members.clear();
        self.stamp = self.stamp.saturating_add(1);
        put_number(&mut self.marks, network.root(), self.stamp);
    }

    /// Whether a node is one of them, or the root.
    #[inline]
    pub fn has(&self, node: u32) -> bool {
        number_at(&self.marks, node) == self.stamp
    }

    // Takes in the nodes right before one that are not left out.
    fn take_in(&mut self, network: &Network, left_out: &[bool], node: u32) -> Result<(), NoMemory> {
        for before in network.earlier(node) {
            if !self.has(*before) && !is_marked(left_out, *before) {
                put_number(&mut self.marks, *before, self.stamp);
                self.members.push(*before)?;
            }
        }
        Ok(())
    }

    /// Makes them those before this node, but for some that are left out, and what comes before these alone. How many steps it took.
    pub fn set(
        &mut self,
        network: &Network,
        left_out: &[bool],
        node: u32,
    ) -> Result<usize, NoMemory> {
        self.clear(network);
        self.take_in(network, left_out, node)?;
        let mut steps = network.earlier(node).len();
        for k in 0..network.nodes() {
            if k >= count_of(self.members.len()) {
                break;
            }
            let member = number_at(&self.members, k);
            steps = steps.saturating_add(network.earlier(member).len());
            self.take_in(network, left_out, member)?;
        }
        Ok(steps)
    }
}
