//! A network with an order of its nodes.

use crate::NoMemory;
use crate::network::Network;
use crate::tables::{amount_at, count_of, number_at, put_amount, put_number};
use std::alloc::Global;

/// A network, and an order in which its nodes can run.
#[derive(Drop)]
pub struct Side {
    /// The network.
    pub network: Network,
    /// All nodes but the first and the last.
    pub order: Vec<u32>,
    // The place of each node in the order.
    places: Vec<u32>,
}

// The place of each of so many nodes in an order.
fn places_of(alloc: Global, nodes: u32, order: &[u32]) -> Result<Vec<u32>, NoMemory> {
    let mut places = vec![in alloc; 0; nodes as usize]?;
    for (place, node) in order.iter().enumerate() {
        put_number(&mut places, *node, count_of(place));
    }
    Ok(places)
}

impl Side {
    /// A network with an order of its nodes.
    pub fn new(alloc: Global, network: Network, order: Vec<u32>) -> Result<Side, NoMemory> {
        let places = places_of(alloc, network.nodes(), &order)?;
        Ok(Side {
            network,
            order,
            places,
        })
    }

    /// The place of a node in the order.
    #[inline]
    pub fn place(&self, node: u32) -> u32 {
        number_at(&self.places, node)
    }

    /// About how many steps it takes to look at all of it once.
    pub fn size(&self) -> u64 {
        u64::from(self.network.nodes()).saturating_add(u64::from(self.network.arcs()))
    }
}

/// What each node needs as it runs, in an order.
pub fn starts_of(alloc: Global, network: &Network, order: &[u32]) -> Result<Vec<i64>, NoMemory> {
    let mut starts = vec![in alloc; 0; network.nodes() as usize]?;
    let mut memory = network.change(network.root());
    for node in order {
        put_amount(
            &mut starts,
            *node,
            memory.saturating_add(network.need(*node)),
        );
        memory = memory.saturating_add(network.change(*node));
    }
    Ok(starts)
}

/// The most memory at any time, in an order.
pub fn peak_of(network: &Network, order: &[u32]) -> i64 {
    let mut memory = network.change(network.root());
    let mut peak = memory;
    for node in order {
        peak = peak.max(memory.saturating_add(network.need(*node)));
        memory = memory.saturating_add(network.change(*node));
    }
    peak
}

/// A node of the order that needs so much as it runs; 0 if there is none.
pub fn node_at_peak(order: &[u32], starts: &[i64], peak: i64) -> u32 {
    for node in order {
        if amount_at(starts, *node) == peak {
            return *node;
        }
    }
    0
}
