//! Orders that run next, of all nodes that wait for nothing, the one that a rule says.

use crate::NoMemory;
use crate::network::Network;
use crate::queue::Queue;
use crate::tables::{number_at, put_number};
use crate::walk::missing_of;
use std::alloc::Global;

/// Which of the ready nodes runs next.
#[derive(Clone, Copy, Debug, PartialEq, Eq)]
pub enum Rule {
    /// The one with the least number.
    Number,
    /// The one that adds the least.
    Change,
    /// The one that has been ready longest: breadth first.
    Oldest,
    /// The one that has been ready shortest.
    Newest,
}

// Nodes that are ready, and how many came to be so.
#[derive(Drop)]
struct Ready {
    rule: Rule,
    queue: Queue,
    count: i64,
}

impl Ready {
    fn reach(&mut self, network: &Network, node: u32) {
        self.count = self.count.saturating_add(1);
        let key = match self.rule {
            Rule::Number => node as i64,
            Rule::Change => network.change(node),
            Rule::Oldest => self.count,
            Rule::Newest => 0i64.saturating_sub(self.count),
        };
        // a collector frees something and needs nothing
        let least = network.is_collector(node) && network.change(node) <= 0;
        self.queue.put(node, if least { i64::MIN } else { key });
    }
}

/// All nodes, by a rule. As many steps as there are nodes and arcs, each logarithmic.
pub fn ready_order(alloc: Global, network: &Network, rule: Rule) -> Result<Vec<u32>, NoMemory> {
    let mut missing = missing_of(alloc, network)?;
    let mut ready = Ready {
        rule,
        queue: Queue::new(alloc, network.nodes())?,
        count: 0,
    };
    for node in 0..network.nodes() {
        if number_at(&missing, node) == 0 {
            ready.reach(network, node);
        }
    }
    let mut order = Vec::with_capacity(alloc, network.nodes() as usize)?;
    for _ in 0..network.nodes() {
        let Some(node) = ready.queue.pop() else {
            break;
        };
        order.push(node)?;
        for later in network.after(node) {
            let left = number_at(&missing, *later).saturating_sub(1);
            put_number(&mut missing, *later, left);
            if left == 0 {
                ready.reach(network, *later);
            }
        }
    }
    Ok(order)
}
