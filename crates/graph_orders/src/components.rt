//! The parts of a network between which no arcs lead: each is searched by itself, and the orders are merged as is best for them.

use crate::NoMemory;
use crate::chains::{Chains, Segment};
use crate::links::NONE;
use crate::network::{Network, Parts};
use crate::rows::Rows;
use crate::tables::{number_at, put_number};
use std::alloc::Global;

/// Which part each node belongs to, and the nodes of the parts.
#[derive(Drop)]
pub struct Components {
    labels: Vec<u32>,
    // The number of each node in its part.
    numbers: Vec<u32>,
    count: u32,
}

// Gives all nodes that are linked to one the same label.
fn label_from(
    network: &Network,
    labels: &mut [u32],
    work: &mut Vec<u32>,
    first: u32,
    label: u32,
) -> Result<(), NoMemory> {
    put_number(labels, first, label);
    work.push(first)?;
    for _ in 0..network.nodes() {
        let Some(node) = work.pop() else {
            break;
        };
        for row in [network.before(node), network.after(node)] {
            for other in row {
                if number_at(labels, *other) == NONE {
                    put_number(labels, *other, label);
                    work.push(*other)?;
                }
            }
        }
    }
    Ok(())
}

impl Components {
    /// The parts of a network. Linear.
    pub fn new(alloc: Global, network: &Network) -> Result<Components, NoMemory> {
        let nodes = network.nodes();
        let mut labels = vec![in alloc; NONE; nodes as usize]?;
        let mut work = Vec::new(alloc);
        let mut count: u32 = 0;
        for node in 0..nodes {
            if number_at(&labels, node) == NONE {
                label_from(network, &mut labels, &mut work, node, count)?;
                count = count.saturating_add(1);
            }
        }
        let mut sizes = vec![in alloc; 0; count as usize]?;
        let mut numbers = Vec::with_capacity(alloc, nodes as usize)?;
        for node in 0..nodes {
            let label = number_at(&labels, node);
            let number = number_at(&sizes, label);
            numbers.push(number)?;
            put_number(&mut sizes, label, number.saturating_add(1));
        }
        Ok(Components {
            labels,
            numbers,
            count,
        })
    }

    /// How many parts there are.
    pub fn len(&self) -> u32 {
        self.count
    }

    /// The nodes of a list, as a row for each part, in its order.
    pub fn split(&self, alloc: Global, list: &[u32]) -> Result<Rows, NoMemory> {
        let mut labels = Vec::with_capacity(alloc, list.len())?;
        for node in list {
            labels.push(number_at(&self.labels, *node))?;
        }
        Rows::new(alloc, &labels, list, self.count as usize)
    }

    /// The number of a node in its part.
    pub fn number(&self, node: u32) -> u32 {
        number_at(&self.numbers, node)
    }

    /// One part as a network: the nodes of a list, which rise, and all their arcs.
    pub fn network(
        &self,
        alloc: Global,
        network: &Network,
        nodes: &[u32],
    ) -> Result<Network, NoMemory> {
        let mut parts = Parts {
            tasks: 0,
            start: 0,
            needs: Vec::with_capacity(alloc, nodes.len())?,
            changes: Vec::with_capacity(alloc, nodes.len())?,
            earlier: Vec::new(alloc),
            later: Vec::new(alloc),
        };
        for node in nodes {
            if !network.is_collector(*node) {
                parts.tasks = parts.tasks.saturating_add(1);
            }
            parts.needs.push(network.need(*node))?;
            parts.changes.push(network.change(*node))?;
            for later in network.after(*node) {
                parts.earlier.push(self.number(*node))?;
                parts.later.push(self.number(*later))?;
            }
        }
        Network::of_parts(alloc, parts)
    }
}

// The nodes of an order as a chain of segments.
fn chain_of(
    alloc: Global,
    network: &Network,
    chains: &mut Chains,
    order: &[u32],
) -> Result<Vec<Segment>, NoMemory> {
    let mut chain = Vec::with_capacity(alloc, order.len())?;
    for node in order {
        chain.push(Segment {
            need: network.need(*node),
            change: network.change(*node),
            head: *node,
            tail: *node,
        })?;
    }
    chains.make_normal(&mut chain)?;
    Ok(chain)
}

/// An order of all nodes that runs those of each part in the order in which the rows have them, merged as is best for these.
pub fn merged(
    alloc: Global,
    network: &Network,
    orders: &Rows,
    parts: u32,
) -> Result<Vec<u32>, NoMemory> {
    let mut chains = Chains::new(alloc, network.nodes())?;
    chains.begin_merge();
    for part in 0..parts {
        let chain = chain_of(alloc, network, &mut chains, orders.row(part))?;
        chains.merge(&chain)?;
    }
    let mut chain = Vec::new(alloc);
    chains.end_merge(&mut chain)?;
    let mut order = Vec::with_capacity(alloc, network.nodes() as usize)?;
    for segment in &chain {
        chains.list(*segment, &mut order)?;
    }
    Ok(order)
}
