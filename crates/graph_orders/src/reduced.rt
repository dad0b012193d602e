//! The network that a reduction leaves: its nodes are segments, each of which stands for several nodes of the first network.

use crate::NoMemory;
use crate::chains::{Chains, Segment};
use crate::effort::Effort;
use crate::links::NONE;
use crate::network::{Network, Parts};
use crate::reduction::Reduction;
use crate::rows::Rows;
use crate::tables::{amount_at, count_of, number_at, put_number};
use std::alloc::Global;

/// A network of segments, and which nodes each of them runs, in order.
#[derive(Drop)]
pub struct Reduced {
    pub network: Network,
    pub members: Rows,
}

// A segment by the least place of its tasks.
#[derive(Clone, Copy, Debug, PartialEq, Eq, PartialOrd, Ord, Drop)]
struct Ranked {
    rank: u32,
    segment: u32,
}

// What is found of the segments of a reduction, in the order of its nodes.
#[derive(Drop)]
struct Draft {
    ranked: Vec<Ranked>,
    // The first and the last segment of each node.
    firsts: Vec<u32>,
    lasts: Vec<u32>,
    needs: Vec<i64>,
    changes: Vec<i64>,
    // Which segment each member belongs to, and the members.
    owners: Vec<u32>,
    members: Vec<u32>,
    // Arcs between segments.
    earlier: Vec<u32>,
    later: Vec<u32>,
}

impl Draft {
    fn new(alloc: Global, nodes: usize) -> Result<Draft, NoMemory> {
        Ok(Draft {
            ranked: Vec::with_capacity(alloc, nodes)?,
            firsts: vec![in alloc; NONE; nodes]?,
            lasts: vec![in alloc; NONE; nodes]?,
            needs: Vec::with_capacity(alloc, nodes)?,
            changes: Vec::with_capacity(alloc, nodes)?,
            owners: Vec::with_capacity(alloc, nodes)?,
            members: Vec::with_capacity(alloc, nodes)?,
            earlier: Vec::new(alloc),
            later: Vec::new(alloc),
        })
    }

    // The members of a segment, and the least of their places.
    fn push_members(
        &mut self,
        network: &Network,
        chains: &Chains,
        places: &[u32],
        segment: Segment,
    ) -> Result<(), NoMemory> {
        let number = count_of(self.ranked.len());
        let from = self.members.len();
        chains.list(segment, &mut self.members)?;
        let mut rank = NONE;
        for place in from..self.members.len() {
            let node = number_at(&self.members, count_of(place));
            self.owners.push(number)?;
            if !network.is_collector(node) {
                rank = rank.min(number_at(places, node));
            }
        }
        self.ranked.push(Ranked {
            rank,
            segment: number,
        })?;
        Ok(())
    }

    // The segments of a node.
    fn push_node(
        &mut self,
        network: &Network,
        reduction: &Reduction,
        places: &[u32],
        node: u32,
    ) -> Result<(), NoMemory> {
        put_number(&mut self.firsts, node, count_of(self.ranked.len()));
        let mut is_first = true;
        for segment in reduction.chain(node) {
            let number = count_of(self.ranked.len());
            if !is_first {
                self.earlier.push(number.saturating_sub(1))?;
                self.later.push(number)?;
            }
            is_first = false;
            self.needs.push(segment.need)?;
            self.changes.push(segment.change)?;
            self.push_members(network, &reduction.chains, places, *segment)?;
        }
        put_number(
            &mut self.lasts,
            node,
            count_of(self.ranked.len()).saturating_sub(1),
        );
        Ok(())
    }

    // The arcs out of a node.
    fn push_arcs(&mut self, reduction: &Reduction, node: u32) -> Result<(), NoMemory> {
        let mut arc = reduction.links.first_out(node);
        for _ in 0..reduction.links.outs(node) {
            let later = reduction.links.later(arc);
            self.earlier.push(number_at(&self.lasts, node))?;
            self.later.push(number_at(&self.firsts, later))?;
            arc = reduction.links.next_out(arc);
        }
        Ok(())
    }

    // The new number of each segment: by the least places of their tasks, those without tasks last.
    fn numbers(&mut self, alloc: Global) -> Result<Vec<u32>, NoMemory> {
        self.ranked.sort_unstable();
        let mut numbers = vec![in alloc; 0; self.ranked.len()]?;
        for (number, ranked) in self.ranked.iter().enumerate() {
            put_number(&mut numbers, ranked.segment, count_of(number));
        }
        Ok(numbers)
    }

    // A list of segments by their new numbers.
    fn renumbered(alloc: Global, numbers: &[u32], list: &[u32]) -> Result<Vec<u32>, NoMemory> {
        let mut renumbered = Vec::with_capacity(alloc, list.len())?;
        for segment in list {
            renumbered.push(number_at(numbers, *segment))?;
        }
        Ok(renumbered)
    }

    // How many segments have tasks.
    fn tasks(&self) -> u32 {
        let mut count: u32 = 0;
        for ranked in &self.ranked {
            if ranked.rank != NONE {
                count = count.saturating_add(1);
            }
        }
        count
    }

    fn amounts(&self, alloc: Global, list: &[i64]) -> Result<Vec<i64>, NoMemory> {
        let mut amounts = Vec::with_capacity(alloc, list.len())?;
        for ranked in &self.ranked {
            amounts.push(amount_at(list, ranked.segment))?;
        }
        Ok(amounts)
    }

    fn finish(mut self, alloc: Global, start: i64) -> Result<Reduced, NoMemory> {
        let numbers = self.numbers(alloc)?;
        let nodes = count_of(self.ranked.len());
        let owners = Draft::renumbered(alloc, &numbers, &self.owners)?;
        let members = Rows::new(alloc, &owners, &self.members, nodes as usize)?;
        let network = Network::of_parts(
            alloc,
            Parts {
                tasks: self.tasks(),
                start,
                needs: self.amounts(alloc, &self.needs)?,
                changes: self.amounts(alloc, &self.changes)?,
                earlier: Draft::renumbered(alloc, &numbers, &self.earlier)?,
                later: Draft::renumbered(alloc, &numbers, &self.later)?,
            },
        )?;
        Ok(Reduced { network, members })
    }
}

// The place of each node in an order.
fn places_of(alloc: Global, nodes: u32, order: &[u32]) -> Result<Vec<u32>, NoMemory> {
    let mut places = vec![in alloc; 0; nodes as usize]?;
    for (place, node) in order.iter().enumerate() {
        put_number(&mut places, *node, count_of(place));
    }
    Ok(places)
}

/// What is left of a network, if it is reduced with an effort; and what was spent. Segments are numbered by the first of their tasks in an
/// order.
pub fn shrunk(
    alloc: Global,
    network: &Network,
    order: &[u32],
    effort: Effort,
) -> Result<(Reduced, Effort), NoMemory> {
    let places = places_of(alloc, network.nodes(), order)?;
    let mut reduction = Reduction::new(alloc, network, effort)?;
    reduction.run(alloc)?;
    let mut draft = Draft::new(alloc, network.nodes() as usize)?;
    for node in 0..network.nodes() {
        if !reduction.is_gone(node) {
            draft.push_node(network, &reduction, &places, node)?;
        }
    }
    for node in 0..network.nodes() {
        draft.push_arcs(&reduction, node)?;
    }
    let left = draft.finish(alloc, network.start())?;
    Ok((left, reduction.effort()))
}

/// The nodes of the first network, in the order in which these segments run them.
pub fn expanded(alloc: Global, members: &Rows, order: &[u32]) -> Result<Vec<u32>, NoMemory> {
    let mut expanded = Vec::with_capacity(alloc, members.total())?;
    for segment in order {
        for node in members.row(*segment) {
            expanded.push(*node)?;
        }
    }
    Ok(expanded)
}
