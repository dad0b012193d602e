//! An order that is changed in parts: the memory before each place, and where its peak is.

use crate::NoMemory;
use crate::network::Network;
use crate::queue::Queue;
use crate::tables::{amount_at, count_of, number_at, put_amount, put_number};
use std::alloc::Global;

/// An order of all nodes of a network.
#[derive(Drop)]
pub struct Course {
    order: Vec<u32>,
    places: Vec<u32>,
    // The memory before each place.
    levels: Vec<i64>,
    // Places, the one where most is needed first.
    highest: Queue,
}

impl Course {
    /// This order.
    pub fn new(alloc: Global, network: &Network, order: &[u32]) -> Result<Course, NoMemory> {
        let mut course = Course {
            order: Vec::from_slice(alloc, order)?,
            places: vec![in alloc; 0; network.nodes() as usize]?,
            levels: vec![in alloc; network.start(); order.len()]?,
            highest: Queue::new(alloc, count_of(order.len()))?,
        };
        course.look_again(network, 0, count_of(order.len()));
        Ok(course)
    }

    /// How many nodes there are.
    pub fn len(&self) -> u32 {
        count_of(self.order.len())
    }

    /// The order.
    pub fn order(&self) -> &[u32] {
        &self.order
    }

    /// The node at a place.
    #[inline]
    pub fn node(&self, place: u32) -> u32 {
        number_at(&self.order, place)
    }

    /// The place of a node.
    #[inline]
    pub fn place(&self, node: u32) -> u32 {
        number_at(&self.places, node)
    }

    /// The memory before a place.
    #[inline]
    pub fn level(&self, place: u32) -> i64 {
        amount_at(&self.levels, place)
    }

    /// The first place where most is needed, and how much that is; none if there are no nodes.
    pub fn peak(&self, network: &Network) -> Option<(u32, i64)> {
        let place = self.highest.first()?;
        Some((
            place,
            self.level(place)
                .saturating_add(network.need(self.node(place))),
        ))
    }

    /// Looks at this place no more, unless the part of the order that it is in changes.
    pub fn settle(&mut self, place: u32) {
        self.highest.take_out(place);
    }

    // Counts the memory anew from one place to another, at which it is as it was.
    fn look_again(&mut self, network: &Network, from: u32, to: u32) {
        let mut level = self.level(from);
        for place in from..to {
            let node = self.node(place);
            put_number(&mut self.places, node, place);
            put_amount(&mut self.levels, place, level);
            let needed = level.saturating_add(network.need(node));
            self.highest.put(place, 0i64.saturating_sub(needed));
            level = level.saturating_add(network.change(node));
        }
    }

    /// Puts the same nodes in another order from a place on.
    pub fn put(&mut self, network: &Network, from: u32, nodes: &[u32]) {
        for (k, node) in nodes.iter().enumerate() {
            put_number(&mut self.order, from.saturating_add(count_of(k)), *node);
        }
        self.look_again(network, from, from.saturating_add(count_of(nodes.len())));
    }
}
