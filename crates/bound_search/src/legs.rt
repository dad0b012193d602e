//! What paths begin with and are made of, and where they go on.

use crate::flows::Flows;
use crate::tables::{amount_at, count_of};

/// No arc.
pub const NONE: u32 = u32::MAX;

/// The rank of a node into which nothing may be pushed.
pub const SHUT: i64 = i64::MAX;

/// Where something is to be pushed from: a node, the arc by which it comes there or flowed on from there, if it does by one, and the
/// node at the other end of that; how much is left, and how much was pushed.
#[derive(Clone, Copy, Drop)]
pub struct Source {
    pub node: u32,
    pub arc: u32,
    pub other: u32,
    pub left: i64,
    pub pushed: i64,
}

/// A node on a path: how much gets there at most, and by which arc, perhaps against it.
#[derive(Clone, Copy, Drop)]
pub struct Leg {
    pub node: u32,
    pub most: i64,
    pub arc: u32,
    pub is_back: bool,
}

/// The place, from one on, of the first node of a row that has this rank.
pub fn next_down(ranks: &[i64], row: &[u32], rank: i64, from: usize) -> usize {
    for k in from..row.len() {
        if amount_at(ranks, row[k]) == rank {
            return k;
        }
    }
    row.len()
}

/// The same of nodes whose arcs, from the first one on, have flow.
pub fn next_up(
    ranks: &[i64],
    flows: &Flows,
    row: &[u32],
    first: u32,
    rank: i64,
    from: usize,
) -> usize {
    for k in from..row.len() {
        if flows.flow(first.saturating_add(count_of(k))) > 0 && amount_at(ranks, row[k]) == rank {
            return k;
        }
    }
    row.len()
}
