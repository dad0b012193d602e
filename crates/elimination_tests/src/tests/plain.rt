//! Elimination by hand on a table of all pairs: plain and slow.

use elimination::NoMemory;
use patterns::Pattern;
use std::alloc::Global;

/// The pairs that are left, and the vertices.
#[derive(Drop)]
pub struct Plain {
    joined: Vec<Vec<bool>>,
    left: Vec<bool>,
}

// Sets a place of a table; there is none beyond its end.
fn set(table: &mut [bool], at: usize, value: bool) {
    if let Some(cell) = table.get_mut(at) {
        *cell = value;
    }
}

fn is_set(table: &[bool], at: usize) -> bool {
    table.get(at) == Some(&true)
}

impl Plain {
    fn new(alloc: Global, pattern: &Pattern) -> Result<Plain, NoMemory> {
        let n = pattern.rows();
        let size = n as usize + 1;
        let mut joined = Vec::new(alloc);
        joined.push(vec![in alloc; false; size]?)?;
        for v in 1..=n {
            let mut row = vec![in alloc; false; size]?;
            for u in pattern.neighbours(v) {
                set(&mut row, *u as usize, true);
            }
            joined.push(row)?;
        }
        let mut left = vec![in alloc; true; size]?;
        set(&mut left, 0, false);
        Ok(Plain { joined, left })
    }

    fn are_joined(&self, a: usize, b: usize) -> bool {
        match self.joined.get(a) {
            Some(row) => is_set(row, b),
            None => false,
        }
    }

    fn set_joined(&mut self, a: usize, b: usize, value: bool) {
        if let Some(row) = self.joined.get_mut(a) {
            set(row, b, value);
        }
    }

    fn degree(&self, v: usize) -> u32 {
        let mut degree = 0u32;
        for u in 0..self.left.len() {
            if self.are_joined(v, u) {
                degree = degree.saturating_add(1);
            }
        }
        degree
    }

    // Of the vertices that are left, the first of least degree.
    fn first(&self) -> Option<usize> {
        let mut best = None;
        let mut least = u32::MAX;
        for v in 1..self.left.len() {
            if is_set(&self.left, v) && self.degree(v) < least {
                best = Some(v);
                least = self.degree(v);
            }
        }
        best
    }

    // Joins a to the neighbours of v.
    fn join_to_neighbours(&mut self, v: usize, a: usize) {
        for b in 1..self.left.len() {
            if b != a && self.are_joined(v, b) {
                self.set_joined(a, b, true);
            }
        }
    }

    fn eliminate(&mut self, v: usize) {
        for a in 1..self.left.len() {
            if self.are_joined(v, a) {
                self.join_to_neighbours(v, a);
            }
        }
        for a in 1..self.left.len() {
            self.set_joined(v, a, false);
            self.set_joined(a, v, false);
        }
        set(&mut self.left, v, false);
    }
}

/// The order by least degree, the plain way.
pub fn plain_order(alloc: Global, pattern: &Pattern) -> Result<Vec<u32>, NoMemory> {
    let mut plain = Plain::new(alloc, pattern)?;
    let mut order = Vec::new(alloc);
    for _ in 0..pattern.rows() {
        let Some(v) = plain.first() else {
            break;
        };
        plain.eliminate(v);
        order.push(u32::try_from(v).unwrap_or(0))?;
    }
    Ok(order)
}
