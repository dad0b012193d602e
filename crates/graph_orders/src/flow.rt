//! The greatest flow through a small network (Dinic 1970), to see which nodes are best on one side of a cut.

use crate::NoMemory;
use crate::effort::Effort;
use crate::rows::Rows;
use crate::tables::{add_amount, amount_at, count_of, number_at, put_number};
use std::alloc::Global;

/// More than any amount, and so little that several of them fit.
pub const MUCH: i64 = 0x0fff_ffff_ffff_ffff;

const UNSEEN: u32 = u32::MAX;

/// A network with rooms on its arcs; each arc is followed by the one back.
#[derive(Drop)]
pub struct Flow {
    nodes: u32,
    tails: Vec<u32>,
    heads: Vec<u32>,
    rooms: Vec<i64>,
    ranks: Vec<u32>,
    nexts: Vec<u32>,
    path: Vec<u32>,
    line: Vec<u32>,
    pub effort: Effort,
}

impl Flow {
    /// So many nodes, and no arcs.
    pub fn new(alloc: Global, nodes: u32, effort: Effort) -> Flow {
        Flow {
            nodes,
            tails: Vec::new(alloc),
            heads: Vec::new(alloc),
            rooms: Vec::new(alloc),
            ranks: Vec::new(alloc),
            nexts: Vec::new(alloc),
            path: Vec::new(alloc),
            line: Vec::new(alloc),
            effort,
        }
    }

    /// Adds an arc with so much room.
    pub fn arc(&mut self, tail: u32, head: u32, room: i64) -> Result<(), NoMemory> {
        self.tails.push(tail)?;
        self.heads.push(head)?;
        self.rooms.push(room)?;
        self.tails.push(head)?;
        self.heads.push(tail)?;
        self.rooms.push(0)?;
        Ok(())
    }

    fn room(&self, arc: u32) -> i64 {
        amount_at(&self.rooms, arc)
    }

    fn rank(&self, node: u32) -> u32 {
        self.ranks.get(node as usize).copied().unwrap_or(UNSEEN)
    }

    // Ranks all nodes by how many arcs with room lead to them from the source, up to the sink.
    fn find_ranks(
        &mut self,
        alloc: Global,
        rows: &Rows,
        source: u32,
        sink: u32,
    ) -> Result<bool, NoMemory> {
        self.ranks = vec![in alloc; UNSEEN; self.nodes as usize]?;
        put_number(&mut self.ranks, source, 0);
        self.line.clear();
        self.line.push(source)?;
        for k in 0..self.nodes {
            if k >= count_of(self.line.len()) || self.rank(sink) != UNSEEN {
                break;
            }
            let node = number_at(&self.line, k);
            let rank = self.rank(node).saturating_add(1);
            let row = rows.row(node);
            self.effort.spend(row.len().saturating_add(1));
            for arc in row {
                let head = number_at(&self.heads, *arc);
                if self.room(*arc) > 0 && self.rank(head) == UNSEEN {
                    put_number(&mut self.ranks, head, rank);
                    self.line.push(head)?;
                }
            }
        }
        Ok(self.rank(sink) != UNSEEN)
    }

    // The next arc with room from a node to the next rank; the place of it is kept.
    fn next_arc(&mut self, rows: &Rows, node: u32) -> Option<u32> {
        let row = rows.row(node);
        let from = number_at(&self.nexts, node);
        let rank = self.rank(node).saturating_add(1);
        for k in from..count_of(row.len()) {
            let arc = number_at(row, k);
            if self.room(arc) > 0 && self.rank(number_at(&self.heads, arc)) == rank {
                put_number(&mut self.nexts, node, k);
                self.effort.spend(k.saturating_sub(from) as usize);
                return Some(arc);
            }
        }
        put_number(&mut self.nexts, node, count_of(row.len()));
        self.effort
            .spend(count_of(row.len()).saturating_sub(from) as usize);
        None
    }

    // Pushes along the path what it takes, and goes back to before the first arc that is full.
    fn push_along(&mut self) {
        let mut amount = MUCH;
        for arc in &self.path {
            amount = amount.min(amount_at(&self.rooms, *arc));
        }
        let mut kept = self.path.len();
        for k in 0..self.path.len() {
            let arc = number_at(&self.path, count_of(k));
            add_amount(&mut self.rooms, arc, 0i64.saturating_sub(amount));
            add_amount(&mut self.rooms, arc ^ 1, amount);
            if self.room(arc) == 0 && kept == self.path.len() {
                kept = k;
            }
        }
        self.effort.spend(self.path.len());
        self.path.truncate(kept);
    }

    // One step of the search for paths from rank to rank. Whether there may be more.
    fn step(&mut self, rows: &Rows, source: u32, sink: u32) -> Result<bool, NoMemory> {
        let node = match self.path.last() {
            Some(arc) => number_at(&self.heads, *arc),
            None => source,
        };
        if node == sink {
            self.push_along();
            return Ok(true);
        }
        if let Some(arc) = self.next_arc(rows, node) {
            self.path.push(arc)?;
            return Ok(true);
        }
        let Some(arc) = self.path.pop() else {
            return Ok(false);
        };
        let tail = number_at(&self.tails, arc);
        let next = number_at(&self.nexts, tail).saturating_add(1);
        put_number(&mut self.nexts, tail, next);
        Ok(true)
    }

    /// Pushes all that can flow from the source to the sink, and tells which nodes can still be reached from the source; none if the
    /// effort did not suffice.
    pub fn cut(
        &mut self,
        alloc: Global,
        source: u32,
        sink: u32,
    ) -> Result<Option<Vec<bool>>, NoMemory> {
        let numbers: Vec<u32> = (0..count_of(self.tails.len())).collect(alloc)?;
        let rows = Rows::new(alloc, &self.tails, &numbers, self.nodes as usize)?;
        self.effort.spend(self.tails.len());
        for _ in 0..self.effort.left() {
            if !self.find_ranks(alloc, &rows, source, sink)? {
                break;
            }
            self.nexts = vec![in alloc; 0; self.nodes as usize]?;
            self.path.clear();
            for _ in 0..self.effort.left() {
                self.effort.spend(1);
                if self.effort.is_spent() || !self.step(&rows, source, sink)? {
                    break;
                }
            }
            if self.effort.is_spent() {
                return Ok(None);
            }
        }
        let sides = self
            .ranks
            .iter()
            .map(|rank| *rank != UNSEEN)
            .collect(alloc)?;
        Ok(Some(sides))
    }
}
