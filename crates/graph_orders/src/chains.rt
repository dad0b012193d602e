//! Chains of segments: what stands for several nodes that were joined. A segment runs some nodes in a fixed order, without a pause.
//!
//! The first segments of a chain in normal form each end lower than they began, and need the more the later they come; the others are the
//! mirror image of that. Merging such chains by need is best (Liu 1987; Kayaaslan et al. 2018).

use crate::NoMemory;
use crate::links::NONE;
use crate::tables::{count_of, number_at, put_number};
use std::alloc::Global;

/// Nodes in a fixed order, from the head to the tail: what they need and add together.
#[derive(Clone, Copy, Debug, PartialEq, Eq, Drop)]
pub struct Segment {
    pub need: i64,
    pub change: i64,
    pub head: u32,
    pub tail: u32,
}

/// No node.
pub const NOTHING: Segment = Segment {
    need: 0,
    change: 0,
    head: NONE,
    tail: NONE,
};

// A segment of several, by what it needs.
#[derive(Clone, Copy, Debug, PartialEq, Eq, PartialOrd, Ord, Drop)]
struct Keyed {
    key: i64,
    place: u32,
}

/// Which node follows each in its segment, and lists to work with.
#[derive(Drop)]
pub struct Chains {
    nexts: Vec<u32>,
    stack: Vec<Segment>,
    first: Vec<Segment>,
    // The segments of the chains that are merged.
    left: Vec<Segment>,
    right: Vec<Segment>,
    keyed: Vec<Keyed>,
}

// The segment at a place.
fn segment_at(chain: &[Segment], place: u32) -> Segment {
    chain.get(place as usize).copied().unwrap_or(NOTHING)
}

// The same segment from its end back.
fn turned(segment: Segment) -> Segment {
    Segment {
        need: segment.need.saturating_sub(segment.change),
        change: 0i64.saturating_sub(segment.change),
        ..segment
    }
}

// How many segments there are before the memory is least for the first time.
fn lowest(chain: &[Segment]) -> usize {
    let mut memory: i64 = 0;
    let mut least: i64 = 0;
    let mut at = 0;
    for (place, segment) in chain.iter().enumerate() {
        memory = memory.saturating_add(segment.change);
        if memory < least {
            least = memory;
            at = place.saturating_add(1);
        }
    }
    at
}

/// Whether a chain never ends higher than at any time before, so that all its segments are among the first.
pub fn never_rises(chain: &[Segment]) -> bool {
    lowest(chain) == chain.len() && chain.len() > 0
}

/// Whether a chain is never lower than at its start.
pub fn never_falls(chain: &[Segment]) -> bool {
    lowest(chain) == 0 && chain.len() > 0
}

/// What a chain needs and adds, if it runs without a pause.
pub fn total_of(chain: &[Segment]) -> (i64, i64) {
    let mut need: i64 = 0;
    let mut change: i64 = 0;
    for segment in chain {
        need = need.max(change.saturating_add(segment.need));
        change = change.saturating_add(segment.change);
    }
    (need, change)
}

impl Chains {
    /// Each node is its own segment.
    pub fn new(alloc: Global, nodes: u32) -> Result<Chains, NoMemory> {
        Ok(Chains {
            nexts: vec![in alloc; NONE; nodes as usize]?,
            stack: Vec::new(alloc),
            first: Vec::new(alloc),
            left: Vec::new(alloc),
            right: Vec::new(alloc),
            keyed: Vec::new(alloc),
        })
    }

    // The node after one in its segment.
    fn next(&self, node: u32) -> u32 {
        number_at(&self.nexts, node)
    }

    /// The nodes of a segment, at the end of a list.
    pub fn list(&self, segment: Segment, list: &mut Vec<u32>) -> Result<(), NoMemory> {
        let mut node = segment.head;
        for _ in 0..self.nexts.len() {
            list.push(node)?;
            if node == segment.tail {
                break;
            }
            node = self.next(node);
        }
        Ok(())
    }

    /// One segment of two, of which the second follows right after the first.
    pub fn join(&mut self, first: Segment, second: Segment) -> Segment {
        if first.head == NONE {
            return second;
        }
        if second.head == NONE {
            return first;
        }
        put_number(&mut self.nexts, first.tail, second.head);
        Segment {
            need: first.need.max(first.change.saturating_add(second.need)),
            change: first.change.saturating_add(second.change),
            head: first.head,
            tail: second.tail,
        }
    }

    /// One segment of all.
    pub fn join_all(&mut self, chain: &[Segment]) -> Segment {
        let mut joined = NOTHING;
        for segment in chain {
            joined = self.join(joined, *segment);
        }
        joined
    }

    // Puts a segment on the stack and joins what need not be apart. In a turned chain the later segment comes first.
    fn put(&mut self, segment: Segment, is_turned: bool) -> Result<(), NoMemory> {
        let mut top = segment;
        for _ in 0..self.stack.len() {
            let Some(below) = self.stack.pop() else {
                break;
            };
            let (a, b) = if is_turned {
                (turned(below), turned(top))
            } else {
                (below, top)
            };
            let is_joined = a.change > 0
                || (b.change <= 0 && a.need >= a.change.saturating_add(b.need));
            if !is_joined {
                self.stack.push(below)?;
                break;
            }
            top = if is_turned {
                self.join(top, below)
            } else {
                self.join(below, top)
            };
        }
        self.stack.push(top)?;
        Ok(())
    }

    /// Makes a chain normal.
    pub fn make_normal(&mut self, chain: &mut Vec<Segment>) -> Result<(), NoMemory> {
        if chain.len() < 2 {
            return Ok(());
        }
        let at = count_of(lowest(chain));
        let count = count_of(chain.len());
        self.stack.clear();
        for place in 0..at {
            self.put(segment_at(chain, place), false)?;
        }
        self.first.clear();
        for place in 0..count_of(self.stack.len()) {
            self.first.push(segment_at(&self.stack, place))?;
        }
        self.stack.clear();
        for place in 0..count.saturating_sub(at) {
            let from_end = count.saturating_sub(1).saturating_sub(place);
            self.put(segment_at(chain, from_end), true)?;
        }
        chain.clear();
        for segment in &self.first {
            chain.push(*segment)?;
        }
        for segment in self.stack.iter().rev() {
            chain.push(*segment)?;
        }
        Ok(())
    }

    /// Begins a merge.
    pub fn begin_merge(&mut self) {
        self.left.clear();
        self.right.clear();
    }

    /// A chain that is merged with others.
    pub fn merge(&mut self, chain: &[Segment]) -> Result<(), NoMemory> {
        let at = lowest(chain);
        for (place, segment) in chain.iter().enumerate() {
            if place < at {
                self.left.push(*segment)?;
            } else {
                self.right.push(*segment)?;
            }
        }
        Ok(())
    }

    // The places of the left segments by what they need.
    fn sort_left(&mut self) -> Result<(), NoMemory> {
        self.keyed.clear();
        for (place, segment) in self.left.iter().enumerate() {
            self.keyed.push(Keyed {
                key: segment.need,
                place: count_of(place),
            })?;
        }
        self.keyed.sort_unstable();
        Ok(())
    }

    // The places of the right ones by what they need from their end back.
    fn sort_right(&mut self) -> Result<(), NoMemory> {
        self.keyed.clear();
        for (place, segment) in self.right.iter().enumerate() {
            self.keyed.push(Keyed {
                key: segment.need.saturating_sub(segment.change),
                place: count_of(place),
            })?;
        }
        self.keyed.sort_unstable();
        Ok(())
    }

    /// The chain that runs all that are merged best.
    pub fn end_merge(&mut self, chain: &mut Vec<Segment>) -> Result<(), NoMemory> {
        chain.clear();
        self.sort_left()?;
        for keyed in &self.keyed {
            chain.push(segment_at(&self.left, keyed.place))?;
        }
        self.sort_right()?;
        for keyed in self.keyed.iter().rev() {
            chain.push(segment_at(&self.right, keyed.place))?;
        }
        self.make_normal(chain)
    }
}
