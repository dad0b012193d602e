//! The greatest flow through a network, as far as so many steps go. It is a search that promises nothing. E. A. Dinic, 1970: the arcs on shortest
//! ways are used up, then those on the next longer ways, and so on.

use crate::NoMemory;
use std::alloc::Global;

const NO_ARC: usize = usize::MAX;

const FAR: u32 = u32::MAX;

/// Nodes from 0 on, and arcs with what they can still take. The arcs 2k and 2k + 1 are one another turned round.
#[derive(Drop)]
pub struct FlowNetwork {
    heads: Vec<usize>,
    left: Vec<u64>,
    // The last arc out of each node, and behind each arc the one before it out of the same node.
    last: Vec<usize>,
    before: Vec<usize>,
    // How far each node is from the source, and the next of its arcs to be tried.
    levels: Vec<u32>,
    next: Vec<usize>,
    queue: Vec<usize>,
    // The arcs from the source to where the search is.
    path: Vec<usize>,
    steps: u64,
    sent: u64,
}

fn turned(arc: usize) -> usize {
    if arc % 2 == 0 {
        arc.saturating_add(1)
    } else {
        arc.saturating_sub(1)
    }
}

impl FlowNetwork {
    /// So many nodes, and no arcs; so many steps may be made.
    pub fn new(alloc: Global, nodes: usize, steps: u64) -> Result<FlowNetwork, NoMemory> {
        Ok(FlowNetwork {
            heads: Vec::new(alloc),
            left: Vec::new(alloc),
            last: vec![in alloc; NO_ARC; nodes]?,
            before: Vec::new(alloc),
            levels: vec![in alloc; FAR; nodes]?,
            next: vec![in alloc; NO_ARC; nodes]?,
            queue: Vec::new(alloc),
            path: Vec::new(alloc),
            steps,
            sent: 0,
        })
    }

    /// How many steps are left.
    pub fn steps(&self) -> u64 {
        self.steps
    }

    /// How much has been sent.
    pub fn sent(&self) -> u64 {
        self.sent
    }

    /// What an arc can still take.
    pub fn left(&self, arc: usize) -> u64 {
        self.left.get(arc).copied().unwrap_or(0)
    }

    fn head(&self, arc: usize) -> usize {
        self.heads.get(arc).copied().unwrap_or(0)
    }

    fn level(&self, node: usize) -> u32 {
        self.levels.get(node).copied().unwrap_or(FAR)
    }

    fn arc_before(&self, arc: usize) -> usize {
        self.before.get(arc).copied().unwrap_or(NO_ARC)
    }

    fn add(&mut self, from: usize, to: usize, left: u64) -> Result<(), NoMemory> {
        let arc = self.heads.len();
        let before = self.last.get(from).copied().unwrap_or(NO_ARC);
        self.heads.push(to)?;
        self.left.push(left)?;
        self.before.push(before)?;
        if let Some(last) = self.last.get_mut(from) {
            *last = arc;
        }
        Ok(())
    }

    /// An arc, with what it can take, and what it can take turned round.
    pub fn add_arc(
        &mut self,
        from: usize,
        to: usize,
        forward: u64,
        back: u64,
    ) -> Result<(), NoMemory> {
        self.add(from, to, forward)?;
        self.add(to, from, back)
    }

    fn count_step(&mut self) {
        self.steps = self.steps.saturating_sub(1);
    }

    fn reach(&mut self, node: usize, level: u32) -> Result<(), NoMemory> {
        if let Some(old) = self.levels.get_mut(node) {
            *old = level;
        }
        self.queue.push(node)?;
        Ok(())
    }

    // Reaches the nodes one arc further.
    fn spread(&mut self, node: usize) -> Result<(), NoMemory> {
        let level = self.level(node).saturating_add(1);
        let mut arc = self.last.get(node).copied().unwrap_or(NO_ARC);
        if let Some(next) = self.next.get_mut(node) {
            *next = arc;
        }
        for _ in 0..self.heads.len() {
            if arc == NO_ARC {
                break;
            }
            self.count_step();
            let head = self.head(arc);
            if self.left(arc) > 0 && self.level(head) == FAR {
                self.reach(head, level)?;
            }
            arc = self.arc_before(arc);
        }
        Ok(())
    }

    // How far each node is from the source. Whether the sink can be reached.
    fn find_levels(&mut self, source: usize, sink: usize) -> Result<bool, NoMemory> {
        self.levels.fill(FAR);
        self.steps = self.steps.saturating_sub(self.levels.len() as u64 / 8);
        self.queue.clear();
        self.reach(source, 0)?;
        for k in 0..self.levels.len() {
            let Some(node) = self.queue.get(k).copied() else {
                break;
            };
            self.spread(node)?;
        }
        Ok(self.level(sink) != FAR)
    }

    // The next arc from a node by which the search can go on.
    fn way_on(&mut self, node: usize) -> Option<usize> {
        let level = self.level(node).saturating_add(1);
        let mut arc = self.next.get(node).copied().unwrap_or(NO_ARC);
        for _ in 0..self.heads.len() {
            if arc == NO_ARC {
                break;
            }
            self.count_step();
            if self.left(arc) > 0 && self.level(self.head(arc)) == level {
                break;
            }
            arc = self.arc_before(arc);
        }
        if let Some(next) = self.next.get_mut(node) {
            *next = arc;
        }
        (arc != NO_ARC).then_some(arc)
    }

    // What all arcs of the path can take.
    fn room_of_path(&self) -> u64 {
        let mut room = u64::MAX;
        for arc in &self.path {
            room = room.min(self.left(*arc));
        }
        room
    }

    // Uses the path up. The place in it of the first arc that can take no more.
    fn use_path(&mut self) -> usize {
        let room = self.room_of_path();
        self.sent = self.sent.saturating_add(room);
        let mut first = self.path.len();
        for place in (0..self.path.len()).rev() {
            self.count_step();
            let arc = self.path.get(place).copied().unwrap_or(NO_ARC);
            if let Some(left) = self.left.get_mut(arc) {
                *left = left.saturating_sub(room);
                if *left == 0 {
                    first = place;
                }
            }
            if let Some(left) = self.left.get_mut(turned(arc)) {
                *left = left.saturating_add(room);
            }
        }
        first
    }

    // Goes back along the path to before the arc at a place, and tells the node there.
    fn go_back(&mut self, place: usize, source: usize) -> usize {
        let node = match self.path.get(place) {
            Some(arc) => self.head(turned(*arc)),
            None => source,
        };
        self.path.truncate(place);
        node
    }

    // Leaves a node from which no way goes on.
    fn leave(&mut self, node: usize, source: usize) -> usize {
        if let Some(level) = self.levels.get_mut(node) {
            *level = FAR;
        }
        let place = self.path.len().saturating_sub(1);
        self.go_back(place, source)
    }

    // Uses up all shortest ways.
    fn use_levels(&mut self, source: usize, sink: usize) -> Result<(), NoMemory> {
        self.path.clear();
        let mut node = source;
        for _ in 0..self.steps {
            if self.steps == 0 {
                break;
            }
            if node == sink {
                let place = self.use_path();
                node = self.go_back(place, source);
            } else if let Some(arc) = self.way_on(node) {
                self.path.push(arc)?;
                node = self.head(arc);
            } else if node == source {
                break;
            } else {
                node = self.leave(node, source);
            }
        }
        Ok(())
    }

    /// Sends as much as can be from the source to the sink, as far as the steps go.
    pub fn send(&mut self, source: usize, sink: usize) -> Result<(), NoMemory> {
        for _ in 0..self.steps {
            if self.steps == 0 || !self.find_levels(source, sink)? {
                break;
            }
            self.use_levels(source, sink)?;
        }
        Ok(())
    }
}
