//! A part of an order is crossed within a bound: states of its nodes are looked at, the one with the least memory first.

use crate::NoMemory;
use crate::course::Course;
use crate::cut::Part;
use crate::effort::Effort;
use crate::links::NONE;
use crate::network::Network;
use crate::rows::Rows;
use crate::tables::{amount_at, count_of, number_at, put_number};
use std::alloc::Global;
use std::collections::BinaryHeap;

/// At most so many nodes a part may have that is crossed.
pub const MOST_NODES: u32 = 256;

// What a look at a state that follows another costs, beside the nodes that are tried.
const STEPS_EACH: usize = 64;

// How many places the table of states has at first.
const FIRST_SIZE: usize = 1_024;

/// Which nodes of a part have run.
#[derive(Clone, Copy, Debug, PartialEq, Eq)]
struct Nodes {
    words: [u64; 4],
}

const NO_NODES: Nodes = Nodes { words: [0; 4] };

impl Nodes {
    #[inline]
    fn has(&self, node: u32) -> bool {
        self.words[(node / 64 % 4) as usize] & (1u64 << (node % 64)) != 0
    }

    #[inline]
    fn add(&mut self, node: u32) {
        self.words[(node / 64 % 4) as usize] |= 1u64 << (node % 64);
    }

    // Whether it has all of others.
    #[inline]
    fn has_all(&self, others: &Nodes) -> bool {
        others.words[0] & !self.words[0] == 0
            && others.words[1] & !self.words[1] == 0
            && others.words[2] & !self.words[2] == 0
            && others.words[3] & !self.words[3] == 0
    }

    // A number that looks random for each set.
    fn hash(&self) -> u64 {
        let mut hash: u64 = 0x9e37_79b9_7f4a_7c15;
        for word in self.words {
            hash = (hash ^ word).wrapping_mul(0xbf58_476d_1ce4_e5b9);
            hash ^= hash >> 29;
        }
        hash
    }
}

// A state in the queue: those with little memory first, of these those with many nodes.
#[derive(Clone, Copy, Debug, PartialEq, Eq, PartialOrd, Ord, Drop)]
struct Open {
    lowness: i64,
    count: u32,
    earliness: u32,
}

// A state that was reached: what ran, the memory, and where it was reached from, by steps that end at a place.
#[derive(Clone, Copy, Debug, PartialEq, Eq, Drop)]
struct State {
    nodes: Nodes,
    memory: i64,
    from: u32,
    steps_end: u32,
    count: u32,
}

const NO_STATE: State = State {
    nodes: NO_NODES,
    memory: 0,
    from: NONE,
    steps_end: 0,
    count: 0,
};

/// The states of a part.
#[derive(Drop)]
struct Crossing {
    bound: i64,
    count: u32,
    needs: Vec<i64>,
    changes: Vec<i64>,
    before: Vec<Nodes>,
    after: Rows,
    states: Vec<State>,
    steps: Vec<u32>,
    // Numbers of states, by their hashes.
    table: Vec<u32>,
    queue: BinaryHeap<Open>,
    // The last state that was no higher than all before it: the search goes on from there alone.
    base: u32,
    ready: Vec<u32>,
    freeing: Vec<u32>,
    taken: usize,
}

// What each node of a part waits for in it, and what waits for each; in the mirror image the other way round.
fn neighbours_of(
    alloc: Global,
    network: &Network,
    course: &Course,
    part: Part,
    is_mirrored: bool,
) -> Result<(Vec<Nodes>, Rows), NoMemory> {
    let mut before = Vec::with_capacity(alloc, part.len() as usize)?;
    let mut earlier = Vec::new(alloc);
    let mut later = Vec::new(alloc);
    for k in 0..part.len() {
        let node = course.node(part.from.saturating_add(k));
        let row = if is_mirrored {
            network.after(node)
        } else {
            network.before(node)
        };
        let mut waits = NO_NODES;
        for other in row {
            if let Some(other) = part.within(course, *other) {
                waits.add(other);
                earlier.push(other)?;
                later.push(k)?;
            }
        }
        before.push(waits)?;
    }
    let after = Rows::new(alloc, &earlier, &later, part.len() as usize)?;
    Ok((before, after))
}

impl Crossing {
    fn new(
        alloc: Global,
        network: &Network,
        course: &Course,
        part: Part,
        bound: i64,
        is_mirrored: bool,
    ) -> Result<Crossing, NoMemory> {
        let (before, after) = neighbours_of(alloc, network, course, part, is_mirrored)?;
        let mut needs = Vec::with_capacity(alloc, part.len() as usize)?;
        let mut changes = Vec::with_capacity(alloc, part.len() as usize)?;
        for place in part.from..part.to {
            let need = network.need(course.node(place));
            let change = network.change(course.node(place));
            if is_mirrored {
                needs.push(need.saturating_sub(change))?;
                changes.push(0i64.saturating_sub(change))?;
            } else {
                needs.push(need)?;
                changes.push(change)?;
            }
        }
        Ok(Crossing {
            bound,
            count: part.len(),
            needs,
            changes,
            before,
            after,
            states: Vec::new(alloc),
            steps: Vec::new(alloc),
            table: vec![in alloc; NONE; FIRST_SIZE]?,
            queue: BinaryHeap::new(alloc),
            base: 0,
            ready: Vec::new(alloc),
            freeing: Vec::new(alloc),
            taken: 0,
        })
    }

    #[inline]
    fn state(&self, number: u32) -> State {
        self.states
            .get(number as usize)
            .copied()
            .unwrap_or(NO_STATE)
    }

    // Whether all that a node waits for is among these.
    #[inline]
    fn is_ready(&self, nodes: &Nodes, node: u32) -> bool {
        !nodes.has(node)
            && self
                .before
                .get(node as usize)
                .is_some_and(|waits| nodes.has_all(waits))
    }

    fn fits(&self, memory: i64, node: u32) -> bool {
        memory.saturating_add(amount_at(&self.needs, node)) <= self.bound
    }

    // The place of a set in the table: where it stands, or a free one.
    fn place_of(&self, nodes: &Nodes) -> u32 {
        let size = count_of(self.table.len()).max(1);
        let mut place = (nodes.hash() % (size as u64)) as u32;
        for _ in 0..size {
            let number = self.table.get(place as usize).copied().unwrap_or(NONE);
            if number == NONE || self.state(number).nodes == *nodes {
                return place;
            }
            place = place.saturating_add(1) % size;
        }
        place
    }

    // Makes the table twice as large, when it is half full.
    fn grow(&mut self, alloc: Global) -> Result<(), NoMemory> {
        if self.states.len().saturating_mul(2) < self.table.len() {
            return Ok(());
        }
        let size = self.table.len().saturating_mul(2);
        self.taken = self.taken.saturating_add(size);
        self.table = vec![in alloc; NONE; size]?;
        for number in 0..count_of(self.states.len()) {
            let place = self.place_of(&self.state(number).nodes);
            put_number(&mut self.table, place, number);
        }
        Ok(())
    }

    // Adds a state, if it is new. Its steps stand at the end of the list of steps; they go again if it is not. From a state that is no higher
    // than the base all can be reached that can be reached at all: it is the new base.
    fn add(&mut self, state: State) -> Result<bool, NoMemory> {
        let place = self.place_of(&state.nodes);
        if self.table.get(place as usize).copied().unwrap_or(0) != NONE {
            return Ok(false);
        }
        let number = count_of(self.states.len());
        put_number(&mut self.table, place, number);
        self.states.push(state)?;
        if number > 0 && state.memory <= self.state(self.base).memory {
            self.base = number;
            self.queue.clear();
        }
        self.queue.push(Open {
            lowness: 0i64.saturating_sub(state.memory),
            count: state.count,
            earliness: u32::MAX.saturating_sub(number),
        })?;
        Ok(true)
    }

    // The nodes that can run next.
    fn find_ready(&mut self, nodes: &Nodes) -> Result<(), NoMemory> {
        self.ready.clear();
        self.taken = self.taken.saturating_add(self.count as usize);
        for node in 0..self.count {
            if self.is_ready(nodes, node) {
                self.ready.push(node)?;
            }
        }
        Ok(())
    }

    fn run(&mut self, state: &mut State, node: u32) -> Result<(), NoMemory> {
        state.nodes.add(node);
        state.memory = state.memory.saturating_add(amount_at(&self.changes, node));
        state.count = state.count.saturating_add(1);
        self.steps.push(node)?;
        Ok(())
    }

    // What is ready after a node and frees something can run at once.
    fn find_freeing(&mut self, state: &State, node: u32) -> Result<(), NoMemory> {
        self.taken = self.taken.saturating_add(self.after.row(node).len());
        for k in 0..count_of(self.after.row(node).len()) {
            let later = number_at(self.after.row(node), k);
            if amount_at(&self.changes, later) <= 0 && self.is_ready(&state.nodes, later) {
                self.freeing.push(later)?;
            }
        }
        Ok(())
    }

    // Runs all that frees something and fits.
    fn run_freeing(&mut self, state: &mut State) -> Result<(), NoMemory> {
        for _ in 0..self.count {
            self.taken = self.taken.saturating_add(self.freeing.len());
            let mut found = NONE;
            for k in 0..count_of(self.freeing.len()) {
                let node = number_at(&self.freeing, k);
                if !state.nodes.has(node) && self.fits(state.memory, node) {
                    found = node;
                    break;
                }
            }
            if found == NONE {
                break;
            }
            self.run(state, found)?;
            self.find_freeing(state, found)?;
        }
        Ok(())
    }

    // The state after a node runs from one, and all that then frees something and fits.
    fn follow(&mut self, from: u32, node: u32) -> Result<bool, NoMemory> {
        self.taken = self
            .taken
            .saturating_add(self.ready.len())
            .saturating_add(STEPS_EACH);
        let mut state = self.state(from);
        state.from = from;
        let start = self.steps.len();
        self.run(&mut state, node)?;
        self.freeing.clear();
        for k in 0..count_of(self.ready.len()) {
            let other = number_at(&self.ready, k);
            if other != node && amount_at(&self.changes, other) <= 0 {
                self.freeing.push(other)?;
            }
        }
        self.find_freeing(&state, node)?;
        self.run_freeing(&mut state)?;
        state.steps_end = count_of(self.steps.len());
        if !self.add(state)? {
            self.steps.truncate(start);
        }
        Ok(state.count >= self.count)
    }

    // Looks at the state with the least memory. The number of the last state, if all nodes have run.
    fn look(&mut self, number: u32) -> Result<Option<u32>, NoMemory> {
        let state = self.state(number);
        self.find_ready(&state.nodes)?;
        for k in 0..count_of(self.ready.len()) {
            let node = number_at(&self.ready, k);
            if self.fits(state.memory, node) && self.follow(number, node)? {
                return Ok(Some(count_of(self.states.len()).saturating_sub(1)));
            }
        }
        Ok(None)
    }

    // The steps to a state, from the first one on.
    fn steps_to(&self, alloc: Global, last: u32) -> Result<Vec<u32>, NoMemory> {
        let mut steps = Vec::with_capacity(alloc, self.count as usize)?;
        let mut number = last;
        for _ in 0..self.count {
            if number == 0 || number == NONE {
                break;
            }
            let state = self.state(number);
            let before = self.state(number.saturating_sub(1)).steps_end;
            for k in (before..state.steps_end).rev() {
                steps.push(number_at(&self.steps, k))?;
            }
            number = state.from;
        }
        steps.reverse();
        Ok(steps)
    }
}

impl Crossing {
    // Looks at so many states, from one on. The number of a state in which all nodes have run, if it is found.
    fn explore(
        &mut self,
        alloc: Global,
        start: State,
        most: u32,
        effort: &mut Effort,
    ) -> Result<Option<u32>, NoMemory> {
        self.add(start)?;
        if start.count >= self.count {
            return Ok(Some(0));
        }
        for _ in 0..most {
            let Some(open) = self.queue.pop() else {
                break;
            };
            self.taken = 0;
            self.grow(alloc)?;
            let last = self.look(u32::MAX.saturating_sub(open.earliness))?;
            effort.spend(self.taken);
            if last.is_some() {
                return Ok(last);
            }
            if effort.is_spent() || self.states.len() >= (most as usize).saturating_mul(4) {
                break;
            }
        }
        Ok(None)
    }
}

// The memory after a part.
fn level_after(network: &Network, course: &Course, part: Part) -> i64 {
    let last = part.to.saturating_sub(1);
    course
        .level(last)
        .saturating_add(network.change(course.node(last)))
}

// The places of the nodes in a part in an order that stays within a bound; none if none is found among so many states forwards, and from there
// on backwards from the end.
fn steps_across(
    alloc: Global,
    network: &Network,
    course: &Course,
    part: Part,
    bound: i64,
    most: u32,
    effort: &mut Effort,
) -> Result<Option<Vec<u32>>, NoMemory> {
    let mut forwards = Crossing::new(alloc, network, course, part, bound, false)?;
    let start = State {
        memory: course.level(part.from),
        ..NO_STATE
    };
    if let Some(last) = forwards.explore(alloc, start, most, effort)? {
        return Ok(Some(forwards.steps_to(alloc, last)?));
    }
    let base = forwards.state(forwards.base);
    let mut steps = forwards.steps_to(alloc, forwards.base)?;
    let end = State {
        nodes: base.nodes,
        count: base.count,
        memory: level_after(network, course, part),
        ..NO_STATE
    };
    let mut backwards = Crossing::new(alloc, network, course, part, bound, true)?;
    let Some(last) = backwards.explore(alloc, end, most, effort)? else {
        return Ok(None);
    };
    for k in backwards.steps_to(alloc, last)?.iter().rev() {
        steps.push(*k)?;
    }
    Ok(Some(steps))
}

/// The nodes of a part in an order that stays within a bound; none if none is found among so many states.
pub fn crossed(
    alloc: Global,
    network: &Network,
    course: &Course,
    part: Part,
    bound: i64,
    most: u32,
    effort: &mut Effort,
) -> Result<Option<Vec<u32>>, NoMemory> {
    let Some(steps) = steps_across(alloc, network, course, part, bound, most, effort)? else {
        return Ok(None);
    };
    let order = steps
        .iter()
        .map(|k| course.node(part.from.saturating_add(*k)))
        .collect(alloc)?;
    Ok(Some(order))
}
