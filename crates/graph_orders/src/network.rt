//! A system as a network: nodes, each with what it adds to the memory and what it needs while it runs.
//!
//! First come the tasks by their numbers; then a collector for each item of which no reader comes after all its other readers: it takes the
//! item up after all of them.

use crate::NoMemory;
use crate::rows::Rows;
use crate::tables::{add_amount, amount_at, count_of, signed};
use crate::takers::takers_of;
use shared_systems::SharedSystem;
use std::alloc::Global;

/// The network of a system, or its mirror image.
#[derive(Drop)]
pub struct Network {
    tasks: u32,
    nodes: u32,
    start: i64,
    needs: Vec<i64>,
    changes: Vec<i64>,
    before: Rows,
    after: Rows,
}

/// What makes a network: how many of its nodes are tasks, the memory of the first state, what nodes need and add, and the ends of its arcs.
#[derive(Drop)]
pub struct Parts {
    pub tasks: u32,
    pub start: i64,
    pub needs: Vec<i64>,
    pub changes: Vec<i64>,
    pub earlier: Vec<u32>,
    pub later: Vec<u32>,
}

// A network that is being made: what its nodes add and need, and its arcs.
#[derive(Drop)]
struct Draft {
    start: i64,
    next: u32,
    earlier: Vec<u32>,
    later: Vec<u32>,
    needs: Vec<i64>,
    changes: Vec<i64>,
}

impl Draft {
    // The tasks alone, with their extras less their shares, and room for so many nodes.
    fn new(alloc: Global, system: &SharedSystem, nodes: usize) -> Result<Draft, NoMemory> {
        let mut needs = vec![in alloc; 0; nodes]?;
        let changes = vec![in alloc; 0; nodes]?;
        for (place, task) in system.tasks().iter().enumerate() {
            let more = signed(task.extra).saturating_sub(signed(task.share));
            add_amount(&mut needs, count_of(place), more);
        }
        Ok(Draft {
            start: 0,
            next: count_of(system.tasks().len()),
            earlier: Vec::new(alloc),
            later: Vec::new(alloc),
            needs,
            changes,
        })
    }

    fn arc(&mut self, earlier: u32, later: u32) -> Result<(), NoMemory> {
        self.earlier.push(earlier)?;
        self.later.push(later)?;
        Ok(())
    }

    // Who makes an item, and for whom.
    fn make(&mut self, size: i64, from: Option<u32>, readers: &[u32]) -> Result<(), NoMemory> {
        let Some(task) = from else {
            self.start = self.start.saturating_add(size);
            return Ok(());
        };
        let maker = task.saturating_sub(1);
        add_amount(&mut self.changes, maker, size);
        add_amount(&mut self.needs, maker, size);
        for reader in readers {
            self.arc(maker, reader.saturating_sub(1))?;
        }
        Ok(())
    }

    // Who takes an item up: the reader that comes after all others, or a collector of its own.
    fn take_up(&mut self, size: i64, taker: Option<u32>, readers: &[u32]) -> Result<(), NoMemory> {
        let less = 0i64.saturating_sub(size);
        if let Some(node) = taker {
            add_amount(&mut self.changes, node, less);
        } else if readers.len() > 0 {
            let collector = self.next;
            add_amount(&mut self.changes, collector, less);
            for reader in readers {
                self.arc(reader.saturating_sub(1), collector)?;
            }
            self.next = collector.saturating_add(1);
        }
        Ok(())
    }
}

// How many nodes there are: one for each item with readers of which none takes it up, beside the tasks.
fn node_count(system: &SharedSystem, takers: &[Option<u32>]) -> usize {
    let items = system.items();
    let mut count = system.tasks().len();
    for (i, taker) in takers.iter().enumerate() {
        if i < items.len() && items.readers(i).len() > 0 && taker.is_none() {
            count = count.saturating_add(1);
        }
    }
    count
}

impl Network {
    /// The network of a system. Linear.
    pub fn new(alloc: Global, system: &SharedSystem) -> Result<Network, NoMemory> {
        let items = system.items();
        let takers = takers_of(alloc, system)?;
        let nodes = node_count(system, &takers);
        let mut draft = Draft::new(alloc, system, nodes)?;
        for i in 0..items.len() {
            let size = signed(items.size(i));
            draft.make(size, items.producer(i), items.readers(i))?;
            let taker = takers.get(i).copied().flatten();
            draft.take_up(size, taker, items.readers(i))?;
        }
        Network::of_parts(
            alloc,
            Parts {
                tasks: count_of(system.tasks().len()),
                start: draft.start,
                needs: draft.needs,
                changes: draft.changes,
                earlier: draft.earlier,
                later: draft.later,
            },
        )
    }

    /// The network of these parts. Linear.
    pub fn of_parts(alloc: Global, parts: Parts) -> Result<Network, NoMemory> {
        let nodes = parts.needs.len();
        let before = Rows::new(alloc, &parts.later, &parts.earlier, nodes)?;
        let after = Rows::new(alloc, &parts.earlier, &parts.later, nodes)?;
        Ok(Network {
            tasks: parts.tasks,
            nodes: count_of(nodes),
            start: parts.start,
            needs: parts.needs,
            changes: parts.changes,
            before,
            after,
        })
    }

    /// The same from the last state back: what a node adds it takes away, and it needs so much less.
    pub fn mirror(&self, alloc: Global) -> Result<Network, NoMemory> {
        let mut needs = Vec::with_capacity(alloc, self.needs.len())?;
        let mut changes = Vec::with_capacity(alloc, self.changes.len())?;
        let mut last = self.start;
        for node in 0..self.nodes {
            let change = self.change(node);
            changes.push(0i64.saturating_sub(change))?;
            needs.push(self.need(node).saturating_sub(change))?;
            last = last.saturating_add(change);
        }
        Ok(Network {
            tasks: self.tasks,
            nodes: self.nodes,
            start: last,
            needs,
            changes,
            before: self.after.copy(alloc)?,
            after: self.before.copy(alloc)?,
        })
    }

    /// How many tasks there are.
    pub fn tasks(&self) -> u32 {
        self.tasks
    }

    /// How many nodes there are.
    pub fn nodes(&self) -> u32 {
        self.nodes
    }

    /// The nodes and arcs together: what a pass over all of them costs.
    pub fn size(&self) -> usize {
        (self.nodes as usize).saturating_add(self.before.total())
    }

    /// The memory of the first state.
    pub fn start(&self) -> i64 {
        self.start
    }

    /// Whether a node is a collector.
    #[inline]
    pub fn is_collector(&self, node: u32) -> bool {
        node >= self.tasks
    }

    /// What a node needs while it runs, beside the memory before it.
    #[inline]
    pub fn need(&self, node: u32) -> i64 {
        amount_at(&self.needs, node)
    }

    /// What a node adds to the memory.
    #[inline]
    pub fn change(&self, node: u32) -> i64 {
        amount_at(&self.changes, node)
    }

    /// The nodes right before a node.
    #[inline]
    pub fn before(&self, node: u32) -> &[u32] {
        self.before.row(node)
    }

    /// The nodes right after a node.
    #[inline]
    pub fn after(&self, node: u32) -> &[u32] {
        self.after.row(node)
    }

    /// The nodes right before each, in the order of a list; what is not listed is left out.
    pub fn before_in_order(&self, alloc: Global, listing: &[u32]) -> Result<Rows, NoMemory> {
        self.before
            .sorted(alloc, &self.after, listing, self.nodes as usize)
    }
}
