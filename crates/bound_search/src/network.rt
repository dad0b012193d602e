//! A system as a network: nodes, each with what it adds to the memory and what it needs, and arcs to the nodes that come before.
//!
//! Node 0 is the start, which makes what is given; then come the tasks by their numbers; then the end, which reads what nobody
//! reads; then a collector for each item with several readers, which takes the item up after all of them.

use crate::NoMemory;
use crate::rows::{Rows, values_at};
use crate::tables::{add_amount, amount_at, count_of, number_at, put_number};
use shared_systems::SharedSystem;
use std::alloc::Global;

/// The network of a system, in one of its two directions. At the place of a use stands the arc from its reader, or the end, to its
/// producer, or the start; after these come those from collectors to readers. In the mirror all of them run the other way. The arcs
/// themselves are numbered by the nodes to which they run, so that the arcs up from a node stand side by side.
#[derive(Drop)]
pub struct Network {
    tasks: u32,
    nodes: u32,
    root: u32,
    far: u32,
    // From which node to which the arc at each place runs.
    tails: Vec<u32>,
    heads: Vec<u32>,
    // The arc at each place, and back.
    arcs: Vec<u32>,
    places: Vec<u32>,
    // By the node to which they run: from which. The arcs by the node from which they run, and to which.
    later: Rows,
    down: Rows,
    earlier: Rows,
    changes: Vec<i64>,
    needs: Vec<i64>,
}

// A size as a signed number.
pub fn signed(size: u64) -> i64 {
    i64::try_from(size).unwrap_or(0)
}

// A network that is being made: what its nodes add and need, and its arcs.
#[derive(Drop)]
struct Draft {
    end: u32,
    next: u32,
    tails: Vec<u32>,
    heads: Vec<u32>,
    changes: Vec<i64>,
    needs: Vec<i64>,
}

impl Draft {
    // The tasks alone, with their extras less their shares, and room for so many nodes.
    fn new(alloc: Global, system: &SharedSystem, nodes: usize) -> Result<Draft, NoMemory> {
        let tasks = system.tasks();
        let mut needs = vec![in alloc; 0; nodes]?;
        let changes = vec![in alloc; 0; nodes]?;
        for (place, task) in tasks.iter().enumerate() {
            let more = signed(task.extra).saturating_sub(signed(task.share));
            add_amount(&mut needs, count_of(place).saturating_add(1), more);
        }
        Ok(Draft {
            end: count_of(tasks.len()).saturating_add(1),
            next: count_of(tasks.len()).saturating_add(2),
            tails: Vec::new(alloc),
            heads: Vec::new(alloc),
            changes,
            needs,
        })
    }

    fn arc(&mut self, tail: u32, head: u32) -> Result<(), NoMemory> {
        self.tails.push(tail)?;
        self.heads.push(head)?;
        Ok(())
    }

    // The uses of an item.
    fn item(&mut self, size: i64, from: u32, readers: &[u32]) -> Result<(), NoMemory> {
        let end = self.end;
        add_amount(&mut self.changes, from, size);
        if from != 0 {
            add_amount(&mut self.needs, from, size);
        }
        if readers.len() == 0 {
            add_amount(&mut self.changes, end, 0i64.saturating_sub(size));
            self.arc(end, from)?;
        }
        for reader in readers {
            self.arc(*reader, from)?;
        }
        Ok(())
    }

    // What takes the item up: its reader, or a collector of its own.
    fn taker(&mut self, size: i64, readers: &[u32]) -> Result<(), NoMemory> {
        let less = 0i64.saturating_sub(size);
        match readers {
            [] => Ok(()),
            [reader] => {
                add_amount(&mut self.changes, *reader, less);
                Ok(())
            }
            _ => {
                let collector = self.next;
                add_amount(&mut self.changes, collector, less);
                for reader in readers {
                    self.arc(collector, *reader)?;
                }
                self.next = collector.saturating_add(1);
                Ok(())
            }
        }
    }
}

// How many nodes there are.
fn node_count(system: &SharedSystem) -> usize {
    let items = system.items();
    let mut count = system.tasks().len().saturating_add(2);
    for i in 0..items.len() {
        if items.readers(i).len() > 1 {
            count = count.saturating_add(1);
        }
    }
    count
}

impl Network {
    /// The network of a system. Linear.
    pub fn new(alloc: Global, system: &SharedSystem) -> Result<Network, NoMemory> {
        let items = system.items();
        let nodes = node_count(system);
        let mut draft = Draft::new(alloc, system, nodes)?;
        for i in 0..items.len() {
            draft.item(
                signed(items.size(i)),
                items.producer(i).unwrap_or(0),
                items.readers(i),
            )?;
        }
        for i in 0..items.len() {
            draft.taker(signed(items.size(i)), items.readers(i))?;
        }
        let Draft {
            end,
            next: _,
            tails,
            heads,
            changes,
            needs,
        } = draft;
        let tasks = count_of(system.tasks().len());
        Network::of_arcs(alloc, tasks, 0, end, tails, heads, changes, needs)
    }

    // The network of these arcs.
    fn of_arcs(
        alloc: Global,
        tasks: u32,
        root: u32,
        far: u32,
        tails: Vec<u32>,
        heads: Vec<u32>,
        changes: Vec<i64>,
        needs: Vec<i64>,
    ) -> Result<Network, NoMemory> {
        let nodes = changes.len();
        let up = Rows::new(alloc, &heads, nodes)?;
        let places = Vec::from_slice(alloc, up.numbers())?;
        let mut arcs = vec![in alloc; 0; places.len()]?;
        for (arc, place) in places.iter().enumerate() {
            put_number(&mut arcs, *place, count_of(arc));
        }
        let later = up.through(alloc, &tails)?;
        let down = Rows::new(alloc, later.numbers(), nodes)?;
        let earlier = down.through(alloc, &values_at(alloc, &heads, &places)?)?;
        Ok(Network {
            tasks,
            nodes: count_of(nodes),
            root,
            far,
            tails,
            heads,
            arcs,
            places,
            later,
            down,
            earlier,
            changes,
            needs,
        })
    }

    /// The same with all arcs turned round, from the last state back: what a node adds it takes away, and it needs so much less.
    pub fn mirror(&self, alloc: Global) -> Result<Network, NoMemory> {
        let nodes = self.changes.len();
        let mut changes = vec![in alloc; 0; nodes]?;
        let mut needs = vec![in alloc; 0; nodes]?;
        for node in 0..self.nodes {
            let change = amount_at(&self.changes, node);
            add_amount(&mut changes, node, 0i64.saturating_sub(change));
            add_amount(
                &mut needs,
                node,
                amount_at(&self.needs, node).saturating_sub(change),
            );
        }
        let tails = Vec::from_slice(alloc, &self.heads)?;
        let heads = Vec::from_slice(alloc, &self.tails)?;
        Network::of_arcs(
            alloc, self.tasks, self.far, self.root, tails, heads, changes, needs,
        )
    }

    /// How many tasks there are.
    pub fn tasks(&self) -> u32 {
        self.tasks
    }

    /// How many nodes there are.
    pub fn nodes(&self) -> u32 {
        self.nodes
    }

    /// How many arcs there are.
    pub fn arcs(&self) -> u32 {
        count_of(self.places.len())
    }

    /// The node that comes before all others: the start, and in the mirror the end.
    pub fn root(&self) -> u32 {
        self.root
    }

    /// The node that comes after all others.
    pub fn far(&self) -> u32 {
        self.far
    }

    /// Whether a node is a task.
    #[inline]
    pub fn is_task(&self, node: u32) -> bool {
        1 <= node && node <= self.tasks
    }

    /// Whether a node is a collector.
    #[inline]
    pub fn is_collector(&self, node: u32) -> bool {
        node > self.tasks.saturating_add(1)
    }

    /// From which node the arc at a place runs.
    pub fn tail(&self, place: u32) -> u32 {
        number_at(&self.tails, place)
    }

    /// To which node the arc at a place runs.
    pub fn head(&self, place: u32) -> u32 {
        number_at(&self.heads, place)
    }

    /// The arc at a place.
    pub fn arc(&self, place: u32) -> u32 {
        number_at(&self.arcs, place)
    }

    /// The place of an arc.
    pub fn place(&self, arc: u32) -> u32 {
        number_at(&self.places, arc)
    }

    /// The nodes that come right before one.
    #[inline]
    pub fn earlier(&self, node: u32) -> &[u32] {
        self.earlier.row(node)
    }

    /// The arcs to these nodes, in the same order.
    #[inline]
    pub fn down(&self, node: u32) -> &[u32] {
        self.down.row(node)
    }

    /// The nodes that come right after one.
    #[inline]
    pub fn later(&self, node: u32) -> &[u32] {
        self.later.row(node)
    }

    /// The arc from the first of these nodes; the others have the arcs after it, in the same order.
    #[inline]
    pub fn first_up(&self, node: u32) -> u32 {
        self.later.first(node)
    }

    /// What a node adds to the memory.
    #[inline]
    pub fn change(&self, node: u32) -> i64 {
        amount_at(&self.changes, node)
    }

    /// What a node needs beside the memory as it starts.
    #[inline]
    pub fn need(&self, node: u32) -> i64 {
        amount_at(&self.needs, node)
    }
}
