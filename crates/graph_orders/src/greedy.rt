//! Orders that run next what frees memory, or else the node whose closure of what it waits for costs the least.

use crate::NoMemory;
use crate::effort::Effort;
use crate::network::Network;
use crate::queue::Queue;
use crate::tables::{count_of, is_marked, mark, number_at, put_number};
use crate::walk::missing_of;
use std::alloc::Global;

// Below the key of each closure that leaves something.
const FREES: i64 = -0x2000_0000_0000_0000;

// What a look at a node of a closure costs, beside those that come before it.
const STEPS_EACH: usize = 2;

/// What is cheap.
#[derive(Clone, Copy, Debug, PartialEq, Eq)]
pub enum Cost {
    /// To leave little.
    Left,
    /// To peak low and to leave little.
    Both,
    /// To peak low.
    Peak,
}

/// How a greedy order is made.
#[derive(Clone, Copy, Drop)]
pub struct Taste {
    /// How many nodes a closure may have.
    pub most: u32,
    pub cost: Cost,
    /// Whether what a shared item will free counts in part when one of its readers runs.
    pub has_credit: bool,
    /// Whether a closure may be a collector's.
    pub aims_at_collectors: bool,
}

// A node of a closure whose suppliers come first, and which of them comes next.
#[derive(Clone, Copy, Drop)]
struct Visit {
    node: u32,
    next: usize,
}

// A greedy order that is being made.
#[derive(Drop)]
struct Greedy {
    taste: Taste,
    effort: Effort,
    order: Vec<u32>,
    done: Vec<bool>,
    missing: Vec<u32>,
    memory: i64,
    peak: i64,
    // Ready nodes that free something, by what they need.
    freeing: Queue,
    // All ready nodes, by what they need.
    ready: Queue,
    // Nodes with small closures, by what these cost.
    aims: Queue,
    marks: Vec<u32>,
    stamp: u32,
    path: Vec<Visit>,
    closure: Vec<u32>,
    // What ran since the costs were looked at.
    ran: Vec<u32>,
    near: Vec<u32>,
}

impl Greedy {
    fn new(
        alloc: Global,
        network: &Network,
        taste: Taste,
        effort: Effort,
    ) -> Result<Greedy, NoMemory> {
        let nodes = network.nodes() as usize;
        Ok(Greedy {
            taste,
            effort,
            order: Vec::with_capacity(alloc, nodes)?,
            done: vec![in alloc; false; nodes]?,
            missing: missing_of(alloc, network)?,
            memory: 0,
            peak: 0,
            freeing: Queue::new(alloc, network.nodes())?,
            ready: Queue::new(alloc, network.nodes())?,
            aims: Queue::new(alloc, network.nodes())?,
            marks: vec![in alloc; 0; nodes]?,
            stamp: 0,
            path: Vec::new(alloc),
            closure: Vec::new(alloc),
            ran: Vec::new(alloc),
            near: Vec::new(alloc),
        })
    }

    // A node that is seen for the first time since the last stamp, and was not done.
    #[inline]
    fn is_new(&self, node: u32) -> bool {
        number_at(&self.marks, node) != self.stamp && !is_marked(&self.done, node)
    }

    fn see(&mut self, node: u32) {
        put_number(&mut self.marks, node, self.stamp);
    }

    fn new_stamp(&mut self) {
        self.stamp = self.stamp.saturating_add(1);
    }

    // What a node waits for and what was not done, each after what it waits for itself, and the node. Whether it is few enough.
    fn find_closure(&mut self, network: &Network, node: u32) -> Result<bool, NoMemory> {
        self.effort.spend(1);
        if number_at(&self.missing, node) >= self.taste.most.max(1) {
            return Ok(false);
        }
        self.closure.clear();
        self.path.clear();
        self.new_stamp();
        self.see(node);
        self.path.push(Visit { node, next: 0 })?;
        let mut count: u32 = 1;
        for _ in 0..self.effort.left() {
            let Some(visit) = self.path.pop() else {
                return Ok(true);
            };
            self.effort.spend(STEPS_EACH);
            let row = self.suppliers_left(network, visit.node);
            let Some(place) = self.next_new(row, visit.next) else {
                self.closure.push(visit.node)?;
                continue;
            };
            count = count.saturating_add(1);
            if count > self.taste.most {
                return Ok(false);
            }
            let next = place.saturating_add(1);
            let supplier = row.get(place).copied().unwrap_or(0);
            self.see(supplier);
            self.path.push(Visit { next, ..visit })?;
            self.path.push(Visit {
                node: supplier,
                next: 0,
            })?;
        }
        Ok(false)
    }

    // The nodes right before one; none of them where all were done.
    #[inline]
    fn suppliers_left<'a>(&self, network: &'a Network, node: u32) -> &'a [u32] {
        if number_at(&self.missing, node) == 0 {
            &[]
        } else {
            network.before(node)
        }
    }

    // The place, from one on, of the first node of a row that is new.
    fn next_new(&mut self, row: &[u32], from: usize) -> Option<usize> {
        for place in from..row.len() {
            if self.is_new(row[place]) {
                self.effort.spend(place.saturating_sub(from));
                return Some(place);
            }
        }
        self.effort.spend(row.len().saturating_sub(from));
        None
    }

    // What one more reader of shared items is worth: the more of the readers are done, the more.
    fn credit(&mut self, network: &Network, node: u32) -> i64 {
        let mut credit: i64 = 0;
        for later in network.after(node) {
            let all = count_of(network.before(*later).len()) as i64;
            let size = 0i64.saturating_sub(network.change(*later));
            if size > 0 && all > 1 {
                let done = all.saturating_sub(number_at(&self.missing, *later) as i64);
                let part = done.saturating_mul(2).saturating_add(1);
                let whole = all.saturating_mul(all).max(1);
                credit = credit.saturating_add(size.saturating_mul(part) / whole);
            }
        }
        self.effort.spend(network.after(node).len());
        credit
    }

    // What the closure at hand costs.
    fn cost(&mut self, network: &Network) -> i64 {
        let mut peak: i64 = 0;
        let mut left: i64 = 0;
        let mut credit: i64 = 0;
        for place in 0..count_of(self.closure.len()) {
            let node = number_at(&self.closure, place);
            peak = peak.max(left.saturating_add(network.need(node)));
            left = left.saturating_add(network.change(node));
            if self.taste.has_credit {
                credit = credit.saturating_add(self.credit(network, node));
            }
        }
        self.effort.spend(self.closure.len());
        if left <= 0 {
            return FREES.saturating_add(peak);
        }
        let left = left.saturating_sub(credit);
        match self.taste.cost {
            Cost::Left => left.saturating_mul(2),
            Cost::Both => left.saturating_add(peak),
            Cost::Peak => peak.saturating_mul(2),
        }
    }

    // Puts a node among the aims by what its closure costs, or takes it out, if that is too large.
    fn look_at(&mut self, network: &Network, node: u32) -> Result<(), NoMemory> {
        if network.is_collector(node) && !self.taste.aims_at_collectors {
            return Ok(());
        }
        if self.find_closure(network, node)? {
            let cost = self.cost(network);
            self.aims.put(node, cost);
        } else {
            self.aims.take_out(node);
        }
        Ok(())
    }

    fn reach(&mut self, network: &Network, node: u32) {
        self.ready.put(node, network.need(node));
        if network.change(node) <= 0 {
            self.freeing.put(node, network.need(node));
        }
    }

    fn run(&mut self, network: &Network, node: u32) -> Result<(), NoMemory> {
        mark(&mut self.done, node);
        self.order.push(node)?;
        self.ran.push(node)?;
        self.ready.take_out(node);
        self.freeing.take_out(node);
        self.aims.take_out(node);
        self.peak = self
            .peak
            .max(self.memory.saturating_add(network.need(node)));
        self.memory = self.memory.saturating_add(network.change(node));
        for later in network.after(node) {
            let left = number_at(&self.missing, *later).saturating_sub(1);
            put_number(&mut self.missing, *later, left);
            if left == 0 {
                self.reach(network, *later);
            }
        }
        self.effort.spend(network.after(node).len());
        Ok(())
    }

    // Runs all that frees something and raises the peak no more. Whether there was any.
    fn run_freeing(&mut self, network: &Network) -> Result<bool, NoMemory> {
        let mut is_any = false;
        for _ in 0..network.nodes() {
            let Some(node) = self.freeing.first() else {
                break;
            };
            if self.memory.saturating_add(network.need(node)) > self.peak {
                break;
            }
            self.run(network, node)?;
            is_any = true;
        }
        Ok(is_any)
    }

    // Looks again at what comes within a few steps after what ran.
    fn look_again(&mut self, network: &Network) -> Result<(), NoMemory> {
        let most = (self.taste.most as usize).saturating_mul(2);
        self.new_stamp();
        self.near.clear();
        for place in 0..count_of(self.ran.len()) {
            let node = number_at(&self.ran, place);
            self.come_near(network, node, usize::MAX)?;
        }
        for place in 0..count_of(most) {
            if place >= count_of(self.near.len()) {
                break;
            }
            let node = number_at(&self.near, place);
            self.come_near(network, node, most)?;
        }
        self.ran.clear();
        for place in 0..count_of(self.near.len()) {
            let node = number_at(&self.near, place);
            self.look_at(network, node)?;
        }
        Ok(())
    }

    // What comes right after a node is near, until there is so much.
    fn come_near(&mut self, network: &Network, node: u32, most: usize) -> Result<(), NoMemory> {
        for later in network.after(node) {
            if self.near.len() >= most {
                break;
            }
            self.effort.spend(1);
            if self.is_new(*later) {
                self.see(*later);
                self.near.push(*later)?;
            }
        }
        Ok(())
    }

    // Runs the cheapest closure; if there is none, the ready node that needs the least.
    fn run_cheapest(&mut self, network: &Network) -> Result<(), NoMemory> {
        for _ in 0..network.nodes() {
            let Some(node) = self.aims.pop() else {
                break;
            };
            if self.find_closure(network, node)? {
                for place in 0..count_of(self.closure.len()) {
                    let member = number_at(&self.closure, place);
                    self.run(network, member)?;
                }
                return Ok(());
            }
        }
        match self.ready.pop() {
            Some(node) => self.run(network, node),
            None => Ok(()),
        }
    }
}

/// An order of all nodes, and what it spent of the effort; what is spent before the end leaves nodes out.
pub fn greedy_order(
    alloc: Global,
    network: &Network,
    taste: Taste,
    effort: Effort,
) -> Result<(Vec<u32>, Effort), NoMemory> {
    let mut greedy = Greedy::new(alloc, network, taste, effort)?;
    for node in 0..network.nodes() {
        if number_at(&greedy.missing, node) == 0 {
            greedy.reach(network, node);
        }
        greedy.look_at(network, node)?;
    }
    for _ in 0..network.nodes() {
        if greedy.order.len() >= network.nodes() as usize || greedy.effort.is_spent() {
            break;
        }
        if !greedy.run_freeing(network)? {
            greedy.run_cheapest(network)?;
        }
        greedy.look_again(network)?;
    }
    Ok((greedy.order, greedy.effort))
}
