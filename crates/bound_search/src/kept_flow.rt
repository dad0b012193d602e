//! One flow that is kept while the inside grows: from nodes that take memory up to nodes before them that add to it.
//!
//! What a node takes up beyond what it adds flows down its arcs, each without a limit, into the rooms of nodes that add more than
//! they take up. So far as all of it has found room, no closed set of nodes inside has less memory than there is at first; what
//! has found none says how much less the least of them has. The nodes that come before a task are forced into that set: what
//! flows into them is turned elsewhere, on top of the flow, and then taken back by a log.

use crate::NoMemory;
use crate::ebbing::Ebbs;
use crate::effort::Effort;
use crate::flows::Change;
use crate::legs::{NONE, Source};
use crate::network::Network;
use crate::pusher::Pusher;
use crate::tables::{add_amount, amount_at, count_of, is_marked, mark, number_at, put_amount};
use std::alloc::Global;

/// More than any amount, and so little that several of them fit.
pub const MUCH: i64 = 0x0fff_ffff_ffff_ffff;

/// A flow on a network, and the nodes inside.
#[derive(Drop)]
pub struct KeptFlow {
    /// The flow, and what is spent.
    pub pusher: Pusher,
    inside: Vec<bool>,
    // Nodes from which no room can be reached any more: they are in each least closed set.
    dead: Vec<bool>,
    excess: Vec<i64>,
    ebbs: Ebbs,
    // The memory of the least closed set inside.
    level: i64,
}

impl KeptFlow {
    /// No flow, and nothing inside.
    pub fn new(alloc: Global, network: &Network, effort: Effort) -> Result<KeptFlow, NoMemory> {
        let nodes = network.nodes() as usize;
        Ok(KeptFlow {
            pusher: Pusher::new(alloc, network, effort)?,
            inside: vec![in alloc; false; nodes]?,
            dead: vec![in alloc; false; nodes]?,
            excess: vec![in alloc; 0; nodes]?,
            ebbs: Ebbs::new(alloc),
            level: network.change(network.root()),
        })
    }

    /// The same flow.
    pub fn copy(&self, alloc: Global) -> Result<KeptFlow, NoMemory> {
        Ok(KeptFlow {
            pusher: self.pusher.copy(alloc)?,
            inside: Vec::from_slice(alloc, &self.inside)?,
            dead: Vec::from_slice(alloc, &self.dead)?,
            excess: Vec::from_slice(alloc, &self.excess)?,
            ebbs: Ebbs::new(alloc),
            level: self.level,
        })
    }

    /// Allows so many steps from now on.
    pub fn allow(&mut self, steps: u64) {
        self.pusher.effort.allow(steps);
    }

    /// What was spent of the effort.
    pub fn effort(&self) -> Effort {
        self.pusher.effort
    }

    /// Spends so many more steps.
    #[inline]
    pub fn spend(&mut self, steps: usize) {
        self.pusher.spend(steps);
    }

    /// Whether a node is inside.
    #[inline]
    pub fn is_inside(&self, node: u32) -> bool {
        is_marked(&self.inside, node)
    }

    /// Those nodes of a list that are not inside.
    pub fn not_inside(&self, alloc: Global, nodes: &[u32]) -> Result<Vec<u32>, NoMemory> {
        let mut others = Vec::new(alloc);
        for node in nodes {
            if !self.is_inside(*node) {
                others.push(*node)?;
            }
        }
        Ok(others)
    }

    /// The nodes inside that are in each least closed set, whatever comes inside later.
    pub fn dead(&self) -> &[bool] {
        &self.dead
    }

    /// The flow on an arc.
    #[inline]
    pub fn flow(&self, arc: u32) -> i64 {
        self.pusher.flows.flow(arc)
    }

    /// The nodes from which the last forced flow found no room.
    pub fn seen(&self) -> &[u32] {
        self.pusher.ranked()
    }

    /// What was forced since that was last taken back or kept.
    pub fn log(&self) -> &[Change] {
        self.pusher.flows.log()
    }

    /// Takes back what was forced.
    pub fn back(&mut self) {
        let changes = self.log().len();
        self.spend(changes);
        self.pusher.flows.back();
    }

    // The nodes that were ranked lead to no room.
    fn bury(&mut self) {
        for k in 0..self.pusher.ranked().len() {
            let node = number_at(self.pusher.ranked(), count_of(k));
            mark(&mut self.dead, node);
            self.pusher.shut(node);
        }
    }

    // Pushes what a node has in excess wherever there is room.
    fn drain(&mut self, network: &Network, node: u32) -> Result<(), NoMemory> {
        self.pusher.sources.clear();
        self.pusher.sources.push(Source {
            node,
            arc: NONE,
            other: NONE,
            left: amount_at(&self.excess, node),
            pushed: 0,
        })?;
        for _ in 0..self.effort().left() {
            if amount_at(&self.excess, node) <= 0 || self.effort().is_spent() {
                break;
            }
            let excess = amount_at(&self.excess, node);
            if !self.pusher.rank_all(network, excess)? {
                if !self.effort().is_spent() {
                    self.bury();
                }
                break;
            }
            let pushed = self.pusher.push_from(network, 0)?;
            add_amount(&mut self.excess, node, 0i64.saturating_sub(pushed));
            self.level = self.level.saturating_add(pushed);
        }
        Ok(())
    }

    /// A node comes inside, but what it has in excess is not pushed.
    pub fn put(&mut self, network: &Network, node: u32) {
        mark(&mut self.inside, node);
        self.pusher.open(node);
        let change = network.change(node);
        if change > 0 {
            self.pusher.flows.put_room(node, change);
        } else {
            put_amount(&mut self.excess, node, 0i64.saturating_sub(change));
            self.level = self.level.saturating_add(change);
        }
    }

    /// A node comes inside, after all before it.
    pub fn add(&mut self, network: &Network, node: u32) -> Result<(), NoMemory> {
        self.put(network, node);
        if amount_at(&self.excess, node) > 0 {
            self.drain(network, node)?;
        }
        Ok(())
    }

    // Lists the nodes with excess.
    fn list_excess(&mut self) -> Result<(), NoMemory> {
        self.pusher.sources.clear();
        for node in 0..count_of(self.excess.len()) {
            let left = amount_at(&self.excess, node);
            if left > 0 {
                self.pusher.sources.push(Source {
                    node,
                    arc: NONE,
                    other: NONE,
                    left,
                    pushed: 0,
                })?;
            }
        }
        Ok(())
    }

    // Takes note of what the sources have left of the excess.
    fn take_excess(&mut self) {
        for k in 0..self.pusher.sources.len() {
            if let Some(source) = self.pusher.sources.get(k).copied() {
                put_amount(&mut self.excess, source.node, source.left);
                self.level = self.level.saturating_add(source.pushed);
            }
        }
    }

    /// Pushes what all nodes have in excess wherever there is room.
    pub fn drain_all(&mut self, network: &Network) -> Result<(), NoMemory> {
        self.list_excess()?;
        for _ in 0..self.effort().left() {
            if self.effort().is_spent() || !self.pusher.rank_all(network, MUCH)? {
                break;
            }
            for k in 0..self.pusher.sources.len() {
                self.pusher.push_from(network, k)?;
            }
        }
        self.take_excess();
        Ok(())
    }

    // Closes nodes: nothing is pushed into them. How much room they have.
    fn close(&mut self, closed: &[u32]) -> i64 {
        self.spend(closed.len());
        let mut total: i64 = 0;
        for node in closed {
            total = total.saturating_add(self.pusher.flows.room(*node));
            self.pusher.shut(*node);
        }
        total
    }

    fn open(&mut self, closed: &[u32]) {
        self.spend(closed.len());
        for node in closed {
            self.pusher.open(*node);
        }
    }

    // Lists what flows into closed nodes from others.
    fn list_turned(&mut self, network: &Network, closed: &[u32]) -> Result<(), NoMemory> {
        self.pusher.sources.clear();
        for node in closed {
            let row = network.later(*node);
            let first = network.first_up(*node);
            self.spend(row.len().saturating_add(1));
            for (k, after) in row.iter().enumerate() {
                let arc = first.saturating_add(count_of(k));
                let left = self.flow(arc);
                if left > 0 && !self.pusher.is_shut(*after) {
                    self.pusher.sources.push(Source {
                        node: *after,
                        arc,
                        other: *node,
                        left,
                        pushed: 0,
                    })?;
                }
            }
        }
        Ok(())
    }

    // Turns elsewhere what the sources have, as far as the ranks let, until that is more than is asked for. How much it was.
    fn turn_once(&mut self, network: &Network, enough: i64) -> Result<i64, NoMemory> {
        let mut total: i64 = 0;
        for k in 0..self.pusher.sources.len() {
            let pushed = self.pusher.push_from(network, k)?;
            if pushed > 0
                && let Some(source) = self.pusher.sources.get(k).copied()
            {
                self.pusher
                    .flows
                    .add_flow(source.arc, 0i64.saturating_sub(pushed))?;
                total = total.saturating_add(pushed);
            }
            if total > enough {
                break;
            }
        }
        Ok(total)
    }

    // The same as far as it can be.
    fn turn(&mut self, network: &Network, enough: i64) -> Result<i64, NoMemory> {
        let mut total: i64 = 0;
        for _ in 0..self.effort().left() {
            let wanted = enough.saturating_sub(total);
            if wanted < 0 || self.effort().is_spent() {
                break;
            }
            if !self.pusher.rank_all(network, wanted.saturating_add(1))? {
                break;
            }
            let turned = self.turn_once(network, wanted)?;
            total = total.saturating_add(turned);
        }
        Ok(total)
    }

    // Closes nodes and turns elsewhere what flows into them, until the memory of the least closed set is above a limit. How much that is.
    fn close_up(&mut self, network: &Network, closed: &[u32], limit: i64) -> Result<i64, NoMemory> {
        let level = self.level.saturating_add(self.close(closed));
        if level > limit {
            return Ok(level);
        }
        self.list_turned(network, closed)?;
        let turned = self.turn(network, limit.saturating_sub(level))?;
        Ok(level.saturating_add(turned))
    }

    /// The memory of the least closed set inside that has all of a closed list, or as much of it as is above a limit. Dead nodes are in
    /// the set anyway, and not in the list.
    pub fn force(
        &mut self,
        network: &Network,
        closed: &[u32],
        limit: i64,
    ) -> Result<i64, NoMemory> {
        self.pusher.sources.clear();
        let level = self.close_up(network, closed, limit)?;
        self.open(closed);
        self.ebbs.ebb_all(network, &mut self.pusher)?;
        if self.effort().is_spent() {
            return Ok(MUCH);
        }
        Ok(level)
    }

    /// The same, with a log: the flow is left as it shows that, until it is taken back.
    pub fn force_logged(
        &mut self,
        network: &Network,
        closed: &[u32],
        limit: i64,
    ) -> Result<i64, NoMemory> {
        self.pusher.flows.begin_log();
        let level = self.close_up(network, closed, limit)?;
        self.open(closed);
        Ok(level)
    }

    /// Forces a closed list for good.
    pub fn settle(&mut self, network: &Network, closed: &[u32]) -> Result<(), NoMemory> {
        self.level = self.close_up(network, closed, MUCH)?;
        Ok(())
    }

    /// Lets the root take up what has found no room. The level stays.
    pub fn drain_to_root(&mut self, network: &Network) -> Result<(), NoMemory> {
        let root = network.root();
        let level = self.level;
        self.pusher.open(root);
        self.pusher.flows.put_room(root, MUCH);
        self.drain_all(network)?;
        self.pusher.flows.put_room(root, 0);
        self.pusher.shut(root);
        self.level = level;
        Ok(())
    }
}
