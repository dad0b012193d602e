//! Pushes along shortest paths. The nodes are ranked by how far they are from what is to be pushed, up to the nearest room; paths
//! go from rank to rank, and what led nowhere is not tried again until the nodes are ranked anew.

use crate::NoMemory;
use crate::effort::Effort;
use crate::flows::Flows;
use crate::legs::{Leg, NONE, SHUT, Source, next_down, next_up};
use crate::network::Network;
use crate::tables::{amount_at, count_of, number_at, put_amount, put_number};
use std::alloc::Global;

// How many times as many nodes are looked at as it takes to find the first room.
const FAR: u32 = 4;

/// Flows, and what is to be pushed into the rooms.
#[derive(Drop)]
pub struct Pusher {
    /// The flows and the rooms.
    pub flows: Flows,
    /// What is to be pushed.
    pub sources: Vec<Source>,
    /// What is spent.
    pub effort: Effort,
    // Ranks below the base are those of earlier times.
    ranks: Vec<i64>,
    base: i64,
    top: i64,
    // By how much the ranks of chosen nodes are higher.
    shift: i64,
    // Which neighbour of a node is to be looked at next: those before it, and then those after it.
    nexts: Vec<u32>,
    // The nodes with a rank, in the order of their ranks.
    ranked: Vec<u32>,
    // Those that lead to a room.
    chosen: Vec<u32>,
    path: Vec<Leg>,
}

impl Pusher {
    /// No flows, and all nodes shut.
    pub fn new(alloc: Global, network: &Network, effort: Effort) -> Result<Pusher, NoMemory> {
        let nodes = network.nodes() as usize;
        Ok(Pusher {
            flows: Flows::new(alloc, network.arcs(), network.nodes())?,
            sources: Vec::new(alloc),
            effort,
            ranks: vec![in alloc; SHUT; nodes]?,
            base: 1,
            top: 0,
            shift: 0,
            nexts: vec![in alloc; 0; nodes]?,
            ranked: Vec::new(alloc),
            chosen: Vec::new(alloc),
            path: Vec::new(alloc),
        })
    }

    /// The same flows and rooms, with the same nodes shut.
    pub fn copy(&self, alloc: Global) -> Result<Pusher, NoMemory> {
        Ok(Pusher {
            flows: self.flows.copy(alloc)?,
            sources: Vec::new(alloc),
            effort: self.effort,
            ranks: Vec::from_slice(alloc, &self.ranks)?,
            base: self.base,
            top: self.top,
            shift: self.shift,
            nexts: Vec::from_slice(alloc, &self.nexts)?,
            ranked: Vec::new(alloc),
            chosen: Vec::new(alloc),
            path: Vec::new(alloc),
        })
    }

    /// Spends so many more steps.
    #[inline]
    pub fn spend(&mut self, steps: usize) {
        self.effort.spend(steps as u64);
    }

    /// Lets nothing be pushed into a node.
    #[inline]
    pub fn shut(&mut self, node: u32) {
        put_amount(&mut self.ranks, node, SHUT);
    }

    /// Lets it be pushed into again.
    #[inline]
    pub fn open(&mut self, node: u32) {
        put_amount(&mut self.ranks, node, 0);
    }

    /// Whether nothing may be pushed into a node.
    #[inline]
    pub fn is_shut(&self, node: u32) -> bool {
        amount_at(&self.ranks, node) == SHUT
    }

    // Whether a node leads to a room.
    fn is_chosen(&self, node: u32) -> bool {
        let rank = amount_at(&self.ranks, node);
        rank == self.base.saturating_add(self.shift)
    }

    /// The nodes that were ranked last.
    pub fn ranked(&self) -> &[u32] {
        &self.ranked
    }

    #[inline]
    fn rank(&mut self, node: u32, rank: i64) -> Result<(), NoMemory> {
        if amount_at(&self.ranks, node) < self.base {
            put_amount(&mut self.ranks, node, rank);
            self.top = rank;
            put_number(&mut self.nexts, node, 0);
            self.ranked.push(node)?;
        }
        Ok(())
    }

    // Ranks the sources that have something left. How much that is.
    fn rank_sources(&mut self) -> Result<i64, NoMemory> {
        self.base = self.top.saturating_add(1);
        self.ranked.clear();
        let mut total: i64 = 0;
        let sources = self.sources.len();
        for k in 0..sources {
            if let Some(source) = self.sources.get(k).copied()
                && source.left > 0
            {
                total = total.saturating_add(source.left);
                self.rank(source.node, self.base)?;
            }
        }
        self.spend(sources);
        Ok(total)
    }

    // Ranks the nodes to which something can be pushed right from this one. Two that are looked at count as a step.
    fn rank_next(&mut self, network: &Network, node: u32) -> Result<(), NoMemory> {
        let rank = amount_at(&self.ranks, node).saturating_add(1);
        let earlier = network.earlier(node);
        let later = network.later(node);
        let first = network.first_up(node);
        self.spend(earlier.len().saturating_add(later.len()) / 2);
        for before in earlier {
            self.rank(*before, rank)?;
        }
        for (k, after) in later.iter().enumerate() {
            if self.flows.flow(first.saturating_add(count_of(k))) > 0 {
                self.rank(*after, rank)?;
            }
        }
        Ok(())
    }

    // Ranks nodes until those with room have as much as is wanted, and chooses these.
    fn find_rooms(&mut self, network: &Network, wanted: i64) -> Result<(), NoMemory> {
        let wanted = self.rank_sources()?.min(wanted);
        self.chosen.clear();
        let mut rooms: i64 = 0;
        let mut nearest = SHUT;
        let mut end = 0;
        for k in 0..network.nodes() {
            if k >= count_of(self.ranked.len()) || self.effort.is_spent() {
                break;
            }
            let node = number_at(&self.ranked, k);
            let is_enough = k >= end || rooms >= wanted;
            if is_enough && amount_at(&self.ranks, node) > nearest {
                break;
            }
            let room = self.flows.room(node);
            if room > 0 {
                if rooms == 0 {
                    nearest = amount_at(&self.ranks, node);
                    end = k.saturating_mul(FAR);
                }
                rooms = rooms.saturating_add(room);
                self.chosen.push(node)?;
            }
            self.spend(1);
            self.rank_next(network, node)?;
        }
        Ok(())
    }

    // A node that leads to a room gets a rank of its own, by which paths go.
    fn lift(&mut self, node: u32) {
        let rank = amount_at(&self.ranks, node);
        put_amount(&mut self.ranks, node, rank.saturating_add(self.shift));
    }

    // Lifts those with room.
    fn lift_rooms(&mut self) {
        self.shift = self.top.saturating_sub(self.base).saturating_add(1);
        let rooms = self.chosen.len();
        for k in 0..rooms {
            let node = number_at(&self.chosen, count_of(k));
            self.lift(node);
        }
        self.top = self.top.saturating_add(self.shift);
        self.spend(rooms);
    }

    fn choose(&mut self, node: u32) -> Result<(), NoMemory> {
        self.lift(node);
        self.chosen.push(node)?;
        Ok(())
    }

    // Chooses the nodes of the rank before from which something can be pushed right to this one.
    fn choose_before(&mut self, network: &Network, node: u32) -> Result<(), NoMemory> {
        let rank = amount_at(&self.ranks, node)
            .saturating_sub(self.shift)
            .saturating_sub(1);
        let earlier = network.earlier(node);
        let later = network.later(node);
        let down = network.down(node);
        self.spend(earlier.len().saturating_add(later.len()));
        for after in later {
            if amount_at(&self.ranks, *after) == rank {
                self.choose(*after)?;
            }
        }
        for (k, before) in earlier.iter().enumerate() {
            if amount_at(&self.ranks, *before) == rank
                && self.flows.flow(number_at(down, count_of(k))) > 0
            {
                self.choose(*before)?;
            }
        }
        Ok(())
    }

    /// Ranks nodes as far as there is as much room as is wanted, and chooses those that lead there. Whether there is any room.
    pub fn rank_all(&mut self, network: &Network, wanted: i64) -> Result<bool, NoMemory> {
        self.find_rooms(network, wanted)?;
        self.lift_rooms();
        let lowest = self.base.saturating_add(self.shift);
        for k in 0..network.nodes() {
            if k >= count_of(self.chosen.len()) {
                break;
            }
            let node = number_at(&self.chosen, k);
            if amount_at(&self.ranks, node) > lowest {
                self.choose_before(network, node)?;
            }
        }
        Ok(self.chosen.len() > 0)
    }

    // So much goes along the whole path, which is cut where no more can.
    fn land(&mut self, node: u32, amount: i64) -> Result<(), NoMemory> {
        self.flows.add_room(node, 0i64.saturating_sub(amount))?;
        let legs = self.path.len();
        let mut kept = legs;
        for (k, leg) in self.path.iter_mut().enumerate() {
            leg.most = leg.most.saturating_sub(amount);
            if leg.most <= 0 && k < kept {
                kept = k;
            }
            if leg.arc != NONE {
                let less = 0i64.saturating_sub(amount);
                let more = if leg.is_back { less } else { amount };
                self.flows.add_flow(leg.arc, more)?;
            }
        }
        self.spend(legs);
        self.path.truncate(kept);
        Ok(())
    }

    // Goes on to a node before the last of the path, if one is of the next rank.
    fn go_down(&mut self, network: &Network, leg: Leg, rank: i64) -> Result<bool, NoMemory> {
        let row = network.earlier(leg.node);
        let from = number_at(&self.nexts, leg.node) as usize;
        if from >= row.len() {
            return Ok(false);
        }
        let k = next_down(&self.ranks, row, rank, from);
        self.spend(k.saturating_sub(from));
        put_number(&mut self.nexts, leg.node, count_of(k));
        let Some(node) = row.get(k) else {
            return Ok(false);
        };
        self.path.push(Leg {
            node: *node,
            most: leg.most,
            arc: number_at(network.down(leg.node), count_of(k)),
            is_back: false,
        })?;
        Ok(true)
    }

    // The same of the nodes after it, from which something flows to it.
    fn go_up(&mut self, network: &Network, leg: Leg, rank: i64) -> Result<bool, NoMemory> {
        let row = network.later(leg.node);
        let first = network.first_up(leg.node);
        let before = network.earlier(leg.node).len();
        let from = (number_at(&self.nexts, leg.node) as usize).saturating_sub(before);
        let k = next_up(&self.ranks, &self.flows, row, first, rank, from);
        self.spend(k.saturating_sub(from));
        put_number(
            &mut self.nexts,
            leg.node,
            count_of(before.saturating_add(k)),
        );
        let Some(node) = row.get(k) else {
            return Ok(false);
        };
        let arc = first.saturating_add(count_of(k));
        self.path.push(Leg {
            node: *node,
            most: leg.most.min(self.flows.flow(arc)),
            arc,
            is_back: true,
        })?;
        Ok(true)
    }

    // The node at the end of the path led nowhere.
    fn step_back(&mut self) {
        self.path.truncate(self.path.len().saturating_sub(1));
        if let Some(leg) = self.path.last() {
            let next = number_at(&self.nexts, leg.node).saturating_add(1);
            put_number(&mut self.nexts, leg.node, next);
        }
    }

    // Goes on from the node at the end of the path, or back from it. How much landed there.
    fn step(&mut self, network: &Network, leg: Leg) -> Result<i64, NoMemory> {
        self.spend(3);
        let amount = leg.most.min(self.flows.room(leg.node));
        if amount > 0 {
            self.land(leg.node, amount)?;
            return Ok(amount);
        }
        let rank = amount_at(&self.ranks, leg.node).saturating_add(1);
        if !self.go_down(network, leg, rank)? && !self.go_up(network, leg, rank)? {
            self.step_back();
        }
        Ok(0)
    }

    // Pushes from a node as much as these ranks let.
    fn push(&mut self, network: &Network, node: u32, most: i64) -> Result<i64, NoMemory> {
        self.path.clear();
        self.path.push(Leg {
            node,
            most,
            arc: NONE,
            is_back: false,
        })?;
        let mut total: i64 = 0;
        for _ in 0..self.effort.left() {
            let Some(leg) = self.path.last().copied() else {
                break;
            };
            total = total.saturating_add(self.step(network, leg)?);
            if self.effort.is_spent() {
                break;
            }
        }
        Ok(total)
    }

    /// Pushes from the source at a place as much as these ranks let. How much it was.
    pub fn push_from(&mut self, network: &Network, place: usize) -> Result<i64, NoMemory> {
        let Some(source) = self.sources.get(place).copied() else {
            return Ok(0);
        };
        if source.left <= 0 || !self.is_chosen(source.node) {
            return Ok(0);
        }
        let pushed = self.push(network, source.node, source.left)?;
        if let Some(source) = self.sources.get_mut(place) {
            source.left = source.left.saturating_sub(pushed);
            source.pushed = source.pushed.saturating_add(pushed);
        }
        Ok(pushed)
    }
}
