//! Nodes are joined as long as that loses nothing: one after another (series), with the same neighbours (twins), one that frees right after
//! the one that it waits for, and one that takes up more right before the one that waits for it. What may run at once when all that it
//! waits for is done comes before all that waits for these.
//!
//! Abdel-Wahab and Kameda 1978; Kayaaslan et al. 2018. That it loses nothing is not promised: what is found is judged.

use crate::NoMemory;
use crate::chains::{Chains, NOTHING, Segment, never_falls, never_rises, total_of};
use crate::effort::Effort;
use crate::implied::drop_implied;
use crate::links::{Links, NONE};
use crate::network::Network;
use crate::reach::Reach;
use crate::tables::{count_of, is_marked, mark, number_at, put_number};
use std::alloc::Global;
use std::mem;

// How far is looked back to see whether an arc is implied, and how many nodes are tried for one rule.
const FAR: u32 = 200;

const TRIES: u32 = 30;

const MANY: u32 = 2_000;

// After so many rounds what is left stays.
const MOST_ROUNDS: u32 = 16;

/// A network that is being reduced.
#[derive(Drop)]
pub struct Reduction {
    pub links: Links,
    pub chains: Chains,
    segments: Vec<Vec<Segment>>,
    gone: Vec<bool>,
    reach: Reach,
    twins: Vec<Twin>,
    list: Vec<u32>,
    others: Vec<u32>,
}

// A node with what tells its neighbours.
#[derive(Clone, Copy, Debug, PartialEq, Eq, PartialOrd, Ord, Drop)]
struct Twin {
    in_key: u64,
    out_key: u64,
    ins: u32,
    outs: u32,
    node: u32,
}

impl Twin {
    fn is_like(&self, other: &Twin) -> bool {
        self.in_key == other.in_key
            && self.out_key == other.out_key
            && self.ins == other.ins
            && self.outs == other.outs
    }
}

const NO_TWIN: Twin = Twin {
    in_key: 0,
    out_key: 0,
    ins: 0,
    outs: 0,
    node: NONE,
};

impl Reduction {
    /// Each node by itself.
    pub fn new(alloc: Global, network: &Network, effort: Effort) -> Result<Reduction, NoMemory> {
        let nodes = network.nodes();
        let mut segments = Vec::with_capacity(alloc, nodes as usize)?;
        for node in 0..nodes {
            let mut chain = Vec::new(alloc);
            chain.push(Segment {
                need: network.need(node),
                change: network.change(node),
                head: node,
                tail: node,
            })?;
            segments.push(chain)?;
        }
        Ok(Reduction {
            links: Links::new(alloc, network)?,
            chains: Chains::new(alloc, nodes)?,
            segments,
            gone: vec![in alloc; false; nodes as usize]?,
            reach: Reach::new(alloc, nodes, effort)?,
            twins: Vec::new(alloc),
            list: Vec::new(alloc),
            others: Vec::new(alloc),
        })
    }

    /// Whether a node was joined to another.
    pub fn is_gone(&self, node: u32) -> bool {
        is_marked(&self.gone, node)
    }

    /// The chain of a node.
    pub fn chain(&self, node: u32) -> &[Segment] {
        match self.segments.get(node as usize) {
            Some(chain) => chain,
            None => &[],
        }
    }

    fn take_chain(&mut self, alloc: Global, node: u32) -> Vec<Segment> {
        match self.segments.get_mut(node as usize) {
            Some(chain) => mem::replace(chain, Vec::new(alloc)),
            None => Vec::new(alloc),
        }
    }

    fn put_chain(&mut self, node: u32, chain: Vec<Segment>) {
        if let Some(place) = self.segments.get_mut(node as usize) {
            *place = chain;
        }
    }

    fn first_of(&self, node: u32) -> Segment {
        self.chain(node).first().copied().unwrap_or(NOTHING)
    }

    fn last_of(&self, node: u32) -> Segment {
        self.chain(node).last().copied().unwrap_or(NOTHING)
    }

    // Joins a node to the one before it, which alone it waits for, and which nothing else waits for.
    fn join_series(&mut self, alloc: Global, first: u32, second: u32) -> Result<(), NoMemory> {
        let mut chain = self.take_chain(alloc, first);
        let more = self.take_chain(alloc, second);
        for segment in &more {
            chain.push(*segment)?;
        }
        self.reach.effort.spend(chain.len());
        self.chains.make_normal(&mut chain)?;
        self.put_chain(first, chain);
        self.links.list_after(second, &mut self.list)?;
        self.links.clear(second);
        for k in 0..count_of(self.list.len()) {
            let later = number_at(&self.list, k);
            self.links.add(first, later)?;
        }
        self.reach.effort.spend(self.list.len());
        mark(&mut self.gone, second);
        Ok(())
    }

    // The nodes of a list with what tells their neighbours.
    fn find_twins(&mut self) -> Result<(), NoMemory> {
        self.twins.clear();
        for node in &self.list {
            let (in_key, out_key) = self.links.keys(*node);
            self.twins.push(Twin {
                in_key,
                out_key,
                ins: self.links.ins(*node),
                outs: self.links.outs(*node),
                node: *node,
            })?;
        }
        self.reach.effort.spend(self.list.len().saturating_mul(8));
        self.twins.sort_unstable();
        Ok(())
    }

    fn twin(&self, place: usize) -> Twin {
        self.twins.get(place).copied().unwrap_or(NO_TWIN)
    }

    // How many from a place on have the same neighbours.
    fn alike(&self, from: usize) -> usize {
        let first = self.twin(from);
        let mut count: usize = 0;
        for place in from..self.twins.len() {
            if !self.twin(place).is_like(&first) {
                break;
            }
            count = count.saturating_add(1);
        }
        count
    }

    // Joins so many twins from a place on.
    fn join_twins(&mut self, alloc: Global, from: usize, count: usize) -> Result<(), NoMemory> {
        let kept = self.twin(from).node;
        self.chains.begin_merge();
        for place in from..from.saturating_add(count) {
            let node = self.twin(place).node;
            let chain = self.take_chain(alloc, node);
            self.reach.effort.spend(chain.len().saturating_mul(8));
            self.chains.merge(&chain)?;
            if node != kept {
                self.reach.effort.spend(
                    self.links.outs(node).saturating_add(self.links.ins(node)) as usize,
                );
                self.links.clear(node);
                mark(&mut self.gone, node);
            }
        }
        let mut chain = Vec::new(alloc);
        self.chains.end_merge(&mut chain)?;
        self.put_chain(kept, chain);
        Ok(())
    }

    // Joins the twins among the nodes of a list. Whether there were any.
    fn join_listed(&mut self, alloc: Global) -> Result<bool, NoMemory> {
        if self.list.len() < 2 {
            return Ok(false);
        }
        self.find_twins()?;
        let mut is_any = false;
        let mut from: usize = 0;
        for _ in 0..self.twins.len() {
            let count = self.alike(from);
            if count == 0 {
                break;
            }
            if count > 1 {
                self.join_twins(alloc, from, count)?;
                is_any = true;
            }
            from = from.saturating_add(count);
        }
        Ok(is_any)
    }

    // Whether a node is found before another one, or is right before it.
    fn is_before(&mut self, earlier: u32, later: u32, most: u32) -> Result<bool, NoMemory> {
        self.reach.effort.spend(self.links.outs(earlier).min(self.links.ins(later)) as usize);
        Ok(
            self.links.has(earlier, later)
                || self.reach.comes_before(&self.links, earlier, later, most)?,
        )
    }

    // Joins to a node the one that alone it waits for.
    fn join_after(&mut self, alloc: Global, first: u32, second: u32) -> Result<(), NoMemory> {
        let more = self.take_chain(alloc, second);
        let more = self.chains.join_all(&more);
        let mut chain = self.take_chain(alloc, first);
        let last = chain.pop().unwrap_or(NOTHING);
        chain.push(self.chains.join(last, more))?;
        self.chains.make_normal(&mut chain)?;
        self.put_chain(first, chain);
        self.links.list_after(second, &mut self.others)?;
        self.links.clear(second);
        mark(&mut self.gone, second);
        for k in 0..count_of(self.others.len()) {
            let later = number_at(&self.others, k);
            if !self.is_before(first, later, FAR)? {
                self.links.add(first, later)?;
            }
        }
        Ok(())
    }

    // The mirror image: joins to a node the one that alone waits for it.
    fn join_before(&mut self, alloc: Global, first: u32, second: u32) -> Result<(), NoMemory> {
        let start = self.take_chain(alloc, first);
        let start = self.chains.join_all(&start);
        let rest = self.take_chain(alloc, second);
        let mut chain = Vec::with_capacity(alloc, rest.len())?;
        let mut is_first = true;
        for segment in &rest {
            if is_first {
                chain.push(self.chains.join(start, *segment))?;
            } else {
                chain.push(*segment)?;
            }
            is_first = false;
        }
        self.chains.make_normal(&mut chain)?;
        self.put_chain(second, chain);
        self.links.list_before(first, &mut self.others)?;
        self.links.clear(first);
        mark(&mut self.gone, first);
        for k in 0..count_of(self.others.len()) {
            let earlier = number_at(&self.others, k);
            if !self.is_before(earlier, second, FAR)? {
                self.links.add(earlier, second)?;
            }
        }
        Ok(())
    }

    // Whether a node can run right after each of those that it waits for, within what that needs.
    fn fits_after(&self, node: u32) -> bool {
        if !never_rises(self.chain(node)) {
            return false;
        }
        let (need, _) = total_of(self.chain(node));
        let mut arc = self.links.first_in(node);
        for _ in 0..self.links.ins(node) {
            let last = self.last_of(self.links.earlier(arc));
            if last.change.saturating_add(need) > last.need {
                return false;
            }
            arc = self.links.next_in(arc);
        }
        true
    }

    // The mirror image.
    fn fits_before(&self, node: u32) -> bool {
        if !never_falls(self.chain(node)) {
            return false;
        }
        let (need, change) = total_of(self.chain(node));
        let mut arc = self.links.first_out(node);
        for _ in 0..self.links.outs(node) {
            let first = self.first_of(self.links.later(arc));
            if need > change.saturating_add(first.need) {
                return false;
            }
            arc = self.links.next_out(arc);
        }
        true
    }

    // Of the nodes right before one, the one that fewest wait for.
    fn rarest_before(&self, node: u32) -> u32 {
        let mut arc = self.links.first_in(node);
        let mut rarest = self.links.earlier(arc);
        for _ in 0..self.links.ins(node) {
            let earlier = self.links.earlier(arc);
            if self.links.outs(earlier) < self.links.outs(rarest) {
                rarest = earlier;
            }
            arc = self.links.next_in(arc);
        }
        rarest
    }

    // The mirror image.
    fn rarest_after(&self, node: u32) -> u32 {
        let mut arc = self.links.first_out(node);
        let mut rarest = self.links.later(arc);
        for _ in 0..self.links.outs(node) {
            let later = self.links.later(arc);
            if self.links.ins(later) < self.links.ins(rarest) {
                rarest = later;
            }
            arc = self.links.next_out(arc);
        }
        rarest
    }

    // Whether a node comes after all of the others at hand.
    fn is_after_all(&mut self, other: u32) -> Result<bool, NoMemory> {
        let mut far: u32 = 0;
        for k in 0..count_of(self.others.len()) {
            let earlier = number_at(&self.others, k);
            if self.links.has(earlier, other) {
                continue;
            }
            far = far.saturating_add(1);
            if far > 20 || !self.reach.comes_before(&self.links, earlier, other, FAR)? {
                return Ok(false);
            }
        }
        Ok(true)
    }

    // The mirror image.
    fn is_before_all(&mut self, other: u32) -> Result<bool, NoMemory> {
        let mut far: u32 = 0;
        for k in 0..count_of(self.others.len()) {
            let later = number_at(&self.others, k);
            if self.links.has(other, later) {
                continue;
            }
            far = far.saturating_add(1);
            if far > 20 || !self.reach.comes_before(&self.links, other, later, FAR)? {
                return Ok(false);
            }
        }
        Ok(true)
    }

    // Drops the arcs from all that a node waits for to another. Whether there were any.
    fn drop_to(&mut self, other: u32) -> bool {
        let mut is_any = false;
        for k in 0..count_of(self.others.len()) {
            let arc = self.links.find(number_at(&self.others, k), other);
            if arc != NONE {
                self.links.remove(arc);
                is_any = true;
            }
        }
        is_any
    }

    // The mirror image.
    fn drop_from(&mut self, other: u32) -> bool {
        let mut is_any = false;
        for k in 0..count_of(self.others.len()) {
            let arc = self.links.find(other, number_at(&self.others, k));
            if arc != NONE {
                self.links.remove(arc);
                is_any = true;
            }
        }
        is_any
    }

    // A node that may run at once comes before another that comes after all that it waits for. Whether an arc changed.
    fn hurry_before(&mut self, node: u32, other: u32) -> Result<bool, NoMemory> {
        if other == node || !self.is_after_all(other)? {
            return Ok(false);
        }
        if self.reach.comes_before(&self.links, node, other, FAR)? {
            return Ok(self.drop_to(other));
        }
        if self.reach.comes_before(&self.links, other, node, FAR)? {
            return Ok(false);
        }
        self.drop_to(other);
        self.links.add(node, other)?;
        Ok(true)
    }

    // The mirror image.
    fn delay_after(&mut self, node: u32, other: u32) -> Result<bool, NoMemory> {
        if other == node || !self.is_before_all(other)? {
            return Ok(false);
        }
        if self.reach.comes_before(&self.links, other, node, FAR)? {
            return Ok(self.drop_from(other));
        }
        if self.reach.comes_before(&self.links, node, other, FAR)? {
            return Ok(false);
        }
        self.drop_from(other);
        self.links.add(other, node)?;
        Ok(true)
    }

    // What may run at once when all that it waits for is done comes before what waits for all of these.
    fn hurry(&mut self, node: u32) -> Result<bool, NoMemory> {
        if self.links.ins(node) < 2 || !self.fits_after(node) {
            return Ok(false);
        }
        self.reach.effort.spend(self.links.ins(node) as usize);
        let rarest = self.rarest_before(node);
        if self.links.outs(rarest) > MANY {
            return Ok(false);
        }
        self.links.list_before(node, &mut self.others)?;
        self.links.list_after(rarest, &mut self.list)?;
        let mut is_any = false;
        for k in 0..count_of(self.list.len()).min(TRIES) {
            let other = number_at(&self.list, k);
            is_any = self.hurry_before(node, other)? || is_any;
        }
        Ok(is_any)
    }

    // The mirror image.
    fn delay(&mut self, node: u32) -> Result<bool, NoMemory> {
        if self.links.outs(node) < 2 || !self.fits_before(node) {
            return Ok(false);
        }
        self.reach.effort.spend(self.links.outs(node) as usize);
        let rarest = self.rarest_after(node);
        if self.links.ins(rarest) > MANY {
            return Ok(false);
        }
        self.links.list_after(node, &mut self.others)?;
        self.links.list_before(rarest, &mut self.list)?;
        let mut is_any = false;
        for k in 0..count_of(self.list.len()).min(TRIES) {
            let other = number_at(&self.list, k);
            is_any = self.delay_after(node, other)? || is_any;
        }
        Ok(is_any)
    }

    // The rules for what a node waits for. Whether one of them did something.
    fn look_back(&mut self, alloc: Global, node: u32) -> Result<bool, NoMemory> {
        self.links.list_before(node, &mut self.list)?;
        let is_any = self.join_listed(alloc)?;
        if self.links.ins(node) == 1 {
            let earlier = self.links.earlier(self.links.first_in(node));
            if self.links.outs(earlier) == 1 {
                self.join_series(alloc, earlier, node)?;
                return Ok(true);
            }
            if self.fits_after(node) {
                self.join_after(alloc, earlier, node)?;
                return Ok(true);
            }
        }
        Ok(self.hurry(node)? || is_any)
    }

    // The rules for what waits for a node.
    fn look_on(&mut self, alloc: Global, node: u32) -> Result<bool, NoMemory> {
        self.links.list_after(node, &mut self.list)?;
        let is_any = self.join_listed(alloc)?;
        if self.links.outs(node) == 1 {
            let later = self.links.later(self.links.first_out(node));
            if self.links.ins(later) == 1 {
                self.join_series(alloc, node, later)?;
                return Ok(true);
            }
            if self.fits_before(node) {
                self.join_before(alloc, node, later)?;
                return Ok(true);
            }
        }
        Ok(self.delay(node)? || is_any)
    }

    /// The nodes that are left, each after all that it waits for.
    pub fn order(&self, alloc: Global) -> Result<Vec<u32>, NoMemory> {
        let nodes = self.links.nodes();
        let mut missing = Vec::with_capacity(alloc, nodes as usize)?;
        let mut order = Vec::with_capacity(alloc, nodes as usize)?;
        for node in 0..nodes {
            missing.push(self.links.ins(node))?;
            if self.links.ins(node) == 0 && !self.is_gone(node) {
                order.push(node)?;
            }
        }
        for place in 0..nodes {
            if place >= count_of(order.len()) {
                break;
            }
            let node = number_at(&order, place);
            let mut arc = self.links.first_out(node);
            for _ in 0..self.links.outs(node) {
                let later = self.links.later(arc);
                let left = number_at(&missing, later).saturating_sub(1);
                put_number(&mut missing, later, left);
                if left == 0 {
                    order.push(later)?;
                }
                arc = self.links.next_out(arc);
            }
        }
        Ok(order)
    }

    // The nodes without any neighbours are twins of each other.
    fn join_alone(&mut self, alloc: Global, order: &[u32]) -> Result<bool, NoMemory> {
        self.list.clear();
        for node in order {
            if !self.is_gone(*node) && self.links.ins(*node) == 0 && self.links.outs(*node) == 0 {
                self.list.push(*node)?;
            }
        }
        self.join_listed(alloc)
    }

    // All rules once for each node, forwards and backwards. Whether one of them did something.
    fn round(&mut self, alloc: Global) -> Result<bool, NoMemory> {
        let mut is_any = false;
        let order = self.order(alloc)?;
        for node in &order {
            if !self.is_gone(*node) && !self.reach.effort.is_spent() {
                is_any = self.look_back(alloc, *node)? || is_any;
            }
        }
        let order = self.order(alloc)?;
        for node in order.iter().rev() {
            if !self.is_gone(*node) && !self.reach.effort.is_spent() {
                is_any = self.look_on(alloc, *node)? || is_any;
            }
        }
        self.reach.effort.spend(order.len().saturating_mul(8));
        Ok(self.join_alone(alloc, &order)? || is_any)
    }

    /// Joins what can be joined, within an effort.
    pub fn run(&mut self, alloc: Global) -> Result<(), NoMemory> {
        let order = self.order(alloc)?;
        let mut effort = self.reach.effort;
        drop_implied(alloc, &mut self.links, &order, &mut effort)?;
        self.reach.effort = effort;
        for _ in 0..MOST_ROUNDS {
            if self.reach.effort.is_spent() || !self.round(alloc)? {
                break;
            }
        }
        Ok(())
    }

    /// What was spent.
    pub fn effort(&self) -> Effort {
        self.reach.effort
    }
}
