//! Orders of several kinds, forwards and backwards, of which the best few are kept, and improved.

use crate::NoMemory;
use crate::depth_first::{Roots, Sharing, by_estimates, depth_first};
use crate::effort::Effort;
use crate::greedy::{Cost, Taste, greedy_order};
use crate::improve::{Depth, improved};
use crate::network::Network;
use crate::polish::polished;
use crate::pool::{Candidate, Pool};
use crate::ready::{Rule, ready_order};
use crate::walk::{backwards, peak_along, with_collectors};
use std::alloc::Global;

const RULES: [Rule; 4] = [Rule::Number, Rule::Change, Rule::Oldest, Rule::Newest];

/// A network, its mirror image, and the best orders so far.
#[derive(Drop)]
pub struct Portfolio {
    network: Network,
    mirrored: Network,
    pool: Pool,
    // An order with at most this peak is good enough.
    enough: i64,
    pub effort: Effort,
}

impl Portfolio {
    /// Begins with one order.
    pub fn new(
        alloc: Global,
        network: Network,
        start: &[u32],
        enough: i64,
        effort: Effort,
    ) -> Result<Portfolio, NoMemory> {
        let mirrored = network.mirror(alloc)?;
        let mut portfolio = Portfolio {
            network,
            mirrored,
            pool: Pool::new(alloc),
            enough,
            effort,
        };
        portfolio.offer(alloc, start, false)?;
        Ok(portfolio)
    }

    /// The network.
    pub fn network(&self) -> &Network {
        &self.network
    }

    /// The best order so far.
    pub fn best(&self) -> &[u32] {
        self.pool.at(0)
    }

    /// Whether the best order is good enough, or the effort is spent.
    pub fn is_over(&self) -> bool {
        self.effort.is_spent() || self.pool.peak(0) <= self.enough
    }

    // The network, or its mirror image.
    fn side(&self, is_mirrored: bool) -> &Network {
        if is_mirrored {
            &self.mirrored
        } else {
            &self.network
        }
    }

    // What a pass over the network costs, so many times.
    fn spend(&mut self, times: usize) {
        let steps = self.network.size().saturating_mul(times);
        self.effort.spend(steps);
    }

    /// Keeps an order, if it is among the best; of the mirror image from its last to its first. An order that leaves nodes out is not kept.
    pub fn offer(
        &mut self,
        alloc: Global,
        order: &[u32],
        is_mirrored: bool,
    ) -> Result<(), NoMemory> {
        self.spend(4);
        let woven = if is_mirrored {
            let order = backwards(alloc, order)?;
            with_collectors(alloc, &self.network, &order)?
        } else {
            with_collectors(alloc, &self.network, order)?
        };
        if woven.len() != self.network.nodes() as usize {
            return Ok(());
        }
        let peak = peak_along(&self.network, &woven);
        self.pool.offer(peak, woven)
    }

    // By the rules for what runs next.
    fn try_rules(&mut self, alloc: Global, is_mirrored: bool) -> Result<(), NoMemory> {
        for rule in RULES {
            if self.is_over() {
                break;
            }
            self.spend(8);
            let order = ready_order(alloc, self.side(is_mirrored), rule)?;
            self.offer(alloc, &order, is_mirrored)?;
        }
        Ok(())
    }

    // Depth first in the order of a list.
    fn try_listing(
        &mut self,
        alloc: Global,
        listing: &[u32],
        roots: Roots,
        is_mirrored: bool,
    ) -> Result<(), NoMemory> {
        if self.is_over() {
            return Ok(());
        }
        self.spend(8);
        let order = depth_first(alloc, self.side(is_mirrored), listing, roots)?;
        self.offer(alloc, &order, is_mirrored)
    }

    // Depth first by the numbers of tasks, up and down.
    fn try_numbers(&mut self, alloc: Global, is_mirrored: bool) -> Result<(), NoMemory> {
        let tasks = self.network.tasks();
        for is_falling in [false, true] {
            let mut listing: Vec<u32> = (tasks..self.network.nodes()).collect(alloc)?;
            for k in 0..tasks {
                let task = if is_falling {
                    tasks.saturating_sub(k).saturating_sub(1)
                } else {
                    k
                };
                listing.push(task)?;
            }
            self.try_listing(alloc, &listing, Roots::Tasks, is_mirrored)?;
            self.try_listing(alloc, &listing, Roots::All, is_mirrored)?;
        }
        Ok(())
    }

    // Depth first by what is estimated to be needed.
    fn try_estimates(&mut self, alloc: Global, is_mirrored: bool) -> Result<(), NoMemory> {
        for sharing in [Sharing::Whole, Sharing::Parts] {
            if self.is_over() {
                break;
            }
            self.spend(16);
            let order = if is_mirrored {
                backwards(alloc, self.best())?
            } else {
                Vec::from_slice(alloc, self.best())?
            };
            let listing = by_estimates(alloc, self.side(is_mirrored), &order, sharing)?;
            self.try_listing(alloc, &listing, Roots::All, is_mirrored)?;
        }
        Ok(())
    }

    /// The plain orders, in both directions. Near linear.
    pub fn try_plain(&mut self, alloc: Global) -> Result<(), NoMemory> {
        for is_mirrored in [false, true] {
            self.try_rules(alloc, is_mirrored)?;
            self.try_numbers(alloc, is_mirrored)?;
            self.try_estimates(alloc, is_mirrored)?;
        }
        Ok(())
    }

    // Greedily, in both directions.
    fn try_greedy(&mut self, alloc: Global, taste: Taste) -> Result<(), NoMemory> {
        for is_mirrored in [false, true] {
            if self.is_over() {
                break;
            }
            self.spend(4);
            let most = Effort::new(self.effort.left());
            let (order, spent) = greedy_order(alloc, self.side(is_mirrored), taste, most)?;
            self.effort.add(spent);
            self.offer(alloc, &order, is_mirrored)?;
        }
        Ok(())
    }

    /// Greedily, with closures of so many nodes, by what these cost.
    pub fn try_tastes(&mut self, alloc: Global, most: u32, cost: Cost) -> Result<(), NoMemory> {
        for aims_at_collectors in [true, false] {
            for has_credit in [false, true] {
                self.try_greedy(
                    alloc,
                    Taste {
                        most,
                        cost,
                        has_credit,
                        aims_at_collectors,
                    },
                )?;
            }
        }
        Ok(())
    }

    // One of the orders that were kept, changed without a higher peak: forwards or backwards.
    fn polished(
        &mut self,
        alloc: Global,
        order: &[u32],
        is_mirrored: bool,
    ) -> Result<Vec<u32>, NoMemory> {
        self.spend(8);
        if !is_mirrored {
            return polished(alloc, &self.network, order);
        }
        let order = backwards(alloc, order)?;
        let order = polished(alloc, &self.mirrored, &order)?;
        backwards(alloc, &order)
    }

    // Improves one of the orders that were kept, until that and a change in between give nothing more a few times.
    fn improve_one(&mut self, alloc: Global, place: usize, depth: Depth) -> Result<(), NoMemory> {
        if self.is_over() || self.pool.states(place) >= depth.states {
            return Ok(());
        }
        let mut order = Vec::from_slice(alloc, self.pool.at(place))?;
        let mut peak = self.pool.peak(place);
        let mut idle: u32 = 0;
        for round in 0u32..64 {
            if idle > 2 || peak <= self.enough || self.effort.is_spent() {
                break;
            }
            if round > 0 {
                order = self.polished(alloc, &order, round % 2 == 0)?;
            }
            let mut effort = self.effort;
            order = improved(
                alloc,
                &self.network,
                &order,
                self.enough,
                depth,
                &mut effort,
            )?;
            self.effort = effort;
            let found = peak_along(&self.network, &order);
            idle = if found < peak {
                0
            } else {
                idle.saturating_add(1)
            };
            peak = peak.min(found);
        }
        let found = Candidate {
            peak: peak_along(&self.network, &order),
            order,
            states: depth.states,
        };
        self.pool.put(place, found);
        Ok(())
    }

    /// Improves the best of the orders that were kept, so many of them.
    pub fn improve(&mut self, alloc: Global, count: usize, depth: Depth) -> Result<(), NoMemory> {
        for place in 0..self.pool.len().min(count) {
            self.improve_one(alloc, place, depth)?;
        }
        self.pool.sort();
        Ok(())
    }
}
