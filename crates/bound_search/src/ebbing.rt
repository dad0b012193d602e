//! Flow that ebbs: what was turned elsewhere no longer flows on from where it came.

use crate::NoMemory;
use crate::legs::Source;
use crate::network::Network;
use crate::pusher::Pusher;
use crate::tables::{count_of, number_at};
use std::alloc::Global;

// How much less flows into a node.
#[derive(Clone, Copy, Drop)]
struct Ebb {
    node: u32,
    amount: i64,
}

/// Where less flows in than flows on.
#[derive(Drop)]
pub struct Ebbs {
    list: Vec<Ebb>,
}

impl Ebbs {
    /// Nowhere.
    pub fn new(alloc: Global) -> Ebbs {
        Ebbs {
            list: Vec::new(alloc),
        }
    }

    // So much less flows into a node: it has room again, or less flows on from it.
    fn ebb(&mut self, network: &Network, pusher: &mut Pusher, ebb: Ebb) -> Result<(), NoMemory> {
        let used = network
            .change(ebb.node)
            .saturating_sub(pusher.flows.room(ebb.node));
        let back = ebb.amount.min(used).max(0);
        pusher.flows.add_room(ebb.node, back)?;
        let mut left = ebb.amount.saturating_sub(back);
        let earlier = network.earlier(ebb.node);
        for (k, arc) in network.down(ebb.node).iter().enumerate() {
            if left <= 0 {
                break;
            }
            pusher.spend(1);
            let amount = left.min(pusher.flows.flow(*arc));
            if amount > 0 {
                pusher.flows.add_flow(*arc, 0i64.saturating_sub(amount))?;
                let node = number_at(earlier, count_of(k));
                self.list.push(Ebb { node, amount })?;
                left = left.saturating_sub(amount);
            }
        }
        Ok(())
    }

    // What was pushed from a source no longer flows on from where it flowed before.
    fn ebb_from(
        &mut self,
        network: &Network,
        pusher: &mut Pusher,
        source: Source,
    ) -> Result<(), NoMemory> {
        self.list.push(Ebb {
            node: source.other,
            amount: source.pushed,
        })?;
        for _ in 0..u64::MAX {
            let Some(ebb) = self.list.pop() else {
                break;
            };
            self.ebb(network, pusher, ebb)?;
        }
        Ok(())
    }

    /// The same of all sources.
    pub fn ebb_all(&mut self, network: &Network, pusher: &mut Pusher) -> Result<(), NoMemory> {
        for k in 0..pusher.sources.len() {
            if let Some(source) = pusher.sources.get(k).copied()
                && source.pushed > 0
            {
                self.ebb_from(network, pusher, source)?;
            }
        }
        Ok(())
    }
}
