//! What stays outside as none of a set of tasks may run, and the flow on the rest.

use crate::NoMemory;
use crate::closure::Closure;
use crate::effort::Effort;
use crate::kept_flow::KeptFlow;
use crate::network::Network;
use crate::tables::{is_marked, mark};
use std::alloc::Global;

// Whether a node comes right after one that is marked.
fn is_after(network: &Network, marks: &[bool], node: u32) -> bool {
    network
        .earlier(node)
        .iter()
        .any(|before| is_marked(marks, *before))
}

/// The tasks of a set, and all nodes that come after one of them. Linear.
pub fn outside_of(
    alloc: Global,
    network: &Network,
    order: &[u32],
    set: &[u32],
) -> Result<Vec<bool>, NoMemory> {
    let mut outside = vec![in alloc; false; network.nodes() as usize]?;
    for task in set {
        mark(&mut outside, *task);
    }
    for node in order {
        if is_after(network, &outside, *node) {
            mark(&mut outside, *node);
        }
    }
    Ok(outside)
}

/// The flow with all nodes inside that are not outside.
pub fn flow_within(
    alloc: Global,
    network: &Network,
    order: &[u32],
    outside: &[bool],
    effort: Effort,
) -> Result<KeptFlow, NoMemory> {
    let mut kept = KeptFlow::new(alloc, network, effort)?;
    kept.spend(order.len());
    for node in order {
        if !is_marked(outside, *node) {
            kept.put(network, *node);
        }
    }
    kept.drain_all(network)?;
    Ok(kept)
}

/// What a task needs at least, in any order, and what was spent; none if the effort did not suffice.
pub fn cut_of(
    alloc: Global,
    network: &Network,
    order: &[u32],
    task: u32,
    effort: Effort,
) -> Result<(Option<i64>, Effort), NoMemory> {
    let outside = outside_of(alloc, network, order, &[task])?;
    let mut kept = flow_within(alloc, network, order, &outside, effort)?;
    let mut closure = Closure::new(alloc, network.nodes())?;
    let steps = closure.set(network, kept.dead(), task)?;
    kept.spend(steps);
    let level = kept.force(network, closure.members(), crate::kept_flow::MUCH)?;
    let spent = kept.effort();
    if spent.is_spent() {
        return Ok((None, spent));
    }
    Ok((Some(level.saturating_add(network.need(task))), spent))
}
