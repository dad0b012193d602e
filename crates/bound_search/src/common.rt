//! What comes before all tasks of a set.

use crate::NoMemory;
use crate::closure::Closure;
use crate::kept_flow::KeptFlow;
use crate::network::Network;
use crate::tables::mark;
use std::alloc::Global;

/// What comes before all tasks of a set.
pub fn common_of(
    alloc: Global,
    network: &Network,
    kept: &mut KeptFlow,
    closure: &mut Closure,
    set: &[u32],
) -> Result<Vec<u32>, NoMemory> {
    let mut common = Vec::new(alloc);
    for (k, task) in set.iter().enumerate() {
        let steps = closure.set(network, kept.dead(), *task)?;
        kept.spend(steps.saturating_add(common.len()));
        common = if k == 0 {
            Vec::from_slice(alloc, closure.members())?
        } else {
            members_of(alloc, closure, &common)?
        };
        if common.len() == 0 || kept.effort().is_spent() {
            break;
        }
    }
    Ok(common)
}

// Those nodes of a list that are in a closure.
fn members_of(alloc: Global, closure: &Closure, nodes: &[u32]) -> Result<Vec<u32>, NoMemory> {
    let mut members = Vec::new(alloc);
    for node in nodes {
        if closure.has(*node) {
            members.push(*node)?;
        }
    }
    Ok(members)
}

/// A mark for each of so many places: whether it is one of these.
pub fn marked(alloc: Global, count: u32, places: &[u32]) -> Result<Vec<bool>, NoMemory> {
    let mut marks = vec![in alloc; false; count as usize]?;
    for place in places {
        mark(&mut marks, *place);
    }
    Ok(marks)
}
