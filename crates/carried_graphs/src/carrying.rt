//! The graph of a system by the last readers of its items.

ghost use Rattle.std.specs.Prelude.{◌≡◌, ◌<◌, ◌++◌, IfOk, IfErr, OnOk, length};
ghost use Rattle.shared_systems.specs.Shared.{shared_item_at};
ghost use Rattle.carried_graphs.specs.Carried.{AreLastReaders, arcs_to, carried, carried_arcs, item_arcs};
ghost use Rattle.carried_graphs.specs.Refusal.{IsCarriedRefusal};

use crate::NoMemory;
use crate::laws::carried_law;
use crate::refusal::CarriedRefusal;
use graphs::{Arc, Graph, GraphFault, graph_of};
use limits::MOST_ARCS;
use shared_systems::{SharedItems, SharedSystem};
use std::alloc::Global;

// The arcs of the item at a place, whose last reader is this one.
fn push_arcs(arcs: &mut Vec<Arc>, items: &SharedItems, i: usize, last: u32) -> Result<(), NoMemory>
    requires { i < length items.now }
    ensures { OnOk result (arcs.new.items ≡ arcs.old.items ++ item_arcs (shared_item_at items.now i) last) }
{
    let from = items.producer(i).unwrap_or(0);
    let size = items.size(i);
    let readers = items.readers(i);
    if readers.is_empty() {
        arcs.push(Arc { from, to: 0, size })?;
    }
    for reader in readers {
        let size = if *reader == last { size } else { 0 };
        arcs.push(Arc {
            from,
            to: *reader,
            size,
        })?;
    }
    Ok(())
}

// The arcs of all items.
fn carried_arcs(alloc: Global, items: &SharedItems, lasts: &[u32]) -> Result<Vec<Arc>, NoMemory>
    requires { length lasts.now ≡ length items.now }
    ensures { IfOk result (λ arcs. arcs.items ≡ carried_arcs lasts.now items.now) }
{
    let mut arcs = Vec::new(alloc);
    for i in 0..items.len() {
        push_arcs(&mut arcs, items, i, lasts[i])?;
    }
    Ok(arcs)
}

/// The graph of a system in which the last readers alone carry the items, by the last reader of each item, 0 for one without readers. It is
/// refused only where it has more arcs than a graph may have, and for want of memory. Linear in the tasks, the items and the readers of
/// all items.
pub fn carried_graph(
    alloc: Global,
    system: &SharedSystem,
    lasts: &[u32],
) -> Result<Graph, CarriedRefusal>
    requires { AreLastReaders system.now lasts.now }
    ensures graph { IfOk result (λ graph. graph ≡ carried lasts.now system.now) }
    ensures refused { IfErr result (IsCarriedRefusal (carried lasts.now system.now)) }
{
    system.keeps();
    carried_law();
    let arcs = carried_arcs(alloc, system.items(), lasts)?;
    if arcs.len() as u64 > MOST_ARCS {
        return Err(CarriedRefusal::Arcs);
    }
    let tasks = Vec::from_slice(alloc, system.tasks())?;
    match graph_of(alloc, tasks, &arcs) {
        Ok(graph) => Ok(graph),
        Err(GraphFault::NoMemory) => Err(CarriedRefusal::NoMemory),
        Err(_) => Err(CarriedRefusal::Arcs),
    }
}
