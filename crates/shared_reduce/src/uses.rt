//! The graph of uses: an arc of size 0 for each reader of an item.

ghost use Rattle.std.specs.Prelude.{◌≡◌, ◌++◌, ◌<◌, IfOk, IfErr, OnOk, length, map, unwrap_or};
ghost use Rattle.graphs.specs.Graph.{arc_between};
ghost use Rattle.shared_systems.specs.Bounds.{item_arcs, use_arcs};
ghost use Rattle.shared_systems.specs.Shared.{shared_item_at};
ghost use Rattle.carried_graphs.specs.Refusal.{IsCarriedRefusal};
ghost use Rattle.shared_reduce.specs.Uses.{bare, uses_of};

use crate::NoMemory;
use carried_graphs::CarriedRefusal;
use graphs::{Arc, Graph, GraphFault, graph_of};
use limits::MOST_ARCS;
use mp_system::Task;
use shared_systems::{SharedItems, SharedSystem};
use std::alloc::Global;

// The arcs of the item at a place.
fn push_arcs(arcs: &mut Vec<Arc>, items: &SharedItems, i: usize) -> Result<(), NoMemory>
    requires { i < length items.now }
    ensures { OnOk result (arcs.new.items ≡ arcs.old.items ++ item_arcs (shared_item_at items.now i)) }
{
    let from = items.producer(i).unwrap_or(0);
    let readers = items.readers(i);
    for reader in readers {
        arcs.push(Arc {
            from,
            to: *reader,
            size: 0,
        })?;
    }
    Ok(())
}

// The arcs of all items.
fn use_arcs(alloc: Global, items: &SharedItems) -> Result<Vec<Arc>, NoMemory>
    ensures { IfOk result (λ arcs. arcs.items ≡ use_arcs items.now) }
{
    let mut arcs = Vec::new(alloc);
    for i in 0..items.len() {
        push_arcs(&mut arcs, items, i)?;
    }
    Ok(arcs)
}

const BARE: Task = Task {
    extra: 0,
    share: 0,
    time: 1,
};

/// The graph of uses. It is refused only where it has more arcs than a graph may have, and for want of memory. Linear in the tasks, the
/// items and the readers of all items.
pub fn use_graph(alloc: Global, system: &SharedSystem) -> Result<Graph, CarriedRefusal>
    ensures graph { IfOk result (λ graph. graph ≡ uses_of system.now) }
    ensures refused { IfErr result (IsCarriedRefusal (uses_of system.now)) }
{
    system.keeps();
    let arcs = use_arcs(alloc, system.items())?;
    if arcs.len() as u64 > MOST_ARCS {
        return Err(CarriedRefusal::Arcs);
    }
    let tasks = vec![in alloc; BARE; system.tasks().len()]?;
    match graph_of(alloc, tasks, &arcs) {
        Ok(graph) => Ok(graph),
        Err(GraphFault::NoMemory) => Err(CarriedRefusal::NoMemory),
        Err(_) => Err(CarriedRefusal::Arcs),
    }
}
