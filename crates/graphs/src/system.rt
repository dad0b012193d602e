ghost use Rattle.std.specs.Prelude.{◌≡◌, IfOk, map};
ghost use Rattle.graphs.specs.Graph.{item_of_arc, end_of, completed_system};

use crate::NoMemory;
use crate::arc::Arc;
use crate::graph::Graph;
use mp_system::{Item, System};
use std::alloc::Global;

// The task at an end of an arc, if there is one.
fn end_of(number: u32) -> Option<u32>
    ensures { result ≡ end_of number }
{
    (number != 0).then_some(number)
}

fn items_of(alloc: Global, arcs: &[Arc]) -> Result<Vec<Item>, NoMemory>
    ensures { IfOk result (λ items. items.items ≡ map item_of_arc arcs.now) }
{
    arcs.iter()
        .map(|arc| Item {
            size: arc.size,
            from: end_of(arc.from),
            to: end_of(arc.to),
        })
        .collect(alloc)
}

/// The system of the completed graph: one item for each of its arcs. Its traversals are those of the graph's own system, with the
/// same peaks.
pub fn system_of_graph(alloc: Global, graph: &Graph) -> Result<System, NoMemory>
    ensures { IfOk result (λ system. system ≡ completed_system graph.now) }
{
    let tasks = Vec::from_slice(alloc, graph.tasks())?;
    let items = items_of(alloc, graph.completed_arcs())?;
    Ok(System::new(tasks, items))
}
