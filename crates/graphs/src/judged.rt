//! Whether tasks and arcs that are each within the limits are a graph.

ghost use Rattle.std.specs.Prelude.{◌≡◌, length, IfOk, IfErr};
ghost use Rattle.graphs.specs.Graph.{IsGraph, TaskGraph, completed_arcs};
ghost use Rattle.graphs.specs.Judged.{IsGraphFault, IsPlain};

use crate::NoMemory;
use crate::arc::Arc;
use crate::completed::completed_arcs;
use crate::graph::Graph;
use crate::queue::first_unordered;
use crate::shares::first_unfit_share;
use limits::MOST_ARCS;
use mp_system::Task;
use std::alloc::Global;

/// Why tasks and arcs are no graph, where each is within the limits.
#[derive(Clone, Copy, Debug, PartialEq, Eq)]
pub enum GraphFault {
    /// The completed graph has more than 2,000,001 arcs.
    Arcs,
    /// This task, the lowest such, stands in no list of tasks in which all suppliers of each stand before it.
    Cycle(u32),
    /// The share of this task, the lowest such, is greater than what it consumes, or than its extra and what it produces.
    Share(u32),
    /// Memory ran out, which says nothing of the tasks and arcs.
    NoMemory,
}

impl From<NoMemory> for GraphFault {
    ghost use Rattle.graphs.specs.declared.judged.GraphFault.TheVariants.{NoMemory as OutOfMemory};

    ghost from_gives = { λ _ e. e ≡ OutOfMemory };

    fn from(_no_memory: NoMemory) -> GraphFault {
        GraphFault::NoMemory
    }
}

// The arcs of the completed graph, where tasks and arcs are a graph.
fn judge(alloc: Global, tasks: &[Task], arcs: &[Arc]) -> Result<Vec<Arc>, GraphFault>
    requires { IsPlain (record { tasks = tasks.now; arcs = arcs.now }) }
    ensures all { IfOk result (λ all. all.items ≡ completed_arcs (length tasks.now) arcs.now) }
    ensures within { IfOk result (λ _. IsGraph (record { tasks = tasks.now; arcs = arcs.now })) }
    ensures refused { IfErr result (IsGraphFault (record { tasks = tasks.now; arcs = arcs.now })) }
{
    let count = tasks.len() as u32;
    let all = completed_arcs(alloc, count, arcs)?;
    if all.len() as u64 > MOST_ARCS {
        return Err(GraphFault::Arcs);
    }
    if let Some(task) = first_unordered(alloc, count, arcs)? {
        return Err(GraphFault::Cycle(task));
    }
    if let Some(task) = first_unfit_share(alloc, tasks, arcs)? {
        return Err(GraphFault::Share(task));
    }
    Ok(all)
}

/// The graph of these tasks and arcs, or why they are none: that the completed graph has too many arcs, else the lowest task that can't be
/// ordered, else the lowest whose share does not fit. Linear in the tasks and arcs.
///
/// Each of them by itself is within the limits already: at most 10^6 tasks and 2,000,001 arcs; extras, sizes and times of at most 2^40,
/// and times of at least 1; at most 2^60 of extras and sizes in all. The ends of an arc are numbers of tasks or 0, and not the same task.
pub fn graph_of(alloc: Global, tasks: Vec<Task>, arcs: &[Arc]) -> Result<Graph, GraphFault>
    requires { IsPlain (record { tasks = tasks.items; arcs = arcs.now }) }
    ensures graph { IfOk result (λ graph. graph ≡ record { tasks = tasks.items; arcs = arcs.now }) }
    ensures within { IfOk result (λ graph. IsGraph graph) }
    ensures refused { IfErr result (IsGraphFault (record { tasks = tasks.items; arcs = arcs.now })) }
{
    let all = judge(alloc, &tasks, arcs)?;
    Ok(Graph::new(tasks, all, arcs.len()))
}
