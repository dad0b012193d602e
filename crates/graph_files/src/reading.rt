ghost use Rattle.std.specs.Prelude.{MatchResult};
ghost use Rattle.graph_files.specs.GraphFile.{ReadsGraph, IsGraphRefusal};

use crate::kind::GraphKind;
use crate::stated::{Stated, fault_of, read_lines};
use graphs::{Graph, GraphFault, graph_of};
use limits::LimitName;
use mp_text::Refusal;
use std::alloc::Global;

/// The graph that a file states, or why it is refused: the first test that fails in the first line that fails; after all lines, the
/// number of arcs of the completed graph, the lowest task that can't be ordered, then the lowest whose share does not fit.
pub fn read_graph(alloc: Global, bytes: &[u8]) -> Result<Graph, Refusal<GraphKind>>
    ensures { MatchResult result (λ graph. ReadsGraph bytes.now graph) (IsGraphRefusal bytes.now) }
{
    let Stated { tasks, lines, arcs } = read_lines(alloc, bytes)?;
    match graph_of(alloc, tasks, &arcs) {
        Ok(graph) => Ok(graph),
        Err(GraphFault::Arcs) => Err(Refusal::Limit(LimitName::Arcs)),
        Err(GraphFault::Cycle(task)) => Err(fault_of(&lines, task, GraphKind::Cycle)),
        Err(GraphFault::Share(task)) => Err(fault_of(&lines, task, GraphKind::Share)),
        Err(GraphFault::NoMemory) => Err(Refusal::NoMemory),
    }
}
