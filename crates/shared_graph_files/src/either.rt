ghost use Rattle.std.specs.Prelude.{◌≡◌, MatchResult};
ghost use Rattle.shared_graph_files.specs.EitherVersion.{is_second, StatesEither, ReadsSharedGraph, IsSharedGraphRefusal};

use crate::header::says_second;
use crate::reading::read_items;
use graph_files::{GraphKind, read_graph};
use graphs::Graph;
use mp_text::{Layout, Lines, Refusal};
use shared_systems::SharedSystem;
use std::alloc::Global;

/// What a graph file states.
#[derive(Drop)]
pub enum EitherGraph {
    /// Arcs between tasks: a file of version 1.
    Arcs(Graph),
    /// Items with any number of readers: a file of version 2.
    Items(SharedSystem),
}

// Whether the first line says version 2.
fn is_second(bytes: &[u8]) -> bool
    ensures { result ≡ is_second bytes.now }
{
    match Lines::new(bytes, Layout::Commented).next_line() {
        Some(line) => says_second(line),
        None => false,
    }
}

/// What a graph file of version 1 or 2 states, or why it is refused: the first test that fails in the first line that fails; after all
/// lines, the lowest task that can't be ordered, then the lowest whose share does not fit. A file whose first line does not say version 2 is
/// read as one of version 1. Near linear in the bytes.
pub fn read_either_graph(alloc: Global, bytes: &[u8]) -> Result<EitherGraph, Refusal<GraphKind>>
    ensures { MatchResult result (λ stated. StatesEither bytes.now stated) (IsSharedGraphRefusal bytes.now) }
{
    if is_second(bytes) {
        return Ok(EitherGraph::Items(read_items(alloc, bytes)?));
    }
    Ok(EitherGraph::Arcs(read_graph(alloc, bytes)?))
}

/// The system that a graph file of version 1 or 2 states, or why it is refused, as [`read_either_graph`] says. Near linear in the bytes.
pub fn read_shared_graph(alloc: Global, bytes: &[u8]) -> Result<SharedSystem, Refusal<GraphKind>>
    ensures { MatchResult result (λ system. ReadsSharedGraph bytes.now system) (IsSharedGraphRefusal bytes.now) }
{
    match read_either_graph(alloc, bytes)? {
        EitherGraph::Arcs(graph) => Ok(SharedSystem::of_graph(alloc, &graph)?),
        EitherGraph::Items(system) => Ok(system),
    }
}
