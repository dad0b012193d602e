ghost use Rattle.std.specs.Prelude.{◌≡◌, ◌≤◌, ◌-◌, length, IfOk, IfErr, slice_index_or};
ghost use Rattle.mp_text.specs.Grammar.{fault_at};
ghost use Rattle.graph_files.specs.GraphFile.{IsGraphRefusal};
ghost use Rattle.graph_files.specs.Stated.{IsStated};

use crate::kind::GraphKind;
use crate::reader::GraphReader;
use graphs::Arc;
use mp_system::Task;
use mp_text::{Layout, Refusal, fault, read_with};
use std::alloc::Global;

/// The graph that the lines state, with the numbers of the lines that state its tasks.
#[derive(Drop)]
pub struct Stated {
    pub tasks: Vec<Task>,
    pub lines: Vec<u64>,
    pub arcs: Vec<Arc>,
}

/// Reads the lines of a file.
pub fn read_lines(alloc: Global, bytes: &[u8]) -> Result<Stated, Refusal<GraphKind>>
    ensures stated { IfOk result (λ s. IsStated bytes.now (record { tasks = s.tasks.items; arcs = s.arcs.items }) s.lines.items) }
    ensures refused { IfErr result (IsGraphRefusal bytes.now) }
{
    let reader = read_with(bytes, Layout::Commented, GraphReader::new(alloc))?;
    let GraphReader {
        tasks,
        lines,
        arcs,
        ..
    } = reader;
    Ok(Stated { tasks, lines, arcs })
}

/// The refusal of the line that states a task.
pub fn fault_of(lines: &[u64], task: u32, kind: GraphKind) -> Refusal<GraphKind>
    requires { (1 ≤ task) × (task ≤ length lines.now) }
    ensures { result ≡ fault_at (slice_index_or lines.now (task - 1) 0) kind }
{
    fault(lines[task as usize - 1], kind)
}
