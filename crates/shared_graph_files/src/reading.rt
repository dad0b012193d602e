ghost use Rattle.std.specs.Prelude.{◌≡◌, IfOk, IfErr, MatchResult};
ghost use Rattle.mp_text.specs.declared.layout.Layout.TheVariants.{Commented};
ghost use Rattle.mp_text.specs.Ahead.{rows_of_bytes};
ghost use Rattle.file_frame.specs.Frame.{line_stating};
ghost use Rattle.shared_graph_files.specs.SharedGraphFile.{ReadsItems, IsItemsRefusal};
ghost use Rattle.shared_graph_files.specs.Stated.{IsStated};

use crate::reader::ItemsReader;
use graph_files::GraphKind;
use mp_system::Task;
use mp_text::{Layout, Lines, Refusal, fault, read_with};
use shared_systems::{SharedFault, SharedItems, SharedSystem, shared_system_of};
use std::alloc::Global;

// The tasks and items that the lines of a file of version 2 state.
fn read_lines(alloc: Global, bytes: &[u8]) -> Result<(Vec<Task>, SharedItems), Refusal<GraphKind>>
    ensures stated { IfOk result (λ s. IsStated bytes.now (record { tasks = s.0.items; items = s.1 })) }
    ensures refused { IfErr result (IsItemsRefusal bytes.now) }
{
    let reader = read_with(bytes, Layout::Commented, ItemsReader::new(alloc))?;
    let ItemsReader { tasks, items, .. } = reader;
    Ok((tasks, items.finish()))
}

// The number of the line that states a task. It goes over the lines again, which only a refusal needs.
fn line_of(bytes: &[u8], task: u32) -> u64
    ensures { result ≡ line_stating (rows_of_bytes Commented bytes.now) task }
{
    let mut lines = Lines::new(bytes, Layout::Commented);
    // the header, the line with the count, and the tasks before this one
    for _before in 0..u64::from(task) + 1 {
        let _ = lines.next_line();
    }
    match lines.next_line() {
        Some(line) => line.number,
        None => 0,
    }
}

/// The system that a file of version 2 states, or why it is refused: the first test that fails in the first line that fails; after all
/// lines, the lowest task that can't be ordered, then the lowest whose share does not fit.
pub fn read_items(alloc: Global, bytes: &[u8]) -> Result<SharedSystem, Refusal<GraphKind>>
    ensures { MatchResult result (λ system. ReadsItems bytes.now system) (IsItemsRefusal bytes.now) }
{
    let (tasks, items) = read_lines(alloc, bytes)?;
    match shared_system_of(alloc, tasks, items) {
        Ok(system) => Ok(system),
        Err(SharedFault::Cycle(task)) => Err(fault(line_of(bytes, task), GraphKind::Cycle)),
        Err(SharedFault::Share(task)) => Err(fault(line_of(bytes, task), GraphKind::Share)),
        Err(SharedFault::NoMemory) => Err(Refusal::NoMemory),
    }
}
