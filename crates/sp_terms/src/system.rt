ghost use Rattle.std.specs.Prelude.{◌≡◌, ◌++◌, None, IfOk, replicate};
ghost use Rattle.sp_terms.specs.Values.{IsTerms, term_of};
ghost use Rattle.sp_terms.specs.SystemOfTerm.{system_of_term, items_of_term, task_count};
ghost use Rattle.sp_terms.specs.Pending.{tasks_in};

use crate::NoMemory;
use crate::position::Position;
use crate::terms::TermList;
use mp_system::{Item, System, Task};
use std::alloc::Global;

/// The system of a term: one item for each data position, in order, and the tasks in the order of their positions. The task of a
/// series consumes what its first part leaves, and produces what its second part starts with.
pub fn system_of(alloc: Global, terms: &TermList) -> Result<System, NoMemory>
    ensures { IfOk result (λ s. s ≡ system_of_term (term_of terms.now)) }
{
    let positions = terms.positions();
    let tasks = tasks_of(alloc, positions)?;
    let items = items_of(alloc, positions, tasks.len() as u32)?;
    Ok(System::new(tasks, items))
}

// The tasks, in the order of their positions.
fn tasks_of(alloc: Global, positions: &[Position]) -> Result<Vec<Task>, NoMemory>
    ensures { IfOk result (λ tasks. tasks.items ≡ tasks_in positions.now) }
{
    let mut tasks = Vec::new(alloc);
    for position in positions {
        if let Position::Task { extra, share, time } = *position {
            tasks.push(Task { extra, share, time })?;
        }
    }
    Ok(tasks)
}

// A term whose items are still to come: what makes its first items, and what takes its last ones.
#[derive(Clone, Copy)]
struct Pending {
    from: Option<u32>,
    to: Option<u32>,
}

// The items, from the last position on: each position hands what makes and takes its items on to the parts that end before it.
fn items_of(alloc: Global, positions: &[Position], tasks: u32) -> Result<Vec<Item>, NoMemory>
    requires terms { IsTerms positions.now }
    requires tasks { tasks ≡ task_count (term_of positions.now) }
    ensures { IfOk result (λ found. found.items ≡ items_of_term 1 None None (term_of positions.now)) }
{
    let mut found: Vec<Item> = Vec::new(alloc);
    let mut pending: Vec<Pending> = Vec::new(alloc);
    pending.push(Pending {
        from: None,
        to: None,
    })?;
    let mut own = tasks;
    let mut at = positions.len();
    while at > 0 {
        at -= 1;
        let term = pending[pending.len() - 1];
        pending.pop();
        match positions[at] {
            Position::Hold(size) => {
                found.push(Item {
                    size,
                    from: term.from,
                    to: term.to,
                })?;
            }
            Position::Task { .. } => {
                pending.push(Pending {
                    from: term.from,
                    to: Some(own),
                })?;
                pending.push(Pending {
                    from: Some(own),
                    to: term.to,
                })?;
                own -= 1;
            }
            Position::Par(parts) => push_copies(&mut pending, term, parts)?,
        }
    }
    found.reverse();
    Ok(found)
}

// Each part of terms side by side lies between the same tasks as the whole.
fn push_copies(pending: &mut Vec<Pending>, term: Pending, count: u32) -> Result<(), NoMemory>
    ensures { IfOk result (λ _. pending.new.items ≡ pending.old.items ++ replicate count term) }
{
    for _i in 0..count {
        pending.push(term)?;
    }
    Ok(())
}
