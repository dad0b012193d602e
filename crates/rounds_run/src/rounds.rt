//! The rounds of a schedule.

ghost use Rattle.std.specs.Prelude.{◌≡◌, ◌+◌, ◌++◌, ◌∷◌, ◌<◌, ◌≤◌, ℕ, max, [], length, slice_index_or, slice_set, IfOk, OnOk};
ghost use Rattle.activation.specs.Runs.{is_kind};
ghost use Rattle.activation.specs.declared.events.EventKind.{EventKind};
ghost use Rattle.rounds_run.specs.Rounds.{AreStarts};

use crate::NoMemory;
use activation::{Event, EventKind};
use row_table::NumberList;
use std::alloc::Global;

// Puts empty lists at the end until there is one at this place.
fn reach(alloc: Global, lists: &mut Vec<NumberList>, place: u64) -> Result<(), NoMemory>
    ensures len { OnOk result (length lists.new.items ≡ max (length lists.old.items) (place + 1)) }
    ensures lists { OnOk result
        ((k : ℕ) → slice_index_or lists.new.items k [] ≡ slice_index_or lists.old.items k []) }
{
    'more: while lists.len() as u64 <= place {
        lists.push(NumberList::new(Vec::new(alloc)))?;
    }
    Ok(())
}

// Whether a task starts.
fn is_start(kind: EventKind) -> bool
    ensures { result ≡ is_kind EventKind.Start kind }
{
    matches!(kind, EventKind::Start)
}

// Puts a number at the end of the list at a place.
fn put(lists: &mut Vec<NumberList>, place: usize, number: u32) -> Result<(), NoMemory>
    requires { place < length lists.old.items }
    ensures { OnOk result (lists.new.items
        ≡ slice_set lists.old.items place (slice_index_or lists.old.items place [] ++ number ∷ [])) }
{
    lists[place].push(number)?;
    Ok(())
}

/// What starts at each moment, one after the other.
pub fn rounds_of(alloc: Global, events: &[Event]) -> Result<Vec<NumberList>, NoMemory>
    ensures { IfOk result (λ rounds. AreStarts events.now rounds.items) }
{
    let mut rounds: Vec<NumberList> = Vec::new(alloc);
    for event in events {
        if is_start(event.kind) {
            reach(alloc, &mut rounds, event.time)?;
            put(&mut rounds, event.time as usize, event.task)?;
        }
    }
    Ok(rounds)
}
