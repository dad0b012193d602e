//! States are looked at until the start is found, all are looked at, or there are too many.

ghost use Rattle.std.specs.Prelude.{◌≡◌, ℕ, ◌<◌, ◌≤◌, List, IfOk};
ghost use Rattle.shared_systems.specs.SharedMemory.{shared_peak_of};
ghost use Rattle.shared_systems.specs.SharedTraversal.{IsSharedTraversal};
ghost use Rattle.state_search.specs.States.{HasManyStates};
ghost use Rattle.state_search.specs.Shown.{AreNoStart};
ghost use Rattle.state_search.specs.Answers.{IfOrder, IfClosed, IfMany};

use crate::NoMemory;
use crate::needs::amounts_of;
use crate::reading::order_from;
use crate::search::{expand, started};
use shared_systems::SharedSystem;
use std::alloc::Global;

/// What looking at the states below a bound came to.
#[derive(Drop)]
pub enum Explored {
    /// An order of all tasks with a peak below the bound.
    Order(Vec<u32>),
    /// No order has a peak below the bound; so many states were looked at.
    Closed(u32),
    /// More states than were to be kept are looked at.
    Many,
}

/// Looks for an order with a peak below a bound, from its end. A state is told by which tasks are done.
///
/// The first state that is looked at is that in which all tasks are done, if its memory is below the bound. From each one the search goes back
/// over the task that was run last: one that is done, whose outputs no task that is done reads, and with which the memory was below the bound
/// while it ran. Where there was no more memory before such a task than after it, nothing is gained by running it earlier: the first of these
/// alone is taken as the last. Where there is none, each that can be the last is.
///
/// - `Order`: a traversal with a peak below the bound.
/// - `Closed`: all these states were looked at, and the start, in which no task is done, is none of them; so no traversal has a peak below the
///   bound. The number is how many they are, at most `most`: 0 where the memory at the end is not below the bound.
/// - `Many`: more than `most` states are looked at. Nothing is said of orders.
///
/// At most `most` states are kept, and one more. For each the time is linear in the tasks, items and readers, and in the tasks for each task
/// that is taken as the last; a byte for each task is kept, and a few words. There may be as many states as sets of tasks: this is for low
/// bounds, and for systems in which most tasks may wait.
pub fn explore(
    alloc: Global,
    system: &SharedSystem,
    bound: u64,
    most: u32,
) -> Result<Explored, NoMemory>
    ensures order { IfOk result (IfOrder (λ order. IsSharedTraversal system.now order × (shared_peak_of system.now order < bound))) }
    ensures closed { IfOk result (IfClosed (λ seen. AreNoStart system.now bound seen × (seen ≤ most))) }
    ensures as_many { IfOk result (IfClosed (λ seen. (n : ℕ) → n < seen → HasManyStates system.now bound n)) }
    ensures none { IfOk result (IfClosed (λ seen. (order : List ℕ) → IsSharedTraversal system.now order → bound ≤ shared_peak_of system.now order)) }
    ensures many { IfOk result (IfMany (HasManyStates system.now bound most)) }
{
    system.keeps();
    let amounts = amounts_of(alloc, system)?;
    let mut search = started(alloc, system, bound)?;
    for round in 0..u64::from(most) + 1 {
        let seen = search.states.len();
        if seen > most as usize {
            return Ok(Explored::Many);
        }
        let Some(place) = search.waiting.pop() else {
            return Ok(Explored::Closed(seen as u32));
        };
        let is_start = expand(alloc, system, &amounts, bound, most, &mut search, place)?;
        if is_start {
            let order = order_from(alloc, &search.states, place)?;
            return Ok(Explored::Order(order));
        }
    }
    Ok(Explored::Many)
}
