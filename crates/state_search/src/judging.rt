//! The judge of what looking at states shows.

ghost use Rattle.std.specs.Prelude.{◌≡◌, ◌↔◌, ◌≤◌, ℕ, ◌*◌, true, IfOk, MatchOption};
ghost use Rattle.state_search.specs.Shown.{HaveRoom, IsShownByStates, IsStatesObjection, visits_of};

use crate::NoMemory;
use crate::explored::{Explored, explore};
use shared_systems::SharedSystem;
use std::alloc::Global;

/// The most marks that may be looked at, one for each task of each state.
pub const MOST_MARKS: u64 = 1 << 27;

/// How many items and readers of items may be looked at, all of them at each state: some ten seconds of work.
pub const MOST_VISITS: u64 = 1 << 32;

/// Why looking at so many states does not show that no order has a peak below a bound.
#[derive(Clone, Copy, Debug, PartialEq, Eq)]
pub enum StatesObjection {
    /// So many states would have more than `MOST_MARKS` marks, or take more than `MOST_VISITS` looks at items; none was looked at.
    Room,
    /// An order has a peak below the bound.
    Order,
    /// More states than that are looked at.
    Many,
}

// How many items and readers are looked at at a state.
fn visits_of(system: &SharedSystem) -> u64
    ensures { result ≡ visits_of system.now }
{
    system.keeps();
    let items = system.items();
    let mut visits: u64 = 0;
    for i in 0..items.len() {
        visits += 1 + items.readers(i).len() as u64;
    }
    visits
}

// Whether so many states have at most `MOST_MARKS` marks, and take at most `MOST_VISITS` looks at items.
fn have_room(system: &SharedSystem, most: u32) -> bool
    ensures { (result ≡ true) ↔ HaveRoom system.now most }
{
    system.keeps();
    let most = u64::from(most);
    let marks = most * system.tasks().len() as u64;
    let visits = most.saturating_mul(visits_of(system));
    marks <= MOST_MARKS && visits <= MOST_VISITS
}

// So many states, or the greatest number of them that have at most `all` together, where each has `each`.
fn most_within(most: u32, each: u64, all: u64) -> u32
    ensures fits { result * each ≤ all }
    ensures most { result ≤ most }
    ensures greatest { (other : ℕ) → other ≤ most → other * each ≤ all → other ≤ result }
{
    if each == 0 {
        most
    } else {
        u64::from(most).min(all / each) as u32
    }
}

/// So many states, or where they have no room the greatest number of states that have it.
pub fn most_states(system: &SharedSystem, most: u32) -> u32
    ensures room { HaveRoom system.now result }
    ensures most { result ≤ most }
    ensures greatest { (other : ℕ) → other ≤ most → HaveRoom system.now other → other ≤ result }
{
    let by_marks = most_within(most, system.tasks().len() as u64, MOST_MARKS);
    most_within(by_marks, visits_of(system), MOST_VISITS)
}

/// Whether looking at so many states shows that no order of a system has a peak below a bound: no more than `most` are looked at, and the start
/// is none of them. If not, why: `Room`, where so many have no room, and none is looked at; else `Order`, where an order has a peak below the bound,
/// or `Many`, where more than `most` are looked at; where both are so, either of them. Time and memory are those of [`explore`](crate::explore).
pub fn judge_states(
    alloc: Global,
    system: &SharedSystem,
    bound: u64,
    most: u32,
) -> Result<Option<StatesObjection>, NoMemory>
    ensures { IfOk result (λ found. MatchOption found (IsShownByStates system.now bound most) (IsStatesObjection system.now bound most)) }
{
    if !have_room(system, most) {
        return Ok(Some(StatesObjection::Room));
    }
    match explore(alloc, system, bound, most)? {
        Explored::Order(_) => Ok(Some(StatesObjection::Order)),
        Explored::Closed(_) => Ok(None),
        Explored::Many => Ok(Some(StatesObjection::Many)),
    }
}
