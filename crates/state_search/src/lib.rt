//! Exact search of shared systems: whether an order has its peak below a bound.
//!
//! A state is told by which tasks are done. States are looked at from the end: from that in which all tasks are done, back over the task that
//! was run last. Where a task that can be the last may wait, since there was no more memory before it than after it, it alone is taken as the
//! last. No order is lost by this: in an order with a peak below the bound it can be put off to the last place, and the peak stays below the
//! bound. Where the states that are looked at are few enough to be kept, either the start is one of them, which tells an order with a peak below
//! the bound, or no order has one.
//!
//! The definitions stand in specs/: `States` and `Shown`; the law in [`laws`]. [`explore`] searches, and [`judge_states`] says whether a number
//! of states is enough.
#![tactic(auto)]

mod explored;
mod judging;
mod last;
pub mod laws;
mod marks;
mod needs;
mod reading;
mod search;
mod states;
mod view;

pub use explored::{Explored, explore};
pub use judging::{MOST_MARKS, MOST_VISITS, StatesObjection, judge_states, most_states};
use std::alloc::AllocError;

/// Want of memory: an allocation was refused.
pub type NoMemory = AllocError;
