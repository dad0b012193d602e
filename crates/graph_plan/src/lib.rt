//! Plans of task graphs: an order, its peak, a bound that no order has a peak below, and evidence for that, which `check_bounded` accepts.
//! Least where a series-parallel term tells the orders of the graph; elsewhere the best that an effort finds, with the bound that it shows, by
//! sums or by looking at the states of a small graph.
//!
//! The definitions stand in specs/: `Planned`; what an accepted plan is stands in `bound_check`.
#![tactic(auto)]

mod draft;
mod effort;
mod least;
mod near;
mod peaks;
mod planning;
mod states;

pub use planning::{plan_from, plan_graph};
use std::alloc::AllocError;

/// Want of memory: an allocation was refused.
pub type NoMemory = AllocError;
