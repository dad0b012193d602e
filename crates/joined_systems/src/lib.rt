//! Shared systems with joins: tasks without need, each of which comes after all the tasks that supply the same others, takes over all that
//! these make for others, and hands it on. Nothing changes in memory. Where two tasks each supply both of two others no series-parallel
//! term says so of the system, but one may of the joined system.
//!
//! The definitions stand in specs/: `Joins`, which tasks need a join; `Joined`, the system with its joins. The laws stand in [`laws`].
#![tactic(auto)]

mod building;
mod joined;
mod kinds;
pub mod laws;
mod needs;

pub use joined::join_tasks;
use std::alloc::AllocError;

/// Want of memory: an allocation was refused.
pub type NoMemory = AllocError;
