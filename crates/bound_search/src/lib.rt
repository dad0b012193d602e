//! Evidence for a lower bound on the peak of a shared system, found by growth in both directions.
//!
//! Nothing is promised of how good the bound is: evidence is judged by `peak_bounds`. What is promised is that the search ends,
//! within an effort counted in steps, and never by a clock.
#![tactic(auto)]

mod certified;
mod climb;
mod closure;
mod common;
mod ebbing;
mod effort;
mod filling;
mod flows;
mod growth;
mod kept_flow;
mod known;
mod layers;
mod legs;
mod low_set;
mod lowering;
mod needs;
mod network;
mod order;
mod pusher;
mod rows;
mod search;
mod side;
mod tables;
mod use_table;
mod within;

pub use certified::{CertifiedBound, certify_bound, certify_bound_below};
use std::alloc::AllocError;

/// Want of memory: an allocation was refused.
pub type NoMemory = AllocError;
