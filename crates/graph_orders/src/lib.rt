//! Orders of a shared system with a low peak.
//!
//! Nothing is promised of how low it is: what is found is judged by `shared_systems`, and never worse than the order that one begins with.
//! The search ends within an effort counted in steps, and never by a clock, or before that where a peak is as low as is asked for. More
//! effort mostly gives a better order; since parts get their share of it, it may, though seldom, give a worse one.
//!
//! A system becomes a network (`network`), which is reduced (`reduction`). Its parts are searched one by one and then together
//! (`search`): by orders of several kinds (`ready`, `depth_first`, `greedy`), of which the best few are improved around their peaks
//! (`improve`, by `cut` and `crossing`).
#![tactic(auto)]

mod chains;
mod components;
mod course;
mod crossing;
mod cut;
mod depth_first;
mod effort;
mod flow;
mod greedy;
mod implied;
mod improve;
mod judged;
mod links;
mod network;
mod polish;
mod pool;
mod portfolio;
mod queue;
mod reach;
mod ready;
mod reduced;
mod reduction;
mod rows;
mod search;
mod tables;
mod takers;
mod walk;

pub use judged::find_order;
use std::alloc::AllocError;

/// Want of memory: an allocation was refused.
pub type NoMemory = AllocError;
