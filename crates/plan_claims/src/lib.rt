//! The certificate of a plan: claims at positions of a term, each of which meets its rule over those of its parts, and which show
//! that no traversal has a lower peak (the exchange argument of Liu 1987, as rules that a reader can check one by one).
//!
//! The claims come of one walk from the last position down, over what the planner noted: a claim on a term asks at most one claim of
//! each of its parts. The rules stand in `claim_rules`, what a side of a cut shows in `cut_laws`, the notes in `sp_cuts`.
//!
//! A call of `below()` does nothing: it hands the laws of the layers below to the proof of the function that calls it.
#![tactic(auto)]

mod beside;
mod claiming;
mod handing;
mod laws;
mod wanted;

pub use claiming::claims_of;
use std::alloc::AllocError;

/// Want of memory: an allocation was refused.
pub type NoMemory = AllocError;
