//! The judge of plans: whether the order, the peak and each claim hold. The claims are judged in many threads.
//!
//! The definitions stand in specs/: `Claimed`, `Shapes`, `Judged`, `Lowest`, `Accepted`, `Verdicts`.
#![tactic(auto)]

mod alone;
mod checking;
mod chunks;
mod judge;
pub mod laws;
mod objection;
mod opening;
mod par;
mod rules;
mod shape;
mod verdict;
mod view;

pub use alone::check_alone;
pub use checking::check;
pub use judge::check_at;
pub use objection::Objection;
pub use shape::Shape;
use std::alloc::AllocError;
pub use verdict::Verdict;
pub use view::{View, are_claims};

/// Want of memory: an allocation was refused.
pub type NoMemory = AllocError;
