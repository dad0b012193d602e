//! Plans with a certified bound: an order of the tasks of a system, its peak, a bound that no order has a peak below, and evidence for that.
#![tactic(auto)]

mod evidence;
mod plan;
mod within;

pub use evidence::{BoundEvidence, ClaimList};
pub use plan::BoundedPlan;
pub use within::evidence_within;
