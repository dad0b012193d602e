//! The order of a plan, of a plan file of version 1, 2 or 3 or of a plan's JSON: one reader of all of them.
//!
//! The definitions stand in specs/: `PlanOrder`, what form a text has, what it reads as and what refuses it; the laws in [`laws`].
#![tactic(auto)]

mod form;
mod json;
pub mod laws;
mod order;
mod reader;

pub use form::PlanForm;
pub use order::PlannedOrder;
pub use reader::read_plan_order;
use std::alloc::AllocError;

/// Want of memory: an allocation was refused.
pub type NoMemory = AllocError;
