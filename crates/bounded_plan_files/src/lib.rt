//! Plan files of version 3, which have a bound and evidence for it: their reader and their printers; and such plans as JSON.
//!
//! The definitions stand in specs/: `BoundedPlanFile`, the tests of each line and what a file states; `Printed`, the text of a plan; `Json`,
//! its JSON.
#![tactic(auto)]

mod json_text;
pub mod laws;
mod lines;
mod printing;
mod reader;
mod sort;
mod stage;

pub use json_text::bounded_plan_json;
pub use lines::says_third;
pub use printing::{print_bound, print_bounded_plan};
pub use reader::read_bounded_plan;
use std::alloc::AllocError;

/// Want of memory: an allocation was refused.
pub type NoMemory = AllocError;
