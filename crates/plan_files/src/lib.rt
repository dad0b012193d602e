//! Plan files of versions 1 and 2, their reader and their printers, and plans as JSON.
#![tactic(auto)]

mod json_text;
mod kind;
pub mod laws;
mod lines;
mod printing;
mod reader;
mod stage;

pub use json_text::{PlanJson, plan_json, send_claim};
pub use kind::PlanKind;
pub use lines::{
    MOST_NUMBER, bound_of, claim_on, claims_section_on, number_up_to, order_on, order_section_on,
    peak_on,
};
pub use printing::{print_claims, print_plan, print_plan_2, print_tasks};
pub use reader::read_plan;
use std::alloc::AllocError;

/// Want of memory: an allocation was refused.
pub type NoMemory = AllocError;
