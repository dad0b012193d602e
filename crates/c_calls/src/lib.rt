//! The calls for C as functions over slices and references: `memplan_c` exports each under the name that `c/memplan.h` declares.
//!
//! A refused call answers a status that is not 0 and writes a fault, and nothing else. The definitions stand in specs/: `Answers`, what the
//! calls answer, and `Refusals`, why they are refused; `Fronts` and `Columns`, both of the calls for matrices; `Slots`, what a call leaves in
//! the place of a core; `Faults`, with which status and which fault. `laws` says how much room for claims is always enough, and what the
//! columns of an analysis keep along an order of its fronts.
#![tactic(auto)]

mod checks;
mod claims;
mod columns;
mod degree;
mod faults;
mod fronts;
pub mod kinds;
pub mod laws;
mod orders;
mod refusal;
mod replays;
mod shared_plans;
pub mod slot;
pub mod statuses;

pub use checks::{certify_tree, check_tree};
pub use claims::Claim;
pub use columns::front_columns;
pub use degree::minimum_degree;
pub use faults::Fault;
pub use fronts::{GivenOptions, matrix_analysis, matrix_fronts};
pub use orders::{best_postorder, plan_tree};
pub use refusal::{PlanFault, Refusal};
pub use replays::{replay_shared, replay_system, replay_tree, spill_tree};
pub use shared_plans::plan_shared;
pub use slot::Slot;
