//! Fences along an order, for engines that start whatever is ready and have no hook for a core that says no: Snakemake, make, Airflow. A fence
//! is a dependence that is added, so every engine keeps it, on however many workers.
//!
//! [`fence_along`] makes fences that keep all runs within a bound, with amounts that certify it, from an order whose peak is within that bound.
//! It hands memory on along the order: what a task gives back is there for later tasks, and a task that takes some of it waits for the one that
//! gave it. That is how a resource is shared out along a schedule in project planning (chaining), in one pass. What amounts certify is from L.
//! Marchal, B. Simon and F. Vivien, "Limiting the memory footprint when dynamically scheduling DAGs on shared-memory platforms", 2018, who add
//! fences across the greatest cuts of a flow.
//!
//! [`certificate_along`] does so for a shared system, and makes what is handed to others: the fences with all that certifies them, for any number
//! of workers or for at most so many. For these, room is set aside for each, and the fences that are left are fewer.
//! A search looks for better fences there: it promises nothing, and what it finds is judged. Another one leaves fences out, where the fewest are
//! asked for.
//!
//! [`standing_certificate`] makes a certificate that forbids no run: of a bound that a system as it stands never passes, the least that a search
//! for a least flow finds.
//!
//! The definitions stand in specs/: `Refusal`, what an order and a bound are refused with; `Asked`, for how many workers; `Standing`, certificates
//! that forbid no run; `Needs`, what a task takes, `Takings`, how memory is handed on, and `Rooms`; what fences, amounts and certificates are, in
//! `fences`.
#![tactic(auto)]

mod along;
mod backwards;
mod certificate;
mod chain;
mod choosing;
mod fencing;
mod followers;
mod handing;
mod improving;
mod least_flow;
mod least_room;
mod ledger;
mod max_flow;
mod network;
mod pruning;
mod rooms;
mod schedule;
mod simulating;
mod standing;
mod waiting;

pub use certificate::{CertifyingRefusal, certificate_along};
pub use fencing::{Fencing, FencingRefusal, fence_along};
pub use standing::standing_certificate;
use std::alloc::AllocError;

/// Want of memory: an allocation was refused.
pub type NoMemory = AllocError;
