//! Activation (Agullo et al. 2016) of systems in which an item may have several readers: tasks run on several workers under a bound on
//! memory. They are activated one after the other along a traversal, which books their memory, and started by free workers once their
//! suppliers are done. An item goes with the last of its readers. So no run gets stuck, and memory stays within every bound that the
//! traversal keeps alone.
//!
//! [`Core`] is the machine, for whoever runs the tasks; a [`Simulator`] runs it in simulated time, for a priority that passes
//! [`holds_each`]. The definitions stand in specs/: `Machine`, `Runs`, `Safe`, `Schedule`; the laws over every list of events in [`laws`].
#![tactic(auto)]

mod clock;
mod consumers;
mod cores;
mod edges;
mod events;
pub mod laws;
mod places;
mod priority;
mod rank_set;
mod readings;
mod refusal;
mod room;
mod run;
mod running;
mod simulation;
mod start;
mod sums;
mod waiting;

pub use cores::Core;
pub use events::{Event, EventKind};
pub use priority::holds_each;
pub use refusal::CoreRefusal;
pub use simulation::{Simulator, Trace};
use std::alloc::AllocError;

/// Want of memory: an allocation was refused.
pub type NoMemory = AllocError;
