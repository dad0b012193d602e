//! Systems in which an item may have any number of readers: an item is held from the end of its producer to the end of the last of them.
//!
//! The definitions stand in specs/: `Shared`, `SharedMemory`, `SharedTraversal`; `Paths`, which tasks come after which; `Bounds`, what a
//! system keeps to; `Given`, the system that a caller's arrays give, and `Judged`, what they are refused with; `Growing`, items that are made
//! one by one; `OneReader`, the systems of `mp_system` as shared systems; `Collected` and `Woven`, the system of `mp_system` that stands for
//! one, in which each item has at most one consumer. The laws stand in [`laws`].
#![tactic(auto)]

mod collecting;
mod dropping;
mod given;
mod growing;
mod items;
mod judged;
pub mod laws;
mod one_reader;
mod passing;
mod peak;
mod places;
mod shares;
mod sums;
mod system;
mod uses;
mod weaving;

pub use given::GivenSharedItem;
pub use growing::GrowingItems;
pub use items::SharedItems;
pub use judged::{
    SharedFault, SharedItemTest, SharedRefusal, shared_system_of, shared_system_of_arrays,
};
use std::alloc::AllocError;
pub use system::SharedSystem;
pub use uses::first_order;

/// Want of memory: an allocation was refused.
pub type NoMemory = AllocError;
