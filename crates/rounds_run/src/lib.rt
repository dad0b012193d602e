//! The symbolic factorization of a sparse symmetric matrix: the rows of every front, as a multifrontal solver needs them before it computes
//! with numbers. The fronts are made many at once, in rounds that activation admits under a bound on the rows that are held.
//!
//! ```
//! let numbered = postordered_etree(alloc, &pattern, &perm)?;
//! let counts = counts(alloc, &pattern, &numbered.perm, &numbered.parents)?;
//! let assembly = supernodes(alloc, &numbered.parents, &counts)?;
//! let fronts = run_fronts(&rt, alloc, &pattern, &numbered, &assembly, bound, workers, &NoGate)?;
//! ```
//!
//! The definitions stand in specs/ (`FrontRows`, `RowSystem`, `Rounds`, `Fronts`), in the crate `ordering` (`Fill`) and in `activation`.
#![tactic(auto)]

mod crews;
mod front;
mod fronts;
mod gathering;
mod held;
pub mod laws;
mod number_lists;
mod planning;
mod refusal;
mod rounds;
mod row_tree;
mod running;

pub use fronts::Fronts;
pub use refusal::FrontsRefusal;
pub use running::run_fronts;
use std::alloc::AllocError;

/// Want of memory: an allocation was refused.
pub type NoMemory = AllocError;
