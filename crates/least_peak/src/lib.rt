//! The least peak of memory with which tasks can run one after the other, for trees (Liu 1987) and series-parallel workflows: plans that
//! come with a certificate, the judge of such plans, and the peak of any order.
//!
//! ```
//! let tree = read_tree(alloc, text)?;
//! let problem = Problem::of_tree(tree);
//! let plan = problem.plan(alloc)?;
//! let verdict = problem.check(rt, alloc, &plan, 1, &NoGate)?;
//! assert_eq!(rt; verdict, Verdict::Yes(plan.peak()));
//! ```
//!
//! The definitions stand in specs/: `Problem`, what a problem's system and its terms are; `Best`, traversals of least peak.
#![tactic(auto)]

mod planning;
mod problem;

pub use problem::{Origin, Problem};
use std::alloc::AllocError;

/// Want of memory: an allocation was refused.
pub type NoMemory = AllocError;
