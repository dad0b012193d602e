//! Trees of nodes, which a caller's array gives, the system and the term of a tree.
//!
//! The definitions stand in specs/: `Tree`, `Forest`, `TreeTerm`; what nodes are refused with, in `Judged`; the laws in [`laws`].
#![tactic(auto)]

mod children;
mod faults;
mod judged;
pub mod laws;
mod node;
mod plain;
mod postorder;
mod roots;
mod shares;
mod system;
mod term;
mod tree;

pub use children::child_rows;
pub use faults::{TreeFault, first_fault};
pub use judged::{NodeTest, NodesRefusal, tree_of_nodes};
pub use node::Node;
use std::alloc::AllocError;
pub use system::system_of_tree;
pub use term::{Named, Names, terms_of_tree};
pub use tree::Tree;

/// Want of memory: an allocation was refused.
pub type NoMemory = AllocError;
