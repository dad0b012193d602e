//! The elimination of the vertices of a symmetric pattern by least degree, of several by least number. Degrees are exact.
//!
//! What is left of the pattern is kept as a quotient graph (George and Liu, The evolution of the minimum degree ordering algorithm, 1989).
//! The elimination of a vertex lowers the degree of a neighbour by one at most, so each degree has a lower bound at hand, and degrees are
//! counted only of vertices whose bound is the least. Twins, which have the same neighbours, are searched as one (Amestoy, Davis and Duff,
//! An approximate minimum degree ordering algorithm, 1996, whose approximate degrees are not used). Once what is left gets dense, the rest
//! goes by rows of bits.
//!
//! The definitions stand in specs/ (`Elimination`).
#![tactic(auto)]

mod bounds;
mod dense;
#[cfg(test)]
mod dense_tests;
mod hoods;
mod links;
mod order;
mod parts;
mod search;
mod switch;
mod twins;

pub use order::by_least_degree;
use std::alloc::AllocError;

/// Want of memory: an allocation was refused.
pub type NoMemory = AllocError;
