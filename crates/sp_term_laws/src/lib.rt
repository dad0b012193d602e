//! The composition laws of terms: what the traversals, states and memories of a term are, said of those of its parts.
#![tactic(auto)]

pub mod laws;
