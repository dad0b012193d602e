//! Claims on the traversals of a term, the rules by which they follow from each other, and the soundness of the rules.
//!
//! The definitions stand in specs/: `Claims`, `Rules`, `Derivations`, `Placed`.
#![tactic(auto)]

pub mod laws;
