//! Laws of sides: lists of segments that lead from a level of memory down to a lower one,
//! what is left of them under a bound, and what is made of several of them.
#![tactic(auto)]

pub mod laws;
