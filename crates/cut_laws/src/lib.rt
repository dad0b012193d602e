//! Laws of cuts: what two sides that lead down to one state of a term say of its traversals.
//!
//! The definitions stand in specs/: `Cuts`, `Names`, `TermCuts`; `Standing`, what a cut says; `Tops`, the peaks of cuts that are made of
//! others.
#![tactic(auto)]

pub mod laws;
