//! A count of steps that takes no memory: a number for the proofs alone, which nothing but `tick` raises.
//!
//! It stands on std's ledger, whose tokens take no bytes. A count is handed on by `&mut`, so that a contract can say
//! how many steps a call took at most, as `steps.new ≤ steps.old + 3`.
#![tactic(auto)]

mod steps;

pub use steps::Steps;
