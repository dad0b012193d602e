//! Sets of numbers below a bound, as rows of bits, 64 to a word.
//!
//! The definitions stand in specs/ (`Bits`).
#![tactic(auto)]

mod row;
mod words;

pub use row::BitRow;
use std::alloc::AllocError;

/// Want of memory: an allocation was refused.
pub type NoMemory = AllocError;
