//! Texts: lines, tokens and numbers of a file of bytes, formats as tables of tests with the loop that reads them, and
//! reports that are printed line by line.
#![tactic(auto)]

mod cursor;
mod faults;
pub mod laws;
mod layout;
mod line_scan;
mod numbers;
mod reading;
mod refusals;
mod reports;
mod split;
mod token_scan;

pub use faults::fault;
pub use layout::Layout;
pub use line_scan::{Line, Lines};
pub use numbers::{number, signed};
pub use reading::{Reader, read_with};
pub use refusals::{Fault, Kind, Refusal};
pub use reports::{Report, Token};
pub use split::tokens;
use std::alloc::AllocError;
pub use token_scan::Tokens;

/// Want of memory: an allocation was refused.
pub type NoMemory = AllocError;
