//! Rows of numbers, one after the other in one table: the children of each node, the items that each task consumes, the neighbours of each
//! vertex.
//!
//! - [`RowTable`]: what is read, how many rows there are and the numbers of each.
//! - [`RowTable::group`] makes one of a key for each number, where the numbers follow one another and each stands in one row, that of its
//!   key.
//! - [`RowBuilder`] makes one of rows that grow, where a number may stand in many rows and comes in any order. How many numbers a row gets
//!   at most is told before; at the end each row may be put in rising order, each number once.
//! - [`NumberList`]: a list of numbers that contracts see as such, for a value that owns one.
//!
//! ```
//! // The keys of 5, 6 and 7; the rows are [6], [] and [5, 7].
//! let children = RowTable::group(alloc, &[2, 0, 2], 3, 5)?;
//!
//! // Room for three numbers and for one; the rows are [4, 9] and [4].
//! let mut builder = RowBuilder::new(alloc, &[3, 1])?;
//! for number in [9, 4, 9] {
//!     builder.push(0, number);
//! }
//! builder.push(1, 4);
//! builder.sort_rows();
//! let neighbours = builder.into_table();
//! ```
#![tactic(auto)]

mod builder;
mod gaps;
mod grouping;
pub mod laws;
mod number_list;
mod sorting;
mod table;

pub use builder::RowBuilder;
pub use number_list::NumberList;
use std::alloc::AllocError;
pub use table::RowTable;

/// Want of memory: an allocation was refused.
pub type NoMemory = AllocError;
