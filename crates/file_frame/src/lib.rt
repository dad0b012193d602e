//! The frame of this project's own formats: line 1 with the name and the version, lines that begin a section, and `end`; how they are read
//! and how they are printed. A format is a crate over this one, with the lines that only it has.
//!
//! The definitions stand in specs/: `Frame`, the tests of these lines; `Printed`, their texts; `Words`, the words of versions.
#![tactic(auto)]

mod lines;
mod printing;
mod version;
mod words;

pub use lines::{count_on, end_on, header_on, number_on};
pub use printing::{print_end, print_header, print_section};
pub use version::{Version, version_of};
pub use words::{after_word, is_word};
