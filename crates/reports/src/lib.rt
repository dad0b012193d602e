//! What is answered to each request, and the top call: words to a report or a refusal, written whole.
//!
//! [`run_words`] is all that the program does; `Promises` in specs/ has a line for each command, what its report says. The definitions of the
//! answers stand in specs/ by the names of the commands; the laws in [`laws`].
#![tactic(auto)]

mod commands;
pub mod laws;
mod run;

pub use judging::{Status, code_of, complaint};
pub use run::run_words;
