//! The shelf: definitions and lemmas on numbers and lists that several crates cite.
#![tactic(auto)]
