//! Tests of `file_frame`, over its public functions.
#![tactic(auto)]

#[cfg(test)]
mod tests;
