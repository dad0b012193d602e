//! Tests of `rounds_run`, over its public functions.
#![tactic(auto)]

#[cfg(test)]
mod tests;
