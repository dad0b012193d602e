//! Tests of `patterns`, over its public functions.
#![tactic(auto)]

#[cfg(test)]
mod tests;
