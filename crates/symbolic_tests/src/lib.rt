//! Tests of `symbolic`, over its public functions.
#![tactic(auto)]

#[cfg(test)]
mod tests;
