//! Tests of `permutations`, over its public functions.
#![tactic(auto)]

#[cfg(test)]
mod tests;
