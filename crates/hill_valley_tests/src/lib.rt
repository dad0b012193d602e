//! Tests of `hill_valley`, over its public functions.
#![tactic(auto)]

#[cfg(test)]
mod tests;
