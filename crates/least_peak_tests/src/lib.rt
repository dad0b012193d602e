//! Tests of `least_peak`, over its public functions.
#![tactic(auto)]

#[cfg(test)]
mod tests;
