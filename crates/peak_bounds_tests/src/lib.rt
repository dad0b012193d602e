//! Tests of `peak_bounds`, over its public functions.
#![tactic(auto)]

#[cfg(test)]
mod tests;
