//! Tests of `step_count`, over its public functions.
#![tactic(auto)]

#[cfg(test)]
mod tests;
