//! Tests of `spill_plan`, over its public functions.
#![tactic(auto)]

#[cfg(test)]
mod tests;
