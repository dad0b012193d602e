//! Tests of `plan_claims`, over its public functions.
#![tactic(auto)]

#[cfg(test)]
mod tests;
