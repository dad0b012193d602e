//! Tests of `state_search`, over its public functions.
#![tactic(auto)]

#[cfg(test)]
mod tests;
