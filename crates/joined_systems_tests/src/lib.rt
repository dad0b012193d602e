//! Tests of `joined_systems`, over its public functions.
#![tactic(auto)]

#[cfg(test)]
mod tests;
