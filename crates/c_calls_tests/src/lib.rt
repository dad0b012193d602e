//! Tests of `c_calls`, over its public functions.
#![tactic(auto)]

#[cfg(test)]
mod tests;
