//! Tests of `limits`, over its public functions.
#![tactic(auto)]

#[cfg(test)]
mod tests;
