//! Tests of `ordering`, over its public functions.
#![tactic(auto)]

#[cfg(test)]
mod tests;
