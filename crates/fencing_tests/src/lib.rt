//! Tests of `fencing`, over its public functions.
#![tactic(auto)]

#[cfg(test)]
mod tests;
