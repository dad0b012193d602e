//! Tests of `fences`, over its public functions.
#![tactic(auto)]

#[cfg(test)]
mod tests;
