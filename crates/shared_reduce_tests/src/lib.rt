//! Tests of `shared_reduce`, over its public functions.
#![tactic(auto)]

#[cfg(test)]
mod tests;
