//! Tests of `postorder_best`, over its public functions.
#![tactic(auto)]

#[cfg(test)]
mod tests;
