//! Tests of `bound_check`, over its public functions.
#![tactic(auto)]

#[cfg(test)]
mod tests;
