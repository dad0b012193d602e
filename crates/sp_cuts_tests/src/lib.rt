//! Tests of `sp_cuts`, over its public functions.
#![tactic(auto)]

#[cfg(test)]
mod tests;
