//! Tests of `claim_check`, over its public functions.
#![tactic(auto)]

#[cfg(test)]
mod tests;
