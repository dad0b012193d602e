//! Tests of `sp_terms`, over its public functions.
#![tactic(auto)]

#[cfg(test)]
mod tests;
