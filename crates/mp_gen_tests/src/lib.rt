//! Tests of `mp_gen`, over its public functions.
#![tactic(auto)]

#[cfg(test)]
mod tests;
