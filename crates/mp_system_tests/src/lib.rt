//! Tests of `mp_system`, over its public functions.
#![tactic(auto)]

#[cfg(test)]
mod given_tests;
#[cfg(test)]
mod tests;
