//! Tests of `shared_systems`, over its public functions.
#![tactic(auto)]

#[cfg(test)]
mod one_reader_tests;
#[cfg(test)]
mod tests;
