//! Tests of `elimination`, over its public functions.
#![tactic(auto)]

#[cfg(test)]
mod tests;
