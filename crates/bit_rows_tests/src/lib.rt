//! Tests of `bit_rows`, over its public functions.
#![tactic(auto)]

#[cfg(test)]
mod tests;
