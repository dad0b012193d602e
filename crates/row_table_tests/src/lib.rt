//! Tests of `row_table`, over its public functions.
#![tactic(auto)]

#[cfg(test)]
mod tests;
