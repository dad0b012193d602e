//! Tests of `column_counts`, over its public functions.
#![tactic(auto)]

#[cfg(test)]
mod tests;
