//! Tests of `carried_graphs`, over its public functions.
#![tactic(auto)]

#[cfg(test)]
mod tests;
