//! Tests of `segment_merge`, over its public functions.
#![tactic(auto)]

#[cfg(test)]
mod tests;
