//! Tests of `fence_files`, over its public functions.
#![tactic(auto)]

#[cfg(test)]
mod tests;
