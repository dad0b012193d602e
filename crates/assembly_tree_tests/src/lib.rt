//! Tests of `assembly_tree`, over its public functions.
#![tactic(auto)]

#[cfg(test)]
mod tests;
