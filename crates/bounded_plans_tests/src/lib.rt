//! Tests of `bounded_plans`, over its public functions.
#![tactic(auto)]

#[cfg(test)]
mod tests;
