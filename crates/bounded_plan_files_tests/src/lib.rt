//! Tests of `bounded_plan_files`, over its public functions.
#![tactic(auto)]

#[cfg(test)]
mod tests;
