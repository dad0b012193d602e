//! Tests of `plan_orders`, over its public functions.
#![tactic(auto)]

#[cfg(test)]
mod tests;
