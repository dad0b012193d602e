//! Tests of `mp_text`, over its public functions.
#![tactic(auto)]

#[cfg(test)]
mod tests;
