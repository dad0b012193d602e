//! Tests of `command_line`, over its public functions.
#![tactic(auto)]

#[cfg(test)]
mod tests;
