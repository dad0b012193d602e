//! Tests of the program's top call: words, files, answers and faults.
#![tactic(auto)]

#[cfg(test)]
mod tests;
