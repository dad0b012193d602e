//! Tests of `shared_graph_files`, over its public functions.
#![tactic(auto)]

#[cfg(test)]
mod tests;
