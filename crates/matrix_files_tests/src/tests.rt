//! Files by hand: matrices, orders, permutations and their inverses.

mod inverses;
mod matrices;
mod orders;
