//! Orders worked by hand, and random patterns and a grid beside a plain slow program.

mod plain;
mod random;
mod rows;
