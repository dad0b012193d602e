//! Worked examples, by hand, and random sides against plain ones.

mod plain;
mod roped;
mod ropes;
mod sides;
