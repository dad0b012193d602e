//! The numbers of segments.

/// A segment without its tasks.
#[derive(Clone, Copy)]
pub struct Numbers {
    /// The greatest memory of the segment above the level at which it starts, from 0 to 2^60.
    pub up: u64,
    /// How much lower the level is after it, from 0 to 2^60.
    pub net: u64,
}
