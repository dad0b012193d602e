/// Which part comes first of those side by side.
#[derive(Clone, Copy, Debug, PartialEq, Eq)]
pub enum Side {
    /// The first one, and so on from left to right.
    FirstPart,
    /// The last one, and so on from right to left.
    LastPart,
}
