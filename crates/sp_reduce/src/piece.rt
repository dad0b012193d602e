/// A part of a term, made of parts that stand before it in the list of pieces.
#[derive(Clone, Copy, Debug, PartialEq, Eq)]
pub enum Piece {
    /// Data of this size.
    Hold(u64),
    /// A task between two pieces.
    Series { first: u32, task: u32, second: u32 },
    /// Two pieces side by side.
    Both { first: u32, second: u32 },
}
