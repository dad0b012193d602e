/// A node of a tree: a front and its contribution block.
///
/// Sizes are in a unit that whoever makes the tree chooses, at most 2^40 each. The layout is that of the same struct in C.
#[repr(C)]
#[derive(Clone, Copy, Debug, PartialEq, Eq)]
pub struct Node {
    /// The number of the parent, from 1; 0 at a root.
    pub parent: u32,
    /// The size of the block that the node leaves to its parent.
    pub out: u64,
    /// What the node needs while it runs, beside the blocks of its children and its own.
    pub extra: u64,
    /// How much of its need the node takes over from the blocks of its children.
    pub share: u64,
    /// How long the node runs, 1 to 2^40.
    pub time: u64,
}
