use assembly_tree::Shape;

/// How the fronts of a matrix are made.
#[derive(Clone, Copy, Debug, PartialEq, Eq)]
pub struct FrontOptions {
    /// Which entries of a front and of a contribution block are kept.
    pub shape: Shape,
    /// How many explicit zeros a merge of two fronts may add; with none, no fronts are merged.
    pub zeros: Option<u64>,
    /// Whether a front takes over the memory of a contribution block.
    pub inplace: bool,
}
