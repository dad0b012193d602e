/// A position of a term in postfix order.
#[derive(Clone, Copy, Debug, PartialEq, Eq)]
pub enum Position {
    /// A data item of this size, at most 2^40. Files write it as `data`.
    Hold(u64),
    /// A task between the two last terms: it consumes what the first leaves, and produces what the second starts with.
    Task {
        /// What the task needs beside its inputs and outputs while it runs, at most 2^40.
        extra: u64,
        /// What it takes over from its inputs while it runs: at most its inputs, and at most its extra and outputs.
        share: u64,
        /// How long it runs, 1 to 2^40.
        time: u64,
    },
    /// So many of the last terms, at least 2, side by side.
    Par(u32),
}

/// The memory of a term's first, last and least state, and the number of its positions.
#[derive(Clone, Copy, Debug, PartialEq, Eq)]
pub struct Values {
    /// The memory before any task of the term has run.
    pub initial: u64,
    /// The memory after all tasks of the term have run.
    pub fin: u64,
    /// The memory of the least state, over all traversals of the term.
    pub least: u64,
    /// The number of positions of the term, its own included.
    pub width: u32,
}
