//! The limits of memplan: how many bytes, tasks or workers there may be, and how great a size or a time.
//!
//! Each limit stands here once: as a constant for code, and as a definition in specs/ (`Limits`) for contracts. A body that keeps
//! to a limit compares with the constant, and its contract names the definition, so the two cannot part.
#![tactic(auto)]

mod name;

pub use name::LimitName;

/// Bytes of one file.
pub const MOST_BYTES: u64 = 268_435_456;

/// Rows of a matrix. A change of it is a change of this number and of that in specs/, up to 1,127,000: past that a plan's text could be longer
/// than [`MOST_BYTES`], and past 1,512,000 the fronts of a matrix together greater than [`MOST_TOTAL`], and a proof that names these fails.
pub const MOST_ORDER: u64 = 1_000_000;

/// Entries that a matrix file states.
pub const MOST_ENTRIES: u64 = 10_000_000;

/// Rows of a matrix that is ordered by minimum degree.
pub const MOST_MINDEG: u64 = 50_000;

/// Tasks of a workflow or of a task graph, nodes of a tree, or numbers of an order: as many as a matrix may have rows, since each row can be
/// a front of its own.
pub const MOST_TASKS: u64 = MOST_ORDER;

/// Positions of a term, claims of a plan, or data items of a system: four for a task, and one.
pub const MOST_POSITIONS: u64 = 4 * MOST_TASKS + 1;

/// Entries of a front that has all rows of a matrix.
const WHOLE_FRONT: u64 = MOST_ORDER * MOST_ORDER;

/// What one extra or one data size may always be: 2^40.
const EACH_SIZE: u64 = 1_099_511_627_776;

/// One extra or one data size: 2^40, or as much as a whole front, if that is more, since a front is one of them.
pub const MOST_SIZE: u64 = if EACH_SIZE < WHOLE_FRONT {
    WHOLE_FRONT
} else {
    EACH_SIZE
};

/// The sum of all extras and data sizes, and so every memory: 2^60.
pub const MOST_TOTAL: u64 = 1_152_921_504_606_846_976;

/// One duration: 2^40.
pub const MOST_TIME: u64 = 1_099_511_627_776;

/// Arcs of a task graph: two for a task, and one.
pub const MOST_ARCS: u64 = 2 * MOST_TASKS + 1;

/// Readers of all items of a task graph together: a reader counts once for each item that it reads.
pub const MOST_USES: u64 = 10_000_000;

/// Explicit zeros that one merge of fronts may add: 2^40.
pub const MOST_ZEROS: u64 = 1_099_511_627_776;

/// Steps of all staircases of a term.
pub const MOST_STEPS: u64 = 10_000_000;

/// Workers of a run, of a check, or of a making of fronts.
pub const MOST_WORKERS: u32 = 4_096;
