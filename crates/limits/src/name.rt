ghost use Rattle.std.specs.Prelude.{◌≡◌};
ghost use Rattle.limits.specs.Limits.{most, word_of};

use crate::{
    MOST_ARCS, MOST_BYTES, MOST_ENTRIES, MOST_MINDEG, MOST_ORDER, MOST_POSITIONS, MOST_SIZE,
    MOST_STEPS, MOST_TASKS, MOST_TIME, MOST_TOTAL, MOST_USES,
};
use std::fmt::{self, Display, Formatter, Write};

/// The name of a limit: what is counted against it. A file is refused where the count first passes it.
#[derive(Clone, Copy, Debug, PartialEq, Eq)]
pub enum LimitName {
    /// Bytes of one file.
    Bytes,
    /// Rows of a matrix.
    Order,
    /// Entries that a matrix states.
    Entries,
    /// Rows of a matrix that is ordered by minimum degree.
    Mindeg,
    /// Tasks of a workflow or of a task graph, nodes of a tree, or numbers of an order.
    Tasks,
    /// Positions of a term, claims of a plan, or items of a task graph.
    Positions,
    /// One extra or one data size.
    Size,
    /// The sum of all extras and data sizes.
    Total,
    /// One duration.
    Time,
    /// Arcs of a task graph.
    Arcs,
    /// Readers of all items of a task graph together.
    Uses,
    /// Steps of all staircases of a term.
    Steps,
}

impl LimitName {
    /// The greatest count that passes.
    pub fn most(self) -> u64
        ensures { result ≡ most self }
    {
        match self {
            LimitName::Bytes => MOST_BYTES,
            LimitName::Order => MOST_ORDER,
            LimitName::Entries => MOST_ENTRIES,
            LimitName::Mindeg => MOST_MINDEG,
            LimitName::Tasks => MOST_TASKS,
            LimitName::Positions => MOST_POSITIONS,
            LimitName::Size => MOST_SIZE,
            LimitName::Total => MOST_TOTAL,
            LimitName::Time => MOST_TIME,
            LimitName::Arcs => MOST_ARCS,
            LimitName::Uses => MOST_USES,
            LimitName::Steps => MOST_STEPS,
        }
    }

    /// The word for it in reports.
    pub fn word(self) -> &'static str
        ensures { result.now ≡ word_of self }
    {
        match self {
            LimitName::Bytes => "bytes",
            LimitName::Order => "order",
            LimitName::Entries => "entries",
            LimitName::Mindeg => "mindeg",
            LimitName::Tasks => "tasks",
            LimitName::Positions => "positions",
            LimitName::Size => "size",
            LimitName::Total => "total",
            LimitName::Time => "time",
            LimitName::Arcs => "arcs",
            LimitName::Uses => "uses",
            LimitName::Steps => "steps",
        }
    }
}

impl Display for LimitName {
    fn fmt<W: Write>(&self, f: &mut Formatter<W>) -> fmt::Result {
        f.write_str(self.word())
    }
}
