ghost use Rattle.graph_files.specs.Kinds.{word_of};

use mp_text::Kind;
use std::fmt::{self, Display, Formatter, Write};

/// What is wrong with a graph file.
#[derive(Clone, Copy, Debug, PartialEq, Eq)]
pub enum GraphKind {
    /// Line 1 is not `graph 1`, nor `graph 2` where files of version 2 are read.
    Header = 1,
    /// A word is no number, there are too few or too many of them, or a time is 0.
    Number,
    /// The line before the tasks is not `tasks` and one word, that before the arcs not `arcs` and one word, in version 2 that before the
    /// items not `items` and one word, the line after the last arc or item not `end`, or a line stands after it.
    Section,
    /// An end of an arc is greater than the number of tasks, or an arc leads from a task to the same task.
    Arc,
    /// In version 2: the producer of an item is greater than the number of tasks, or its readers are not tasks other than it, in rising
    /// order.
    Item,
    /// A task stands in no list of tasks in which all suppliers of each stand before it.
    Cycle,
    /// A share is greater than what the task consumes, in version 2 than what it alone reads, or than its extra and what it produces.
    Share,
    /// The text ends before `end`.
    NoEnd,
}

impl Kind for GraphKind {
    ghost word_of = { word_of };

    fn word(self) -> &'static str {
        match self {
            GraphKind::Header => "header",
            GraphKind::Number => "number",
            GraphKind::Section => "section",
            GraphKind::Arc => "arc",
            GraphKind::Item => "item",
            GraphKind::Cycle => "cycle",
            GraphKind::Share => "share",
            GraphKind::NoEnd => "no-end",
        }
    }
}

impl Display for GraphKind {
    fn fmt<W: Write>(&self, f: &mut Formatter<W>) -> fmt::Result {
        f.write_str(self.word())
    }
}
