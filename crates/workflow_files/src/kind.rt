ghost use Rattle.workflow_files.specs.Kinds.{word_of};

use mp_text::Kind;
use std::fmt::{self, Display, Formatter, Write};

/// What is wrong with a workflow file.
#[derive(Clone, Copy, Debug, PartialEq, Eq)]
pub enum WorkflowKind {
    /// Line 1 is not `workflow 1` or `workflow 2`, or line 2 not `tasks` and one word.
    Header = 1,
    /// A line after the second begins with none of `data`, `task`, `par` and `end`, or stands after `end`.
    Word,
    /// A word is no number, there are too few or too many of them, a time is 0, or a `par` has less than 2 parts.
    Number,
    /// A task or a `par` takes more terms than there are.
    StackShort,
    /// At `end` there is not one term.
    NotOneTerm,
    /// There are fewer or more tasks than line 2 says.
    TaskCount,
    /// The text ends before `end`.
    NoEnd,
    /// A share is greater than what the first part leaves, or than the task's extra and what the second part starts with.
    Share,
}

impl Kind for WorkflowKind {
    ghost word_of = { word_of };

    fn word(self) -> &'static str {
        match self {
            WorkflowKind::Header => "header",
            WorkflowKind::Word => "word",
            WorkflowKind::Number => "number",
            WorkflowKind::StackShort => "stack-short",
            WorkflowKind::NotOneTerm => "not-one-term",
            WorkflowKind::TaskCount => "task-count",
            WorkflowKind::NoEnd => "no-end",
            WorkflowKind::Share => "share",
        }
    }
}

impl Display for WorkflowKind {
    fn fmt<W: Write>(&self, f: &mut Formatter<W>) -> fmt::Result {
        f.write_str(self.word())
    }
}
