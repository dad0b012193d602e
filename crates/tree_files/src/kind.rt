ghost use Rattle.tree_files.specs.Kinds.{word_of};

use mp_text::Kind;
use std::fmt::{self, Display, Formatter, Write};

/// What is wrong with a tree file.
#[derive(Clone, Copy, Debug, PartialEq, Eq)]
pub enum TreeKind {
    /// Line 1 is not `tree 1` or `tree 2`, or line 2 not `nodes` and one word.
    Header = 1,
    /// A word is no number, there are too few or too many of them, or a time is 0.
    Number,
    /// A parent is greater than the number of nodes.
    Parent,
    /// The parents of a node lead to no root.
    Cycle,
    /// The number of nodes is 0, or there are fewer or more node lines.
    Count,
    /// The text ends before `end`.
    NoEnd,
    /// A share is greater than the blocks of the children, or than the node's extra and block.
    Share,
}

impl Kind for TreeKind {
    ghost word_of = { word_of };

    fn word(self) -> &'static str {
        match self {
            TreeKind::Header => "header",
            TreeKind::Number => "number",
            TreeKind::Parent => "parent",
            TreeKind::Cycle => "cycle",
            TreeKind::Count => "count",
            TreeKind::NoEnd => "no-end",
            TreeKind::Share => "share",
        }
    }
}

impl Display for TreeKind {
    fn fmt<W: Write>(&self, f: &mut Formatter<W>) -> fmt::Result {
        f.write_str(self.word())
    }
}
