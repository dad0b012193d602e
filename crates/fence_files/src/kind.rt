ghost use Rattle.fence_files.specs.Kinds.{word_of};

use mp_text::Kind;
use std::fmt::{self, Display, Formatter, Write};

/// What is wrong with a fence file.
#[derive(Clone, Copy, Debug, PartialEq, Eq)]
pub enum FenceKind {
    /// Line 1 is not `fences 1`.
    Header = 1,
    /// A line before a section, or that of the bound, the workers or the room, is not its word and one word more.
    Section,
    /// A word behind such a word is no number, or a number is out of its range.
    Number,
    /// A join line has not one number.
    Join,
    /// A fence line has not two numbers.
    Fence,
    /// An amount line has not one number.
    Amount,
    /// There are more workers than there may be, or room is set aside where there may be any number of them.
    Workers,
    /// The text ends before `end`, something else stands in its place, or a line follows.
    NoEnd,
}

impl Kind for FenceKind {
    ghost word_of = { word_of };

    fn word(self) -> &'static str {
        match self {
            FenceKind::Header => "header",
            FenceKind::Section => "section",
            FenceKind::Number => "number",
            FenceKind::Join => "join",
            FenceKind::Fence => "fence",
            FenceKind::Amount => "amount",
            FenceKind::Workers => "workers",
            FenceKind::NoEnd => "no-end",
        }
    }
}

impl Display for FenceKind {
    fn fmt<W: Write>(&self, f: &mut Formatter<W>) -> fmt::Result {
        f.write_str(self.word())
    }
}
