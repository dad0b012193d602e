ghost use Rattle.plan_files.specs.Kinds.{word_of};

use mp_text::Kind;
use std::fmt::{self, Display, Formatter, Write};

/// What is wrong with a plan file.
#[derive(Clone, Copy, Debug, PartialEq, Eq)]
pub enum PlanKind {
    /// Line 1 is not `plan` and a version that is read here.
    Header = 1,
    /// A word is no number, or a number is out of its range.
    Number,
    /// A section does not begin with its word and one word more.
    Section,
    /// An order line has not one word.
    Order,
    /// A claim line has not four words of which the second is `F` or `R`, or its position does not rise.
    Claim,
    /// The text ends before `end`, something else stands in its place, or a line follows.
    NoEnd,
    /// A priority ranks neither all tasks nor none, a priority line has not one word, or its task is none or stood before.
    Priority,
    /// An amount line has not two words, or its place does not rise. No file of version 1 or 2 has one.
    Amount,
    /// A plan's JSON is no JSON text, or has no member `order` that is an array. No file of lines has this.
    Json,
}

impl Kind for PlanKind {
    ghost word_of = { word_of };

    fn word(self) -> &'static str {
        match self {
            PlanKind::Header => "header",
            PlanKind::Number => "number",
            PlanKind::Section => "section",
            PlanKind::Order => "order",
            PlanKind::Claim => "claim",
            PlanKind::NoEnd => "no-end",
            PlanKind::Priority => "priority",
            PlanKind::Amount => "amount",
            PlanKind::Json => "json",
        }
    }
}

impl Display for PlanKind {
    fn fmt<W: Write>(&self, f: &mut Formatter<W>) -> fmt::Result {
        f.write_str(self.word())
    }
}
