ghost use Rattle.std.specs.Prelude.{◌≡◌};
ghost use Rattle.claim_check.specs.Shapes.{position_shape, word_of};

use sp_terms::Position;
use std::fmt::{self, Display, Formatter, Write};

/// What stands at the position of a claim that is objected to.
#[derive(Clone, Copy, Debug, PartialEq, Eq)]
pub enum Shape {
    /// A data item.
    Hold,
    /// A task between two terms.
    Series,
    /// Terms side by side.
    Par,
    /// Nothing: the position is past the last one of the term, or 0.
    Outside,
}

impl Shape {
    /// The word for it in reports.
    pub fn word(self) -> &'static str
        ensures { result.now ≡ word_of self }
    {
        match self {
            Shape::Hold => "data",
            Shape::Series => "series",
            Shape::Par => "par",
            Shape::Outside => "outside",
        }
    }
}

impl Display for Shape {
    fn fmt<W: Write>(&self, f: &mut Formatter<W>) -> fmt::Result {
        f.write_str(self.word())
    }
}

/// What stands at a position, as an objection names it.
pub(crate) fn shape_of(position: Position) -> Shape
    ensures { result ≡ position_shape position }
{
    match position {
        Position::Hold(_) => Shape::Hold,
        Position::Task { .. } => Shape::Series,
        Position::Par(_) => Shape::Par,
    }
}
