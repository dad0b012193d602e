ghost use Rattle.matrix_files.specs.Kinds.{word_of};

use mp_text::Kind;
use std::fmt::{self, Display, Formatter, Write};

/// What is wrong with a matrix file.
#[derive(Clone, Copy, Debug, PartialEq, Eq)]
pub enum MatrixKind {
    /// Line 1 is not `%%MatrixMarket` and four more words, or its format is neither `coordinate` nor `array`.
    Banner = 1,
    /// The object is not `matrix`.
    NotMatrix,
    /// The format is `array`, which is not read.
    ArrayFormat,
    /// The field is none of `pattern`, `real`, `double`, `integer`, `unsigned-integer`, `complex`.
    Field,
    /// The symmetry is none of `general`, `symmetric`, `hermitian`, `skew-symmetric`.
    Symmetry,
    /// The size line is not three numbers of which the first two are not 0, or it is missing.
    SizeLine,
    /// There are more rows than columns, or fewer.
    NotSquare,
    /// An entry is not two numbers and the values of its field.
    Entry,
    /// An index is 0 or greater than the order.
    Index,
    /// There are fewer entries than stated.
    TooFew,
    /// There are more entries than stated.
    TooMany,
}

impl Kind for MatrixKind {
    ghost word_of = { word_of };

    fn word(self) -> &'static str {
        match self {
            MatrixKind::Banner => "banner",
            MatrixKind::NotMatrix => "not-matrix",
            MatrixKind::ArrayFormat => "array-format",
            MatrixKind::Field => "field",
            MatrixKind::Symmetry => "symmetry",
            MatrixKind::SizeLine => "size-line",
            MatrixKind::NotSquare => "not-square",
            MatrixKind::Entry => "entry",
            MatrixKind::Index => "index",
            MatrixKind::TooFew => "too-few",
            MatrixKind::TooMany => "too-many",
        }
    }
}

impl Display for MatrixKind {
    fn fmt<W: Write>(&self, f: &mut Formatter<W>) -> fmt::Result {
        f.write_str(self.word())
    }
}
