//! Files are judged line by line: a reader takes the lines one after the other, and then the end.

ghost use Rattle.std.specs.Prelude.{◌≡◌, List, [], ◌∷◌, ◌++◌, IfOk, IfErr};
ghost use Rattle.mp_text.specs.Text.{Row};
ghost use Rattle.mp_text.specs.Ahead.{row, rows_of_bytes, past_of_bytes};
ghost use Rattle.mp_text.specs.Grammar.{Format, ArePassed, IsWellFormed};
ghost use Rattle.mp_text.specs.Reading.{Judges, IsRefusal};

use crate::layout::Layout;
use crate::line_scan::{Line, Lines};
use crate::refusals::Refusal;

/// What judges the lines of one kind of file, by the tests of its format: `took` says that the reader stands after these lines.
pub trait Reader: Drop {
    /// What a fault of the format can be.
    type Kind;

    ghost format: { Self → Format Self.Kind };

    ghost took: { Self → List Row → Type 0 };

    /// Takes a line.
    fn line(&mut self, line: Line<'_>) -> Result<(), Refusal<Self::Kind>>
        ensures { (before : List Row) → took self.old before → ArePassed (format self.old) before →
            let r = row line.entry.number line.entry.text.now in
            Judges ((format self.old).line_tests before r)
            (λ next. took next (before ++ r ∷ []) × (format next ≡ format self.old)) result self.new };

    /// Takes the end of the file, with the number of the line past the last.
    fn end(&mut self, past: u64) -> Result<(), Refusal<Self::Kind>>
        ensures { (rows : List Row) → took self.old rows → ArePassed (format self.old) rows →
            Judges ((format self.old).end_tests rows past) (λ next. took next rows) result self.new };
}

/// Reads a file: the reader after all its lines and its end, or the first refusal.
pub fn read_with<J: Reader>(
    bytes: &[u8],
    layout: Layout,
    mut reader: J,
) -> Result<J, Refusal<J::Kind>>
    requires { J.took reader [] }
    // a file that is read is well formed, and the reader took its lines
    ensures read { let rows = rows_of_bytes layout bytes.now in
        IfOk result (λ done. IsWellFormed (J.format reader) rows (past_of_bytes bytes.now) × J.took done rows) }
    // a refusal is that of the first test that fails
    ensures refused { IfErr result (IsRefusal (J.format reader) (rows_of_bytes layout bytes.now) (past_of_bytes bytes.now)) }
{
    let mut lines = Lines::new(bytes, layout);
    while let Some(line) = lines.next_line() {
        reader.line(line)?;
    }
    reader.end(lines.past())?;
    Ok(reader)
}
