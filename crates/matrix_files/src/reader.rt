ghost use Rattle.std.specs.Prelude.{◌≡◌, ◌≤◌, IfOk, IfErr, MatchResult};
ghost use Rattle.limits.specs.Limits.{most_order};
ghost use Rattle.mp_text.specs.Ahead.{row};
ghost use Rattle.mp_text.specs.Reading.{Steps};
ghost use Rattle.matrix_files.specs.MatrixFile.{matrix_format, ReadsPattern, IsMatrixRefusal};
ghost use Rattle.matrix_files.specs.Reader.{MatrixState, start, matrix_step, matrix_end, took};
ghost use Rattle.matrix_files.specs.Stated.{AreStated};

use crate::kind::MatrixKind;
use crate::lines::{Size, banner_on, entry_on, size_on};
use crate::stage::Stage;
use mp_text::{Layout, Line, Reader, Refusal, fault, read_with};
use patterns::Pattern;
use std::alloc::Global;
use std::marker::Model;

/// What the lines of a matrix file stated so far.
#[derive(Drop)]
struct MatrixReader {
    stage: Stage,
    values: usize,
    size: Size,
    pairs: Vec<(u32, u32)>,
}

impl Model for MatrixReader {
    ghost Value = { MatrixState };

    ghost view = { λ s. record {
      stage = s.stage;
      values = s.values;
      order = s.size.order;
      entries = s.size.entries;
      pairs = s.pairs.items;
    } };

    ghost invariant = { λ s. s.size.order ≤ most_order };
}

impl MatrixReader {
    /// A reader of which nothing was read.
    fn new(alloc: Global) -> MatrixReader
        ensures { result ≡ start }
    {
        MatrixReader {
            stage: Stage::Banner,
            values: 0,
            size: Size {
                order: 0,
                entries: 0,
            },
            pairs: Vec::new(alloc),
        }
    }

    // Takes a line.
    #[tactic(auto, unfolding(crate::specs::Reader::matrix_step))]
    fn take_line(&mut self, line: Line<'_>) -> Result<(), Refusal<MatrixKind>>
        ensures { Steps (matrix_step self.old (row line.entry.number line.entry.text.now)) result self.new }
    {
        match self.stage {
            Stage::Banner => {
                self.values = banner_on(line)?;
                self.stage = Stage::Size;
            }
            Stage::Size => {
                self.size = size_on(line)?;
                self.stage = Stage::Entries;
            }
            Stage::Entries => {
                let taken = self.pairs.len() as u64;
                let pair = entry_on(self.values, self.size, taken, line)?;
                self.pairs.push(pair)?;
            }
        }
        Ok(())
    }

    // Takes the end of the file.
    #[tactic(auto, unfolding(crate::specs::Reader::matrix_end))]
    fn take_end(&mut self, past: u64) -> Result<(), Refusal<MatrixKind>>
        ensures { Steps (matrix_end self.old past) result self.new }
    {
        match self.stage {
            Stage::Banner => Err(fault(past, MatrixKind::Banner)),
            Stage::Size => Err(fault(past, MatrixKind::SizeLine)),
            Stage::Entries => {
                if self.pairs.len() as u64 != self.size.entries {
                    return Err(fault(past, MatrixKind::TooFew));
                }
                Ok(())
            }
        }
    }
}

impl Reader for MatrixReader {
    type Kind = MatrixKind;

    ghost format = { λ _. matrix_format };

    ghost took = { took };

    fn line(&mut self, line: Line<'_>) -> Result<(), Refusal<MatrixKind>> {
        self.take_line(line)
    }

    fn end(&mut self, past: u64) -> Result<(), Refusal<MatrixKind>> {
        self.take_end(past)
    }
}

// The order, and the pairs of indices of the entries.
#[derive(Drop)]
struct Entries {
    order: u32,
    pairs: Vec<(u32, u32)>,
}

fn read_entries(alloc: Global, bytes: &[u8]) -> Result<Entries, Refusal<MatrixKind>>
    ensures stated { IfOk result (λ e. AreStated bytes.now e.order e.pairs.items) }
    ensures refused { IfErr result (IsMatrixRefusal bytes.now) }
{
    let reader = read_with(bytes, Layout::Banner, MatrixReader::new(alloc))?;
    let MatrixReader { size, pairs, .. } = reader;
    Ok(Entries {
        order: size.order as u32,
        pairs,
    })
}

/// The pattern of a matrix file in the coordinate format of Matrix Market, or why the file is refused: the first test that fails in
/// the first line that fails. The pattern is that of the matrix and its transpose together, without the diagonal, under every symmetry
/// word. The values of entries are counted and not read. The text is handed over: it is let go before the pattern is made, so that the
/// two are never held together.
pub fn read_pattern(alloc: Global, text: Vec<u8>) -> Result<Pattern, Refusal<MatrixKind>>
    ensures { MatchResult result (λ pattern. ReadsPattern text.items pattern) (IsMatrixRefusal text.items) }
{
    let entries = read_entries(alloc, &text)?;
    drop(text);
    Ok(Pattern::from_pairs(alloc, entries.order, entries.pairs)?)
}
