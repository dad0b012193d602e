ghost use Rattle.std.specs.Prelude.{◌≡◌, false, IsTrue, MatchResult, MatchOption, IfOk};
ghost use Rattle.lists.specs.Numbers.{from_one};
ghost use Rattle.mp_text.specs.Ahead.{row};
ghost use Rattle.mp_text.specs.Reading.{Gives, Steps, tested};
ghost use Rattle.matrix_files.specs.OrderKinds.{perm_word};
ghost use Rattle.permutations.specs.Perm.{IsVertex, PermState, times};
ghost use Rattle.matrix_files.specs.PermFile.{counted, is_vertex, perm_token_tests, numbering_format, ReadsPerm, IsPermRefusal};
ghost use Rattle.matrix_files.specs.OrderReader.{vertex_step, perm_step, perm_end, took_perm};
ghost use Rattle.matrix_files.specs.OrderReader.{ReadsNumbering, IsFormatRefusal};

use mp_text::{Kind, Layout, Line, Reader, Refusal, fault, number, read_with, tokens};
use permutations::{PartialPerm, Perm};
use std::alloc::Global;
use std::fmt::{self, Display, Formatter, Write};
use std::marker::Model;

/// What is wrong with a permutation file.
#[derive(Clone, Copy, Debug, PartialEq, Eq)]
pub enum PermKind {
    /// A token is no number.
    Number = 1,
    /// A number is 0 or above the number of vertices.
    Range,
    /// A number stands in the file twice.
    Repeated,
    /// There are more numbers than vertices, or fewer.
    Count,
}

impl Kind for PermKind {
    ghost word_of = { perm_word };

    fn word(self) -> &'static str {
        match self {
            PermKind::Number => "number",
            PermKind::Range => "range",
            PermKind::Repeated => "repeated",
            PermKind::Count => "count",
        }
    }
}

impl Display for PermKind {
    fn fmt<W: Write>(&self, f: &mut Formatter<W>) -> fmt::Result {
        f.write_str(self.word())
    }
}

/// The numbers of a file that counts from `BASE`, those that were taken so far, counted from 1.
#[derive(Drop)]
struct PermReader<const BASE: u32> {
    taken: PartialPerm,
}

impl<const BASE: u32> Model for PermReader<BASE> {
    ghost Value = { PermState };

    ghost view = { λ s. s.taken };
}

// A number that counts from a base, counted from 1, where it is one of n.
fn counted(base: u32, n: u32, value: u64) -> Option<u32>
    ensures { MatchOption result (is_vertex n (from_one base value) ≡ false)
        (λ v. (v ≡ from_one base value) × IsVertex n v × IsTrue (is_vertex n (from_one base value))) }
{
    let base = u64::from(base);
    if value < base || value - base >= u64::from(n) {
        return None;
    }
    Some((value - base) as u32 + 1)
}

/// The number that a token states, which counts from a base, counted from 1, where it can come next after those that were taken.
pub(crate) fn number_on(
    base: u32,
    taken: &PartialPerm,
    line: u64,
    token: &[u8],
) -> Result<u32, Refusal<PermKind>>
    ensures judged { let s = taken.now in
        Gives (tested (perm_token_tests base s.n line s.numbers token.now) (counted base token.now)) result }
    ensures range { IfOk result (λ v. IsVertex taken.now.n v) }
    ensures fresh { IfOk result (λ v. times taken.now.numbers v ≡ 0) }
{
    let value = number(token).ok_or(fault(line, PermKind::Number))?;
    let n = taken.whole_len();
    if taken.len() >= n as usize {
        return Err(fault(line, PermKind::Count));
    }
    let Some(vertex) = counted(base, n, value) else {
        return Err(fault(line, PermKind::Range));
    };
    if taken.has(vertex) {
        return Err(fault(line, PermKind::Repeated));
    }
    Ok(vertex)
}

impl<const BASE: u32> PermReader<BASE> {
    // Takes one token more.
    #[tactic(auto, unfolding(crate::specs::OrderReader::vertex_step))]
    fn take(&mut self, line: u64, token: &[u8]) -> Result<(), Refusal<PermKind>>
        ensures { Steps (vertex_step BASE line self.old token.now) result self.new }
    {
        let vertex = number_on(BASE, &self.taken, line, token)?;
        self.taken.push(vertex)?;
        Ok(())
    }

    // Takes the tokens of a line.
    fn take_line(&mut self, line: Line<'_>) -> Result<(), Refusal<PermKind>>
        ensures { Steps (perm_step BASE self.old (row line.entry.number line.entry.text.now)) result self.new }
    {
        for token in tokens(line.text) {
            self.take(line.number, token)?;
        }
        Ok(())
    }

    // Takes the end of the file.
    fn take_end(&mut self, past: u64) -> Result<(), Refusal<PermKind>>
        ensures { Steps (perm_end self.old past) result self.new }
    {
        if self.taken.len() < self.taken.whole_len() as usize {
            return Err(fault(past, PermKind::Count));
        }
        Ok(())
    }
}

impl<const BASE: u32> Reader for PermReader<BASE> {
    type Kind = PermKind;

    ghost format = { λ s. numbering_format BASE s.n };

    ghost took = { took_perm BASE };

    fn line(&mut self, line: Line<'_>) -> Result<(), Refusal<PermKind>> {
        self.take_line(line)
    }

    fn end(&mut self, past: u64) -> Result<(), Refusal<PermKind>> {
        self.take_end(past)
    }
}

/// The numbers that a file holds, counted from 1, where they are `n` that count from `BASE`, each once.
pub(crate) fn read_numbering<const BASE: u32>(
    alloc: Global,
    bytes: &[u8],
    n: u32,
) -> Result<Perm, Refusal<PermKind>>
    ensures { MatchResult result (λ perm. ReadsNumbering BASE n bytes.now perm) (IsFormatRefusal (numbering_format BASE n) bytes.now) }
{
    let taken = PartialPerm::new(alloc, n)?;
    let reader = read_with(bytes, Layout::Commented, PermReader::<BASE> { taken })?;
    Ok(reader.taken.finish())
}

/// The permutation of 1 to `n` that a file holds, or why it is refused. Linear in the file and in `n`. It answers no limit.
pub fn read_perm(alloc: Global, bytes: &[u8], n: u32) -> Result<Perm, Refusal<PermKind>>
    ensures { MatchResult result (λ perm. ReadsPerm n bytes.now perm) (IsPermRefusal n bytes.now) }
{
    read_numbering::<1>(alloc, bytes, n)
}
