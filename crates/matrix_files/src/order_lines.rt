//! The lines of a report that states an order.

ghost use Rattle.std.specs.Prelude.{◌≡◌, [], ◌∷◌};
ghost use Rattle.mp_text.specs.Text.{tokens_of};
ghost use Rattle.mp_text.specs.Ahead.{row};
ghost use Rattle.mp_text.specs.Reading.{Gives, tested};
ghost use Rattle.file_frame.specs.Frame.{is_end};
ghost use Rattle.matrix_files.specs.OrderFile.{is_report, number_after, peak_tests, count_on, count_tests};

use crate::order_file::OrderFileKind;
use file_frame::{after_word, is_word};
use limits::{LimitName, MOST_TASKS};
use mp_text::{Line, Refusal, fault, number, tokens};

/// Whether a first line begins a report.
pub fn is_report(line: Line<'_>) -> bool
    ensures { result ≡ is_report (row line.entry.number line.entry.text.now ∷ []) }
{
    match tokens(line.text).next() {
        Some(first) => first == b"peak".as_slice(),
        None => false,
    }
}

/// Whether a line is `end`.
pub fn is_end(line: Line<'_>) -> bool
    ensures { result ≡ is_end (row line.entry.number line.entry.text.now) }
{
    is_word(line.text, b"end")
}

// The number after a word, where the line has nothing else.
fn number_after(text: &[u8], word: &[u8]) -> Option<u64>
    ensures { result ≡ number_after word.now (tokens_of text.now) }
{
    number(after_word(text, word)?)
}

/// `peak P`, whose number is not asked for.
pub fn peak_on(line: Line<'_>) -> Result<(), Refusal<OrderFileKind>>
    ensures { Gives (tested (peak_tests (row line.entry.number line.entry.text.now)) tt) result }
{
    match number_after(line.text, b"peak") {
        Some(_) => Ok(()),
        None => Err(fault(line.number, OrderFileKind::Header)),
    }
}

/// `order N`: how many numbers there are to be.
pub fn count_on(line: Line<'_>) -> Result<u64, Refusal<OrderFileKind>>
    ensures { let r = row line.entry.number line.entry.text.now in Gives (tested (count_tests r) (count_on r)) result }
{
    let stated = number_after(line.text, b"order");
    let count = stated.ok_or(fault(line.number, OrderFileKind::Header))?;
    if count > MOST_TASKS {
        return Err(Refusal::Limit(LimitName::Tasks));
    }
    Ok(count)
}
