//! One function for each line of the frame: its tests in their order. Where a test fails, the kind of the fault is what the format calls it.

ghost use Rattle.std.specs.Prelude.{◌≡◌, ◌≤◌, IfOk};
ghost use Rattle.mp_text.specs.Ahead.{row};
ghost use Rattle.mp_text.specs.Reading.{Gives, tested};
ghost use Rattle.file_frame.specs.Frame.{header_tests, version_stated, section_tests, stated_on, count_tests, last_tests};

use crate::version::{Version, version_of};
use crate::words::{after_word, is_word};
use limits::LimitName;
use mp_text::{Line, Refusal, fault, number};

/// Line 1: the version, up to the newest of the format.
pub fn header_on<K: Copy>(
    line: Line<'_>,
    name: &[u8],
    newest: Version,
    no_header: K,
) -> Result<Version, Refusal<K>>
    ensures { let r = row line.entry.number line.entry.text.now in
        Gives (tested (header_tests name.now newest no_header r) (version_stated name.now newest r)) result }
{
    match version_of(line.text, name, newest) {
        Some(version) => Ok(version),
        None => Err(fault(line.number, no_header)),
    }
}

/// A line that begins a section: the number after the word.
pub fn number_on<K: Copy>(
    line: Line<'_>,
    word: &[u8],
    no_word: K,
    no_number: K,
) -> Result<u64, Refusal<K>>
    ensures { let r = row line.entry.number line.entry.text.now in
        Gives (tested (section_tests word.now no_word no_number r) (stated_on word.now r)) result }
{
    match after_word(line.text, word) {
        Some(token) => number(token).ok_or(fault(line.number, no_number)),
        None => Err(fault(line.number, no_word)),
    }
}

/// The same, where the number is within a limit.
pub fn count_on<K: Copy>(
    line: Line<'_>,
    word: &[u8],
    no_word: K,
    no_number: K,
    most: u64,
    limit: LimitName,
) -> Result<u64, Refusal<K>>
    ensures judged { let r = row line.entry.number line.entry.text.now in
        Gives (tested (count_tests word.now no_word no_number most limit r) (stated_on word.now r)) result }
    ensures within { IfOk result (λ n. n ≤ most) }
{
    let count = number_on(line, word, no_word, no_number)?;
    if count > most {
        return Err(Refusal::Limit(limit));
    }
    Ok(count)
}

/// The last line, `end`.
pub fn end_on<K: Copy>(line: Line<'_>, no_end: K) -> Result<(), Refusal<K>>
    ensures { Gives (tested (last_tests no_end (row line.entry.number line.entry.text.now)) tt) result }
{
    if !is_word(line.text, b"end") {
        return Err(fault(line.number, no_end));
    }
    Ok(())
}
