//! One function for each kind of line of a fence file: its tests in the order of the format's table.

ghost use Rattle.std.specs.Prelude.{◌≡◌, codes};
ghost use Rattle.mp_text.specs.Ahead.{row};
ghost use Rattle.mp_text.specs.Reading.{Gives, tested};
ghost use Rattle.mp_text.specs.Text.{numbers_of, tokens_of};
ghost use Rattle.file_frame.specs.Frame.{stated_on};
ghost use Rattle.fence_files.specs.FenceFile.{fences_header_tests, bound_tests, workers_tests, room_tests, joins_section_tests};
ghost use Rattle.fence_files.specs.FenceFile.{fences_section_tests, amounts_section_tests, only_number, one_on, join_tests, fence_on};
ghost use Rattle.fence_files.specs.FenceFile.{fence_tests, amount_tests};

use crate::kind::FenceKind;
use fences::Fence;
use file_frame::{Version, count_on, header_on, number_on};
use limits::{LimitName, MOST_POSITIONS, MOST_TASKS, MOST_WORKERS};
use mp_text::{Line, Refusal, fault, tokens};

// The greatest number of a task or a join, and the greatest place of an item.
const MOST_NUMBER: u64 = 4_294_967_295;

/// `fences 1`.
pub fn fences_header_on(line: Line<'_>) -> Result<(), Refusal<FenceKind>>
    ensures { Gives (tested (fences_header_tests (row line.entry.number line.entry.text.now)) tt) result }
{
    header_on(line, b"fences", Version::One, FenceKind::Header)?;
    Ok(())
}

/// `bound B`: the bound.
pub fn bound_on(line: Line<'_>) -> Result<u64, Refusal<FenceKind>>
    ensures { let r = row line.entry.number line.entry.text.now in
        Gives (tested (bound_tests r) (stated_on (codes "bound") r)) result }
{
    number_on(line, b"bound", FenceKind::Section, FenceKind::Number)
}

/// `workers W`: the number of workers, 0 for any number.
pub fn workers_on(line: Line<'_>) -> Result<u32, Refusal<FenceKind>>
    ensures { let r = row line.entry.number line.entry.text.now in
        Gives (tested (workers_tests r) (stated_on (codes "workers") r)) result }
{
    let count = number_on(line, b"workers", FenceKind::Section, FenceKind::Number)?;
    if count > u64::from(MOST_WORKERS) {
        return Err(fault(line.number, FenceKind::Workers));
    }
    Ok(count as u32)
}

/// `room L`, after that many workers: what is set aside for each of them.
pub fn room_on(workers: u32, line: Line<'_>) -> Result<u64, Refusal<FenceKind>>
    ensures { let r = row line.entry.number line.entry.text.now in
        Gives (tested (room_tests workers r) (stated_on (codes "room") r)) result }
{
    let room = number_on(line, b"room", FenceKind::Section, FenceKind::Number)?;
    if workers == 0 && room != 0 {
        return Err(fault(line.number, FenceKind::Workers));
    }
    Ok(room)
}

/// `joins J`: the number of joins.
pub fn joins_section_on(line: Line<'_>) -> Result<u64, Refusal<FenceKind>>
    ensures { let r = row line.entry.number line.entry.text.now in
        Gives (tested (joins_section_tests r) (stated_on (codes "joins") r)) result }
{
    count_on(
        line,
        b"joins",
        FenceKind::Section,
        FenceKind::Number,
        MOST_TASKS,
        LimitName::Tasks,
    )
}

/// `fences K`: the number of fences.
pub fn fences_section_on(line: Line<'_>) -> Result<u64, Refusal<FenceKind>>
    ensures { let r = row line.entry.number line.entry.text.now in
        Gives (tested (fences_section_tests r) (stated_on (codes "fences") r)) result }
{
    count_on(
        line,
        b"fences",
        FenceKind::Section,
        FenceKind::Number,
        MOST_POSITIONS,
        LimitName::Positions,
    )
}

/// `amounts N`: the number of amounts.
pub fn amounts_section_on(line: Line<'_>) -> Result<u64, Refusal<FenceKind>>
    ensures { let r = row line.entry.number line.entry.text.now in
        Gives (tested (amounts_section_tests r) (stated_on (codes "amounts") r)) result }
{
    count_on(
        line,
        b"amounts",
        FenceKind::Section,
        FenceKind::Number,
        MOST_POSITIONS,
        LimitName::Positions,
    )
}

// The number of a line that has just one.
fn only_number(text: &[u8]) -> Option<u64>
    ensures { result ≡ only_number (numbers_of (tokens_of text.now)) }
{
    let [number] = tokens(text).numbers::<1>()?;
    Some(number)
}

/// A join line: the place of an item.
pub fn join_on(line: Line<'_>) -> Result<u32, Refusal<FenceKind>>
    ensures { let r = row line.entry.number line.entry.text.now in Gives (tested (join_tests r) (one_on r)) result }
{
    let place = only_number(line.text).ok_or(fault(line.number, FenceKind::Join))?;
    if place == 0 || place > MOST_NUMBER {
        return Err(fault(line.number, FenceKind::Number));
    }
    Ok(place as u32)
}

/// A fence line.
pub fn fence_on(line: Line<'_>) -> Result<Fence, Refusal<FenceKind>>
    ensures { let r = row line.entry.number line.entry.text.now in Gives (tested (fence_tests r) (fence_on r)) result }
{
    let [from, to] = tokens(line.text)
        .numbers::<2>()
        .ok_or(fault(line.number, FenceKind::Fence))?;
    if from > MOST_NUMBER || to > MOST_NUMBER {
        return Err(fault(line.number, FenceKind::Number));
    }
    Ok(Fence {
        from: from as u32,
        to: to as u32,
    })
}

/// An amount line: the amount.
pub fn amount_on(line: Line<'_>) -> Result<u64, Refusal<FenceKind>>
    ensures { let r = row line.entry.number line.entry.text.now in Gives (tested (amount_tests r) (one_on r)) result }
{
    only_number(line.text).ok_or(fault(line.number, FenceKind::Amount))
}
