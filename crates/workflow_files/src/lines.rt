//! One function for each line of a workflow file: its tests in the order of the format's table.

ghost use Rattle.std.specs.Prelude.{◌≡◌, ◌≤◌, Some, IfOk};
ghost use Rattle.limits.specs.Limits.{most_positions};
ghost use Rattle.mp_text.specs.Text.{numbers_of};
ghost use Rattle.mp_text.specs.Ahead.{row};
ghost use Rattle.mp_text.specs.Reading.{Gives, tested};
ghost use Rattle.sp_terms.specs.Builder.{IsPosition};
ghost use Rattle.sp_terms.specs.Postfix.{at_task};
ghost use Rattle.sp_terms.specs.declared.position.Position.TheVariants.{Par};
ghost use Rattle.workflow_files.specs.WorkflowFile.{workflow_count_tests, workflow_count, only, task_from};
ghost use Rattle.workflow_files.specs.WorkflowFile.{position_from, stated_or, stated_tests, begins_end, workflow_last_tests};

use crate::kind::WorkflowKind;
use crate::word::Word;
use file_frame::{Version, count_on};
use limits::{LimitName, MOST_TASKS};
use mp_system::Task;
use mp_text::{Line, Refusal, Tokens, fault, tokens};
use sp_terms::Position;

/// Line 2: the number of tasks.
pub fn task_count_on(line: Line<'_>) -> Result<u64, Refusal<WorkflowKind>>
    ensures { let r = row line.entry.number line.entry.text.now in Gives (tested (workflow_count_tests r) (workflow_count r)) result }
{
    count_on(
        line,
        b"tasks",
        WorkflowKind::Header,
        WorkflowKind::Number,
        MOST_TASKS,
        LimitName::Tasks,
    )
}

// The number of a line that has just one.
fn only_number(words: Tokens<'_>) -> Option<u64>
    ensures { result ≡ only (numbers_of words.entry) }
{
    let [number] = words.numbers::<1>()?;
    Some(number)
}

// The numbers of a task line that has just these.
fn task_numbers(version: Version, words: Tokens<'_>) -> Option<Task>
    ensures { result ≡ task_from version (numbers_of words.entry) }
{
    match version {
        Version::One => {
            let [extra, time] = words.numbers::<2>()?;
            Some(Task {
                extra,
                share: 0,
                time,
            })
        }
        Version::Two => {
            let [extra, share, time] = words.numbers::<3>()?;
            Some(Task { extra, share, time })
        }
    }
}

// A task of a file of so many tasks, after lines that left so many terms and had so many tasks.
fn task_on(
    count: u64,
    height: u64,
    tasks: u64,
    line: u64,
    task: Task,
) -> Result<Position, Refusal<WorkflowKind>>
    ensures judged { Gives (tested (stated_tests count height tasks (Some (at_task task)) line) (at_task task)) result }
    ensures position { IfOk result IsPosition }
{
    let Task { extra, share, time } = task;
    if time == 0 {
        return Err(fault(line, WorkflowKind::Number));
    }
    if height < 2 {
        return Err(fault(line, WorkflowKind::StackShort));
    }
    if tasks >= count {
        return Err(fault(line, WorkflowKind::TaskCount));
    }
    Ok(Position::Task { extra, share, time })
}

// So many of the last terms side by side, after lines that left so many terms; it is no task, so numbers of tasks do not matter.
fn par_on(height: u64, line: u64, parts: u64) -> Result<Position, Refusal<WorkflowKind>>
    requires { height ≤ most_positions }
    ensures judged { Gives (tested (stated_tests 0 height 0 (Some (Par parts)) line) (Par parts)) result }
    ensures position { IfOk result IsPosition }
{
    if parts < 2 {
        return Err(fault(line, WorkflowKind::Number));
    }
    if parts > height {
        return Err(fault(line, WorkflowKind::StackShort));
    }
    Ok(Position::Par(parts as u32))
}

/// What a word and the tokens after it state in a file of so many tasks, after lines that left so many terms and had so many tasks. The
/// limits and the share of the position are judged where it is taken.
pub fn position_on(
    version: Version,
    count: u64,
    height: u64,
    tasks: u64,
    line: u64,
    word: Word,
    words: Tokens<'_>,
) -> Result<Position, Refusal<WorkflowKind>>
    requires { height ≤ most_positions }
    ensures judged { let stated = position_from version (Some word) (numbers_of words.entry) in
        Gives (tested (stated_tests count height tasks stated line) (stated_or stated)) result }
    ensures position { IfOk result IsPosition }
{
    let no_numbers = fault(line, WorkflowKind::Number);
    match word {
        Word::Data => Ok(Position::Hold(only_number(words).ok_or(no_numbers)?)),
        Word::Task => {
            let task = task_numbers(version, words).ok_or(no_numbers)?;
            task_on(count, height, tasks, line, task)
        }
        Word::Par => par_on(height, line, only_number(words).ok_or(no_numbers)?),
    }
}

/// Whether a line begins with the word `end`.
pub fn begins_end(line: Line<'_>) -> bool
    ensures { result ≡ begins_end (row line.entry.number line.entry.text.now) }
{
    match tokens(line.text).next() {
        Some(word) => word == b"end".as_slice(),
        None => false,
    }
}

/// A line that begins with `end`, in a file of so many tasks, after lines that left so many terms and had so many tasks.
pub fn last_on(
    count: u64,
    height: u64,
    tasks: u64,
    line: Line<'_>,
) -> Result<(), Refusal<WorkflowKind>>
    ensures { Gives (tested (workflow_last_tests count height tasks (row line.entry.number line.entry.text.now)) tt) result }
{
    if tokens(line.text).one().is_none() {
        return Err(fault(line.number, WorkflowKind::Number));
    }
    if height != 1 {
        return Err(fault(line.number, WorkflowKind::NotOneTerm));
    }
    if tasks != count {
        return Err(fault(line.number, WorkflowKind::TaskCount));
    }
    Ok(())
}
