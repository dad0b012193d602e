//! The tasks of a term, listed without recursion: a stack of steps says what is still to be listed.

ghost use Rattle.std.specs.Prelude.{◌≡◌, ◌+◌, ◌-◌, ◌*◌, ◌<◌, ◌≤◌, ◌++◌, ℕ, List, IfOk, OnOk, length};
ghost use Rattle.std.specs.List.{sum_by};
ghost use Rattle.sp_terms.specs.Values.{IsTerms, term_of};
ghost use Rattle.term_orders.specs.Steps.{AreStarts, AreCounts, AreListed, TermHere, PartsHere, series_steps, walk, weight};

use crate::NoMemory;
use crate::side::Side;
use sp_terms::Position;
use std::alloc::Global;

/// What is still to be listed, the last step first: the tasks of the term that stands after so many positions and ends at one, those of the
/// terms side by side that do, or one task.
#[derive(Clone, Copy)]
pub enum Step {
    Open { start: u32, end: u32 },
    Beside { start: u32, end: u32 },
    Own(u32),
}

// Puts the steps of the parts of a term on the stack.
fn open_term(
    positions: &[Position],
    starts: &[u32],
    counts: &[u32],
    side: Side,
    start: u32,
    end: u32,
    steps: &mut Vec<Step>,
) -> Result<(), NoMemory>
    requires starts { AreStarts positions.now starts.now }
    requires counts { AreCounts positions.now counts.now }
    requires starts_len { length starts.now ≡ length positions.now + 1 }
    requires counts_len { length counts.now ≡ length positions.now + 1 }
    requires here { (xs : List ℕ) × TermHere positions.now side start end xs }
    ensures listed { OnOk result ((rest own : List ℕ) → AreListed positions.now side steps.old.items rest →
        TermHere positions.now side start end own → AreListed positions.now side steps.new.items (own ++ rest)) }
    ensures less { OnOk result (sum_by weight steps.new.items + 2 ≤ sum_by weight steps.old.items + 4 * (end - start)) }
{
    match positions[end as usize - 1] {
        Position::Hold(_) => Ok(()),
        Position::Task { .. } => {
            let middle = starts[end as usize - 1];
            let one = Step::Open { start, end: middle };
            let two = Step::Open {
                start: middle,
                end: end - 1,
            };
            let own = Step::Own(counts[end as usize]);
            push_series(side, one, own, two, steps)?;
            Ok(())
        }
        Position::Par(_) => {
            steps.push(Step::Beside {
                start,
                end: end - 1,
            })?;
            Ok(())
        }
    }
}

// The steps of a series: its first part, its task and its second part come one after the other, or the other way round.
fn push_series(
    side: Side,
    one: Step,
    own: Step,
    two: Step,
    steps: &mut Vec<Step>,
) -> Result<(), NoMemory>
    ensures { OnOk result (steps.new.items ≡ steps.old.items ++ series_steps side one own two) }
{
    match side {
        Side::FirstPart => {
            steps.push(two)?;
            steps.push(own)?;
            steps.push(one)?;
            Ok(())
        }
        Side::LastPart => {
            steps.push(one)?;
            steps.push(own)?;
            steps.push(two)?;
            Ok(())
        }
    }
}

// Puts the last of the terms side by side on the stack, and then those before it.
fn open_beside(
    positions: &[Position],
    starts: &[u32],
    side: Side,
    start: u32,
    end: u32,
    steps: &mut Vec<Step>,
) -> Result<(), NoMemory>
    requires starts { AreStarts positions.now starts.now }
    requires starts_len { length starts.now ≡ length positions.now + 1 }
    requires here { (xs : List ℕ) × PartsHere positions.now side start end xs }
    ensures listed { OnOk result ((rest own : List ℕ) → AreListed positions.now side steps.old.items rest →
        PartsHere positions.now side start end own → AreListed positions.now side steps.new.items (own ++ rest)) }
    ensures less { OnOk result (sum_by weight steps.new.items ≤ sum_by weight steps.old.items + 4 * (end - start)) }
{
    if start < end {
        let middle = starts[end as usize];
        steps.push(Step::Open { start: middle, end })?;
        steps.push(Step::Beside { start, end: middle })?;
    }
    Ok(())
}

/// The tasks of the term of these positions, those of parts side by side from left to right; the task of a series stands between those of
/// its parts, which come in turn, or the second first.
pub fn list_tasks(
    alloc: Global,
    positions: &[Position],
    starts: &[u32],
    counts: &[u32],
    side: Side,
) -> Result<Vec<u32>, NoMemory>
    requires terms { IsTerms positions.now }
    requires starts { AreStarts positions.now starts.now }
    requires counts { AreCounts positions.now counts.now }
    requires starts_len { length starts.now ≡ length positions.now + 1 }
    requires counts_len { length counts.now ≡ length positions.now + 1 }
    ensures { IfOk result (λ found. found.items ≡ walk side 1 (term_of positions.now)) }
{
    let mut found = Vec::new(alloc);
    let mut steps = Vec::new(alloc);
    steps.push(Step::Open {
        start: 0,
        end: positions.len() as u32,
    })?;
    while let Some(step) = steps.pop() {
        match step {
            Step::Open { start, end } => {
                open_term(positions, starts, counts, side, start, end, &mut steps)?;
            }
            Step::Beside { start, end } => {
                open_beside(positions, starts, side, start, end, &mut steps)?;
            }
            Step::Own(task) => found.push(task)?,
        }
    }
    Ok(found)
}
