//! One function for each kind of line that only version 3 has: its tests in the order of the format's table.

ghost use Rattle.std.specs.Prelude.{◌≡◌, ◌≤◌, ◌+◌, ◌==◌, [], ◌∷◌, length, MatchOption, IfOk, false, codes};
ghost use Rattle.limits.specs.Limits.{most_tasks, most_positions};
ghost use Rattle.mp_text.specs.Text.{tokens_of};
ghost use Rattle.mp_text.specs.Ahead.{row};
ghost use Rattle.mp_text.specs.Reading.{Gives, tested};
ghost use Rattle.file_frame.specs.Frame.{stated_on};
ghost use Rattle.plans.specs.Plan.{most_number};
ghost use Rattle.bounded_plan_files.specs.BoundedPlanFile.{says_third, third_header_tests, bound_tests, sort_tests, base_tests, blocker_tests};
ghost use Rattle.bounded_plan_files.specs.BoundedPlanFile.{blocker_task, own_stated, amount_tests, amount_on, last_place};
ghost use Rattle.bounded_plan_files.specs.declared.sort.Sort.TheVariants as sorts;

use file_frame::{after_word, count_on, number_on};
use limits::{LimitName, MOST_POSITIONS, MOST_TASKS, MOST_TOTAL};
use mp_text::{Line, Refusal, fault, number, tokens};
use peak_bounds::Amount;
use plan_files::{MOST_NUMBER, PlanKind, bound_of as amount_of, number_up_to};

/// Whether a line is `plan 3`.
pub fn says_third(line: Line<'_>) -> bool
    ensures { result ≡ says_third (row line.entry.number line.entry.text.now) }
{
    match after_word(line.text, b"plan") {
        Some(b"3") => true,
        _ => false,
    }
}

/// `plan 3`.
pub fn third_header_on(line: Line<'_>) -> Result<(), Refusal<PlanKind>>
    ensures { Gives (tested (third_header_tests (row line.entry.number line.entry.text.now)) tt) result }
{
    if !says_third(line) {
        return Err(fault(line.number, PlanKind::Header));
    }
    Ok(())
}

/// `bound L`: the bound.
pub fn bound_on(line: Line<'_>) -> Result<u64, Refusal<PlanKind>>
    ensures { let r = row line.entry.number line.entry.text.now in Gives (tested (bound_tests r) (stated_on (codes "bound") r)) result }
{
    let bound = number_on(line, b"bound", PlanKind::Section, PlanKind::Number)?;
    if bound > MOST_TOTAL {
        return Err(fault(line.number, PlanKind::Number));
    }
    Ok(bound)
}

/// `need T`: the task, or 0 for none.
pub fn need_on(line: Line<'_>) -> Result<u32, Refusal<PlanKind>>
    ensures { let r = row line.entry.number line.entry.text.now in
        Gives (tested (sort_tests sorts.Need r) (stated_on (codes "need") r)) result }
{
    let task = number_on(line, b"need", PlanKind::Section, PlanKind::Number)?;
    if task > MOST_NUMBER {
        return Err(fault(line.number, PlanKind::Number));
    }
    Ok(task as u32)
}

/// `states K`: how many states are looked at from the end, at most.
pub fn states_on(line: Line<'_>) -> Result<u32, Refusal<PlanKind>>
    ensures { let r = row line.entry.number line.entry.text.now in
        Gives (tested (sort_tests sorts.States r) (stated_on (codes "states") r)) result }
{
    let most = number_on(line, b"states", PlanKind::Section, PlanKind::Number)?;
    if most > MOST_NUMBER {
        return Err(fault(line.number, PlanKind::Number));
    }
    Ok(most as u32)
}

/// `first B`: the number of blockers.
pub fn first_on(line: Line<'_>) -> Result<u64, Refusal<PlanKind>>
    ensures judged { let r = row line.entry.number line.entry.text.now in
        Gives (tested (sort_tests sorts.First r) (stated_on (codes "first") r)) result }
    ensures few { IfOk result (λ n. n ≤ most_tasks) }
{
    count_on(
        line,
        b"first",
        PlanKind::Section,
        PlanKind::Number,
        MOST_TASKS,
        LimitName::Tasks,
    )
}

/// `last B`: the number of blockers.
pub fn last_on(line: Line<'_>) -> Result<u64, Refusal<PlanKind>>
    ensures judged { let r = row line.entry.number line.entry.text.now in
        Gives (tested (sort_tests sorts.Last r) (stated_on (codes "last") r)) result }
    ensures few { IfOk result (λ n. n ≤ most_tasks) }
{
    count_on(
        line,
        b"last",
        PlanKind::Section,
        PlanKind::Number,
        MOST_TASKS,
        LimitName::Tasks,
    )
}

/// `base K`: the number of amounts of the base.
pub fn base_on(line: Line<'_>) -> Result<u64, Refusal<PlanKind>>
    ensures judged { let r = row line.entry.number line.entry.text.now in
        Gives (tested (base_tests r) (stated_on (codes "base") r)) result }
    ensures few { IfOk result (λ n. n ≤ most_positions) }
{
    count_on(
        line,
        b"base",
        PlanKind::Section,
        PlanKind::Number,
        MOST_POSITIONS,
        LimitName::Positions,
    )
}

// The tokens of a line, where they are three.
fn three_words(text: &[u8]) -> Option<(&[u8], &[u8], &[u8])>
    ensures { MatchOption result
        ((length (tokens_of text.now) == 3) ≡ false)
        (λ p. tokens_of text.now ≡ p.0.now ∷ p.1.now ∷ p.2.now ∷ []) }
{
    let mut words = tokens(text);
    let first = words.next()?;
    let second = words.next()?;
    let third = words.next()?;
    match words.next() {
        Some(_) => None,
        None => Some((first, second, third)),
    }
}

// The tokens of a line, where they are two.
fn two_words(text: &[u8]) -> Option<(&[u8], &[u8])>
    ensures { MatchOption result ((length (tokens_of text.now) == 2) ≡ false) (λ p. tokens_of text.now ≡ p.0.now ∷ p.1.now ∷ []) }
{
    let mut words = tokens(text);
    let first = words.next()?;
    let second = words.next()?;
    match words.next() {
        Some(_) => None,
        None => Some((first, second)),
    }
}

/// What `blocker T D` says: the task, and how many amounts of its own it has.
#[derive(Clone, Copy)]
pub struct BlockerLine {
    pub task: u32,
    pub own: u64,
}

/// `blocker T D`, after so many amounts.
pub fn blocker_on(uses: u64, line: Line<'_>) -> Result<BlockerLine, Refusal<PlanKind>>
    requires { uses ≤ most_positions }
    ensures judged { let r = row line.entry.number line.entry.text.now in
        Gives (tested (blocker_tests uses r) (record { task = blocker_task r; own = own_stated r })) result }
    ensures few { IfOk result (λ b. uses + b.own ≤ most_positions) }
{
    let no_section = fault(line.number, PlanKind::Section);
    let no_number = fault(line.number, PlanKind::Number);
    let (word, task, own) = three_words(line.text).ok_or(no_section)?;
    if word != b"blocker".as_slice() {
        return Err(no_section);
    }
    let task = number_up_to(MOST_NUMBER, task).ok_or(no_number)?;
    let own = number(own).ok_or(no_number)?;
    if own > MOST_POSITIONS - uses {
        return Err(Refusal::Limit(LimitName::Positions));
    }
    Ok(BlockerLine {
        task: task as u32,
        own,
    })
}

// The place of the last amount, 0 where there is none.
fn last_place(amounts: &[Amount]) -> u32
    ensures { result ≡ last_place amounts.now }
{
    match amounts {
        [] => 0,
        [.., last] => last.place,
    }
}

/// A line of an amount, after these.
pub fn amount_on(amounts: &[Amount], line: Line<'_>) -> Result<Amount, Refusal<PlanKind>>
    ensures { let r = row line.entry.number line.entry.text.now in Gives (tested (amount_tests amounts.now r) (amount_on r)) result }
{
    let no_amount = fault(line.number, PlanKind::Amount);
    let no_number = fault(line.number, PlanKind::Number);
    let (place, amount) = two_words(line.text).ok_or(no_amount)?;
    let place = number_up_to(MOST_NUMBER, place).ok_or(no_number)?;
    let amount = amount_of(amount).ok_or(no_number)?;
    let place = place as u32;
    if place <= last_place(amounts) {
        return Err(no_amount);
    }
    Ok(Amount { place, amount })
}
