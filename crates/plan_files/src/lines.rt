//! One function for each kind of line of a plan file: its tests in the order of the format's table.

ghost use Rattle.std.specs.Prelude.{◌≡◌, ◌≤◌, ◌==◌, [], ◌∷◌, length, MatchOption, IfOk, Some, false, unsigned_abs, codes};
ghost use Rattle.limits.specs.Limits.{most_tasks, most_positions, most_total};
ghost use Rattle.mp_text.specs.Text.{number_of, signed_of, tokens_of};
ghost use Rattle.mp_text.specs.Ahead.{row};
ghost use Rattle.mp_text.specs.Reading.{Gives, tested};
ghost use Rattle.file_frame.specs.Frame.{stated_on};
ghost use Rattle.permutations.specs.Perm.{IsVertex, times};
ghost use Rattle.plan_files.specs.PlanFile.{is_number_up_to, dir_named, is_bound, order_section_tests, priority_section_tests, peak_tests};
ghost use Rattle.plan_files.specs.PlanFile.{claims_section_tests, task_on, order_tests, priority_tests, last_position, claim_on, claim_form};
ghost use Rattle.plan_files.specs.PlanFile.{claim_tests};

use crate::kind::PlanKind;
use file_frame::{count_on, number_on};
use limits::{LimitName, MOST_POSITIONS, MOST_TASKS, MOST_TOTAL};
use mp_text::{Line, Refusal, fault, number, signed, tokens};
use permutations::PartialPerm;
use plans::{Claim, Direction};

/// The greatest number of a task or a position.
pub const MOST_NUMBER: u64 = 4_294_967_295;

/// The number that a token spells, if it is at most this.
pub fn number_up_to(most: u64, token: &[u8]) -> Option<u64>
    ensures { MatchOption result (is_number_up_to most token.now ≡ false) (λ n. (number_of token.now ≡ Some n) × (n ≤ most)) }
{
    let value = number(token)?;
    (value <= most).then_some(value)
}

/// The bound that a token spells, if it is from -2^60 to 2^60.
pub fn bound_of(token: &[u8]) -> Option<i64>
    ensures { MatchOption result (is_bound token.now ≡ false) (λ z. (signed_of token.now ≡ Some z) × (unsigned_abs z ≤ most_total)) }
{
    let value = signed(token)?;
    (value.unsigned_abs() <= MOST_TOTAL).then_some(value)
}

// The direction that a token names.
#[tactic(auto, unfolding(crate::specs::PlanFile::dir_named))]
fn dir_named(token: &[u8]) -> Option<Direction>
    ensures { result ≡ dir_named token.now }
{
    if token == b"F".as_slice() {
        return Some(Direction::Forward);
    }
    if token == b"R".as_slice() {
        return Some(Direction::Backward);
    }
    None
}

/// `order N`: the number of tasks.
pub fn order_section_on(line: Line<'_>) -> Result<u64, Refusal<PlanKind>>
    ensures judged { let r = row line.entry.number line.entry.text.now in
        Gives (tested (order_section_tests r) (stated_on (codes "order") r)) result }
    ensures few { IfOk result (λ n. n ≤ most_tasks) }
{
    count_on(
        line,
        b"order",
        PlanKind::Section,
        PlanKind::Number,
        MOST_TASKS,
        LimitName::Tasks,
    )
}

/// `priority M`: the number of tasks that it ranks, all or none.
pub fn priority_section_on(tasks: u64, line: Line<'_>) -> Result<u64, Refusal<PlanKind>>
    ensures judged { let r = row line.entry.number line.entry.text.now in
        Gives (tested (priority_section_tests tasks r) (stated_on (codes "priority") r)) result }
    ensures few { IfOk result (λ n. n ≤ tasks) }
{
    let count = number_on(line, b"priority", PlanKind::Section, PlanKind::Number)?;
    if count != 0 && count != tasks {
        return Err(fault(line.number, PlanKind::Priority));
    }
    Ok(count)
}

/// `peak P`: the peak.
pub fn peak_on(line: Line<'_>) -> Result<u64, Refusal<PlanKind>>
    ensures { let r = row line.entry.number line.entry.text.now in Gives (tested (peak_tests r) (stated_on (codes "peak") r)) result }
{
    let peak = number_on(line, b"peak", PlanKind::Section, PlanKind::Number)?;
    if peak > MOST_TOTAL {
        return Err(fault(line.number, PlanKind::Number));
    }
    Ok(peak)
}

/// `claims C`: the number of claims.
pub fn claims_section_on(line: Line<'_>) -> Result<u64, Refusal<PlanKind>>
    ensures judged { let r = row line.entry.number line.entry.text.now in
        Gives (tested (claims_section_tests r) (stated_on (codes "claims") r)) result }
    ensures few { IfOk result (λ n. n ≤ most_positions) }
{
    count_on(
        line,
        b"claims",
        PlanKind::Section,
        PlanKind::Number,
        MOST_POSITIONS,
        LimitName::Positions,
    )
}

/// An order line: the task.
pub fn order_on(line: Line<'_>) -> Result<u32, Refusal<PlanKind>>
    ensures { let r = row line.entry.number line.entry.text.now in Gives (tested (order_tests r) (task_on r)) result }
{
    let token = tokens(line.text)
        .one()
        .ok_or(fault(line.number, PlanKind::Order))?;
    let task = number_up_to(MOST_NUMBER, token).ok_or(fault(line.number, PlanKind::Number))?;
    Ok(task as u32)
}

/// A priority line, after those whose tasks are ranked: the task.
pub fn priority_on(ranked: &PartialPerm, line: Line<'_>) -> Result<u32, Refusal<PlanKind>>
    ensures judged { let r = row line.entry.number line.entry.text.now in
        Gives (tested (priority_tests ranked.now.n ranked.now.numbers r) (task_on r)) result }
    ensures task { IfOk result (IsVertex ranked.now.n) }
    ensures fresh { IfOk result (λ task. times ranked.now.numbers task ≡ 0) }
{
    let token = tokens(line.text)
        .one()
        .ok_or(fault(line.number, PlanKind::Priority))?;
    let task = number(token).ok_or(fault(line.number, PlanKind::Number))?;
    if !ranked.takes(task) {
        return Err(fault(line.number, PlanKind::Priority));
    }
    Ok(task as u32)
}

// The position of the last claim, 0 where there is none.
fn last_position(claims: &[Claim]) -> u32
    ensures { result ≡ last_position claims.now }
{
    match claims {
        [] => 0,
        [.., last] => last.position,
    }
}

// The tokens of a line, where they are four.
fn four_words(text: &[u8]) -> Option<(&[u8], &[u8], &[u8], &[u8])>
    ensures { MatchOption result
        ((length (tokens_of text.now) == 4) ≡ false)
        (λ p. tokens_of text.now ≡ p.0.now ∷ p.1.now ∷ p.2.now ∷ p.3.now ∷ []) }
{
    let mut words = tokens(text);
    let first = words.next()?;
    let second = words.next()?;
    let third = words.next()?;
    let fourth = words.next()?;
    match words.next() {
        Some(_) => None,
        None => Some((first, second, third, fourth)),
    }
}

// The claim of a line, wherever its position is.
fn claim_stated(line: Line<'_>) -> Result<Claim, Refusal<PlanKind>>
    ensures { let r = row line.entry.number line.entry.text.now in Gives (tested (claim_form r) (claim_on r)) result }
{
    let no_claim = fault(line.number, PlanKind::Claim);
    let no_number = fault(line.number, PlanKind::Number);
    let (position, dir, bound, rest) = four_words(line.text).ok_or(no_claim)?;
    let dir = dir_named(dir).ok_or(no_claim)?;
    let position = number_up_to(MOST_NUMBER, position).ok_or(no_number)?;
    let bound = bound_of(bound).ok_or(no_number)?;
    let rest = number_up_to(MOST_TOTAL, rest).ok_or(no_number)?;
    Ok(Claim {
        position: position as u32,
        dir,
        bound,
        rest,
    })
}

/// A claim line, after these claims.
pub fn claim_on(claims: &[Claim], line: Line<'_>) -> Result<Claim, Refusal<PlanKind>>
    ensures { let r = row line.entry.number line.entry.text.now in Gives (tested (claim_tests claims.now r) (claim_on r)) result }
{
    let claim = claim_stated(line)?;
    if claim.position <= last_position(claims) {
        return Err(fault(line.number, PlanKind::Claim));
    }
    Ok(claim)
}
