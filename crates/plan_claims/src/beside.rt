//! The walk at the position of parts side by side.

ghost use Rattle.std.specs.Prelude.{◌≡◌, ℕ, ◌+◌, ◌-◌, ◌<◌, ◌≤◌, ◌^◌, ◌++◌, if◌then◌else◌, length, Option, Some, None, OnOk};
ghost use Rattle.limits.specs.Limits.{most_total};
ghost use Rattle.side_laws.specs.Segments.{net_sum};
ghost use Rattle.hill_valley.specs.Numbers.{segments_listed};
ghost use Rattle.sp_terms.specs.Term.{par, Parts, count};
ghost use Rattle.plans.specs.Plan.{direction_of};
ghost use Rattle.sp_cuts.specs.Notes.{Noted, noted_in, cut_at};
ghost use Rattle.plan_claims.specs.declared.wanted.Wanted.{Wanted};
ghost use Rattle.plan_claims.specs.Handing.{HasLastPar, IsHandedDown};
ghost use Rattle.plan_claims.specs.Levels.{kept_level, noted_level, left_over, wanted_at, wanted_each, counted, HasPlace, HavePlaces};
ghost use Rattle.plan_claims.specs.Wants.{ShowsIf, none_each};

use crate::NoMemory;
use crate::laws::below;
use crate::wanted::{Wanted, over_of};
use hill_valley::Numbers;
use plans::Direction;
use sp_cuts::{Notes, PartNote};

// The last position sets so many parts side by side: takes their notes, and puts what is wanted of them behind the others.
pub(crate) fn hand_par(
    many: u32,
    notes: &mut Notes,
    wanted: Option<Wanted>,
    todo: &mut Vec<Option<Wanted>>,
) -> Result<(), NoMemory>
    requires last { (ts : Parts) × (before : Noted) × HasLastPar many ts before (noted_in notes.old) }
    ensures { OnOk result ((ts : Parts) (before : Noted) → HasLastPar many ts before (noted_in notes.old) → ShowsIf (cut_at (par ts)) wanted
        → IsHandedDown (par ts) before wanted (noted_in notes.new) todo.old.items todo.new.items) }
{
    below();
    let parts_at = notes.parts.len() - many as usize;
    let gone_at = notes.gone.len() - count_of_all(&notes.parts[parts_at..]);
    par_wants(
        &notes.parts[parts_at..],
        &notes.gone[gone_at..],
        wanted,
        todo,
    )?;
    notes.parts.truncate(parts_at);
    notes.gone.truncate(gone_at);
    Ok(())
}

// How many segments were noted with these parts.
fn count_of_all(parts: &[PartNote]) -> usize
    requires { counted parts.now < 2 ^ 64 }
    ensures { result ≡ counted parts.now }
{
    let mut all = 0;
    for part in parts.iter() {
        all += count_of(part);
    }
    all
}

fn count_of(part: &PartNote) -> usize
    ensures { result ≡ part.now.front + part.now.back }
{
    part.front as usize + part.back as usize
}

// What is wanted of parts side by side. Each segment that goes up by less than the whole is below the limit is taken. The level of
// a part that was not read is what the others leave of the whole's.
fn par_wants(
    parts: &[PartNote],
    gone: &[Numbers],
    wanted: Option<Wanted>,
    todo: &mut Vec<Option<Wanted>>,
) -> Result<(), NoMemory>
    requires places { HavePlaces parts.now (segments_listed gone.now) }
    ensures none { OnOk result (wanted ≡ None → todo.new.items ≡ todo.old.items ++ none_each parts.now) }
    ensures some { OnOk result ((w : Wanted) → wanted ≡ Some w → let d = direction_of w.dir in let over = w.limit - w.low in
        todo.new.items ≡ todo.old.items
        ++ wanted_each w over (left_over d over w.low parts.now (segments_listed gone.now)) parts.now (segments_listed gone.now)) }
{
    match wanted {
        None => nothing_each(parts, todo),
        Some(wanted) => {
            let over = over_of(&wanted);
            let rest = left_of(parts, gone, wanted.dir, over, wanted.low);
            wants_each(parts, gone, &wanted, over, rest, todo)
        }
    }
}

fn nothing_each(parts: &[PartNote], todo: &mut Vec<Option<Wanted>>) -> Result<(), NoMemory>
    ensures { OnOk result (todo.new.items ≡ todo.old.items ++ none_each parts.now) }
{
    for _part in parts.iter() {
        todo.push(None)?;
    }
    Ok(())
}

fn wants_each(
    parts: &[PartNote],
    gone: &[Numbers],
    wanted: &Wanted,
    over: u64,
    rest: u64,
    todo: &mut Vec<Option<Wanted>>,
) -> Result<(), NoMemory>
    requires places { HavePlaces parts.now (segments_listed gone.now) }
    ensures { OnOk result (todo.new.items ≡ todo.old.items ++ wanted_each wanted.now over rest parts.now (segments_listed gone.now)) }
{
    let mut at = 0;
    for part in parts.iter() {
        let level = level_or(part, &gone[at..], wanted.dir, over, rest);
        todo.push(want_at(part, wanted, level))?;
        at += count_of(part);
    }
    Ok(())
}

// What is wanted of a part that is stuck at a level: below a limit of its own that its side does not pass.
fn want_at(part: &PartNote, wanted: &Wanted, level: u64) -> Option<Wanted>
    ensures { result ≡ wanted_at wanted.now part.now level }
{
    let up = match wanted.dir {
        Direction::Forward => part.front_up,
        Direction::Backward => part.back_up,
    };
    if over_of(wanted) <= up {
        let others = wanted.low.saturating_sub(level);
        Some(Wanted {
            dir: wanted.dir,
            limit: wanted.limit.saturating_sub(others),
            low: level,
        })
    } else {
        None
    }
}

// The total, less the levels of the parts that were read.
fn left_of(parts: &[PartNote], gone: &[Numbers], dir: Direction, over: u64, total: u64) -> u64
    requires places { HavePlaces parts.now (segments_listed gone.now) }
    ensures { result ≡ left_over (direction_of dir) over total parts.now (segments_listed gone.now) }
{
    let mut left = total;
    let mut at = 0;
    for part in parts.iter() {
        let level = level_or(part, &gone[at..], dir, over, 0);
        left = left.saturating_sub(level);
        at += count_of(part);
    }
    left
}

// The level of a part whose segments stand first, if it was read, and else this one.
fn level_or(part: &PartNote, gone: &[Numbers], dir: Direction, over: u64, rest: u64) -> u64
    requires place { HasPlace part.now (segments_listed gone.now) }
    ensures { result ≡ (if part.now.read then noted_level (direction_of dir) over part.now (segments_listed gone.now) else rest) }
{
    if !part.read {
        return rest;
    }
    let front = part.front as usize;
    match dir {
        Direction::Forward => level_above(&gone[..front], part.least, over),
        Direction::Backward => level_above(&gone[front..count_of(part)], part.least, over),
    }
}

// The level above the least one from which the segments that go up by `over` or more lead down.
fn level_above(segments: &[Numbers], least: u64, over: u64) -> u64
    requires { least + net_sum (segments_listed segments.now) ≤ most_total }
    ensures { result ≡ kept_level over least (segments_listed segments.now) }
{
    let mut level = least;
    for seg in segments.iter() {
        if over <= seg.up {
            level += seg.net;
        }
    }
    level
}
