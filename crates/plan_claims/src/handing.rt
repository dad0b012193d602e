//! The walk at one position: what is wanted of the parts of its term, for what is wanted of the term.

ghost use Rattle.std.specs.Prelude.{◌≡◌, ℕ, ◌-◌, if◌then◌else◌, nat_lt, true, false, [], ◌∷◌, List, Option, OnOk};
ghost use Rattle.side_laws.specs.Segments.{lowest, last_up};
ghost use Rattle.hill_valley.specs.Numbers.{segments_listed};
ghost use Rattle.sp_terms.specs.Term.{Term, Direction as TermDirection, series};
ghost use Rattle.sp_term_laws.specs.Moves.{other};
ghost use Rattle.plans.specs.Plan.{direction_of};
ghost use Rattle.cut_laws.specs.Cuts.{Cut};
ghost use Rattle.sp_cuts.specs.Notes.{Noted, noted_in, cut_at};
ghost use Rattle.plan_claims.specs.declared.wanted.Wanted.{Wanted};
ghost use Rattle.plan_claims.specs.Crossings.{LeadsOver, IsCrossing, note_direction, IsTurned, AreHandedOver};
ghost use Rattle.plan_claims.specs.Handing.{HasLast, HasLastTask, IsSeriesReady, IsHandedDown};
ghost use Rattle.plan_claims.specs.Wants.{Shows, ShowsIf, AreHanded};

use crate::NoMemory;
use crate::beside::hand_par;
use crate::laws::below;
use crate::wanted::{Wanted, over_of};
use hill_valley::Numbers;
use mp_system::Task;
use plans::Direction;
use sp_cuts::{Notes, SeriesNote};
use sp_terms::Position;

// Takes the notes of the last position from the ends, and puts what is wanted of the parts of its term behind the others.
pub(crate) fn hand_down(
    position: Position,
    notes: &mut Notes,
    wanted: Option<Wanted>,
    todo: &mut Vec<Option<Wanted>>,
) -> Result<(), NoMemory>
    requires last { (t : Term) × (before : Noted) × HasLast position t before (noted_in notes.old) }
    ensures { OnOk result ((t : Term) (before : Noted) → HasLast position t before (noted_in notes.old) → ShowsIf (cut_at t) wanted
        → IsHandedDown t before wanted (noted_in notes.new) todo.old.items todo.new.items) }
{
    below();
    match position {
        Position::Hold(_) => Ok(()),
        Position::Task { extra, share, time } => {
            hand_series(Task { extra, share, time }, notes, wanted, todo)
        }
        Position::Par(many) => hand_par(many, notes, wanted, todo),
    }
}

// The last position is a task between two parts.
fn hand_series(
    task: Task,
    notes: &mut Notes,
    wanted: Option<Wanted>,
    todo: &mut Vec<Option<Wanted>>,
) -> Result<(), NoMemory>
    requires last { (a b : Term) × (before : Noted) × HasLastTask a task b before (noted_in notes.old) }
    ensures { OnOk result ((a b : Term) (before : Noted) → HasLastTask a task b before (noted_in notes.old)
        → ShowsIf (cut_at (series a task b)) wanted
        → IsHandedDown (series a task b) before wanted (noted_in notes.new) todo.old.items todo.new.items) }
{
    let Some(note) = notes.series.pop() else {
        unreachable!()
    };
    let at = notes.gone.len() - (note.between as usize + note.far as usize);
    let (first, second) = series_wants(&note, &task, &notes.gone[at..], wanted);
    notes.gone.truncate(at);
    todo.push(first)?;
    todo.push(second)?;
    Ok(())
}

// What is wanted of the first part of a series, and of the second.
fn series_wants(
    note: &SeriesNote,
    task: &Task,
    gone: &[Numbers],
    wanted: Option<Wanted>,
) -> (Option<Wanted>, Option<Wanted>)
    requires ready { (a b : Term) × IsSeriesReady a task.now b note.now (segments_listed gone.now) }
    ensures { (a b : Term) → IsSeriesReady a task.now b note.now (segments_listed gone.now) → ShowsIf (cut_at (series a task.now b)) wanted
        → AreHanded (series a task.now b) wanted (result.0 ∷ result.1 ∷ []) }
{
    below();
    match wanted {
        None => (None, None),
        Some(wanted) => {
            let (between, beyond) = gone.split_at(note.between as usize);
            let hill = note.between_start + note.far_start + task.extra - task.share;
            let (near, far) = near_and_far(note, hill, between, beyond, &wanted);
            if note.in_first {
                (far, near)
            } else {
                (near, far)
            }
        }
    }
}

// What is wanted of the near part and of the far one, on the first thing that does not pass below the limit.
fn near_and_far(
    note: &SeriesNote,
    hill: u64,
    between: &[Numbers],
    beyond: &[Numbers],
    wanted: &Wanted,
) -> (Option<Wanted>, Option<Wanted>)
    ensures { (d : TermDirection) (near far whole : Cut)
        → IsCrossing d near far note.now (segments_listed between.now) (segments_listed beyond.now) → note_direction note.now ≡ d
        → LeadsOver d near far whole hill → Shows whole wanted.now → AreHandedOver d near far hill wanted.now result.0 result.1 }
{
    below();
    if !is_same(wanted.dir, dir_of(note)) {
        return (None, Some(*wanted));
    }
    if over_of(wanted) <= note.near_up {
        return (Some(*wanted), None);
    }
    if let Some(turned) = want_turned(note, between, wanted) {
        return (Some(turned), None);
    }
    if wanted.limit <= hill {
        return (None, None);
    }
    let last = Wanted {
        low: far_low(note, beyond, wanted),
        ..*wanted
    };
    (None, Some(last))
}

// What is wanted of the near part in the other direction, if its side there does not pass below the limit.
fn want_turned(note: &SeriesNote, between: &[Numbers], wanted: &Wanted) -> Option<Wanted>
    ensures { IsTurned note.now.between_start (segments_listed between.now) wanted.now result }
{
    let turned = Wanted {
        dir: wanted.dir.opposite(),
        low: lowest_below(between, note.between_start, wanted.limit),
        ..*wanted
    };
    if over_of(&turned) <= last_up(between) {
        Some(turned)
    } else {
        None
    }
}

// How high the last segment goes.
fn last_up(segments: &[Numbers]) -> u64
    ensures { result ≡ last_up (segments_listed segments.now) }
{
    match segments.last() {
        Some(last) => last.up,
        None => 0,
    }
}

// The lowest level of the far part's side, where the whole is stuck on it. Below the near part's least memory it is that of the
// whole, and else it is among the first segments.
fn far_low(note: &SeriesNote, beyond: &[Numbers], wanted: &Wanted) -> u64
    ensures { result
        ≡ (if nat_lt wanted.now.low note.now.near_least then wanted.now.low
        else lowest wanted.now.limit note.now.far_start (segments_listed beyond.now)) }
{
    if wanted.low < note.near_least {
        wanted.low
    } else {
        lowest_below(beyond, note.far_start, wanted.limit)
    }
}

// The direction whose side goes over the task.
fn dir_of(note: &SeriesNote) -> Direction
    ensures { direction_of result ≡ note_direction note.now }
{
    if note.in_first {
        Direction::Backward
    } else {
        Direction::Forward
    }
}

fn is_same(one: Direction, two: Direction) -> bool
    ensures same { result ≡ true → direction_of one ≡ direction_of two }
    ensures turned { result ≡ false → direction_of one ≡ other (direction_of two) }
{
    one == two
}

// The level at which the next segment would reach the limit, or the level after the last one.
fn lowest_below(segments: &[Numbers], level: u64, limit: u64) -> u64
    ensures { result ≡ lowest limit level (segments_listed segments.now) }
{
    let mut at = level;
    for seg in segments.iter() {
        if limit.saturating_sub(at) <= seg.up {
            break;
        }
        at = at.saturating_sub(seg.net);
    }
    at
}
