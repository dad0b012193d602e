//! The notes of a position, made before the parts of its term are used up.

ghost use Rattle.std.specs.Prelude.{◌≡◌, ◌+◌, ◌≤◌, ◌++◌, ℕ, List, [], length, if◌then◌else◌, IfOk, OnOk};
ghost use Rattle.std.specs.List.{AllByRecursion};
ghost use Rattle.side_laws.specs.Segments.{net_sum};
ghost use Rattle.hill_valley.specs.Numbers.{segments_listed, first_down_to};
ghost use Rattle.hill_valley.specs.Side.{profile};
ghost use Rattle.sp_cuts.specs.Notes.{noted_in};
ghost use Rattle.sp_cuts.specs.Noting.{LeadsDown, NotesSeries, NotesPart, NotesParts, NotesPosition};
ghost use Rattle.sp_cuts.specs.Stacks.{PositionReady};

use crate::NoMemory;
use crate::notes::{Notes, PartNote, SeriesNote};
use crate::parts::Part;
use hill_valley::{Numbers, Side};
use segment_merge::laws;
use sp_terms::Position;
use std::alloc::AllocError;

// The notes of a position whose term is made of the last of these parts.
pub(crate) fn note_position(
    position: Position,
    parts: &[Part],
    notes: &mut Notes,
) -> Result<(), NoMemory>
    requires ready { (lists : List (List ℕ)) × (next : ℕ) × PositionReady lists parts.now position next }
    ensures { OnOk result (NotesPosition parts.now position (noted_in notes.old) (noted_in notes.new)) }
{
    laws::all();
    match position {
        Position::Hold(_) => Ok(()),
        Position::Task { .. } => {
            let second = parts.len() - 1;
            note_series(&parts[second - 1], &parts[second], notes)
        }
        Position::Par(many) => note_parts(&parts[parts.len() - many as usize..], notes),
    }
}

// A series of two parts.
fn note_series(a: &Part, b: &Part, notes: &mut Notes) -> Result<(), NoMemory>
    requires a { LeadsDown a.now }
    requires b { LeadsDown b.now }
    ensures { OnOk result (NotesSeries a.now b.now (noted_in notes.old) (noted_in notes.new)) }
{
    if a.least <= b.least {
        let between = note_side(&b.front, b.initial, 0, &mut notes.gone)?;
        let far = note_side(&a.back, a.fin, b.least + 1, &mut notes.gone)?;
        notes.series.push(SeriesNote {
            in_first: true,
            near_up: b.back.last_up(),
            near_least: b.least,
            between_start: b.initial,
            far_start: a.fin,
            between,
            far,
        })?;
        Ok(())
    } else {
        let between = note_side(&a.back, a.fin, 0, &mut notes.gone)?;
        let far = note_side(&b.front, b.initial, a.least + 1, &mut notes.gone)?;
        notes.series.push(SeriesNote {
            in_first: false,
            near_up: a.front.last_up(),
            near_least: a.least,
            between_start: a.fin,
            far_start: b.initial,
            between,
            far,
        })?;
        Ok(())
    }
}

// Parts side by side. All but that with the longest side are read.
fn note_parts(parts: &[Part], notes: &mut Notes) -> Result<(), NoMemory>
    requires { AllByRecursion LeadsDown parts.now }
    ensures { OnOk result (NotesParts parts.now (noted_in notes.old) (noted_in notes.new)) }
{
    let most = longest(parts);
    for (i, part) in parts.iter().enumerate() {
        note_part(part, i != most, notes)?;
    }
    Ok(())
}

// Where the first part with a longest side stands: the last one from behind. It says only whose notes are not needed.
fn longest(parts: &[Part]) -> usize {
    let from_behind = parts.iter().enumerate().rev();
    from_behind
        .max_by_key(|(_, part)| part.front.len().max(part.back.len()))
        .map_or(0, |(place, _)| place)
}

// One of them. Its segments are noted if it is read.
fn note_part(part: &Part, read: bool, notes: &mut Notes) -> Result<(), NoMemory>
    requires { LeadsDown part.now }
    ensures { OnOk result (NotesPart part.now read (noted_in notes.old) (noted_in notes.new)) }
{
    let (front, back) = note_sides(part, read, &mut notes.gone)?;
    notes.parts.push(PartNote {
        least: part.least,
        front_up: part.front.last_up(),
        back_up: part.back.last_up(),
        read,
        front,
        back,
    })?;
    Ok(())
}

// The segments of both sides, and how many each has, if the part is read.
fn note_sides(part: &Part, read: bool, gone: &mut Vec<Numbers>) -> Result<(u32, u32), NoMemory>
    requires { LeadsDown part.now }
    ensures front { IfOk result (λ n. n.0 ≡ (if read then length (profile part.now.front) else 0)) }
    ensures back { IfOk result (λ n. n.1 ≡ (if read then length (profile part.now.back) else 0)) }
    ensures gone { OnOk result (segments_listed gone.new.items
        ≡ segments_listed gone.old.items ++ (if read then profile part.now.front ++ profile part.now.back else [])) }
{
    if !read {
        return Ok((0, 0));
    }
    let front = note_side(&part.front, part.initial, 0, gone)?;
    let back = note_side(&part.back, part.fin, 0, gone)?;
    Ok((front, back))
}

// The first segments of a side, as long as they start at `stop` or above, and how many they are. Want of memory, too, is what 2^32 of
// them answer.
fn note_side(side: &Side, level: u64, stop: u64, gone: &mut Vec<Numbers>) -> Result<u32, NoMemory>
    requires room { net_sum (profile side.now) ≤ level }
    ensures count { IfOk result (λ n. n ≡ length (first_down_to stop level (profile side.now))) }
    ensures gone { OnOk result (segments_listed gone.new.items ≡ segments_listed gone.old.items ++ first_down_to stop level (profile side.now)) }
{
    let before = gone.len();
    side.push_numbers(level, stop, gone)?;
    let Ok(count) = u32::try_from(gone.len() - before) else {
        return Err(AllocError);
    };
    Ok(count)
}
