ghost use Rattle.std.specs.Prelude.{◌≡◌, ◌+◌, ◌*◌, ◌/◌, ◌%◌, ◌<◌, ◌≤◌, ◌^◌, min, length, IfOk};
ghost use Rattle.limits.specs.Limits.{most_positions};
ghost use Rattle.plans.specs.Plan.{claim_at};
ghost use Rattle.claim_check.specs.Lowest.{IsLowestFrom, IsLowestIn, AreLowest, IsFirstOf};

use crate::NoMemory;
use crate::judge::check_at;
use crate::view::View;
use mp_outside::Gate;
use std::alloc::Global;
use std::thread;
use std::thread::Threads;

/// The lowest position whose claim fails: of those at the term's positions, which are judged in as many chunks as there are workers, and
/// then of those past the last.
pub fn lowest<R: Threads + Sync, G: Gate>(
    rt: &R,
    alloc: Global,
    view: &View<'_>,
    workers: u32,
    gate: &G,
) -> Result<Option<u32>, NoMemory>
    requires { 1 ≤ workers }
    ensures { IfOk result (λ lowest. IsLowestFrom view.now.positions (claim_at view.now.claims) 0 lowest) }
{
    let size = (view.len() - 1) / workers + 1;
    let lowest = lowest_of_chunks(rt, alloc, view, size as usize, gate)?;
    let first = first_of(&lowest);
    if first.is_some() {
        return Ok(first);
    }
    Ok(view.first_outside())
}

// The lowest position whose claim fails in each chunk of so many positions. Each chunk has a thread of its own.
fn lowest_of_chunks<R: Threads + Sync, G: Gate>(
    rt: &R,
    alloc: Global,
    view: &View<'_>,
    size: usize,
    gate: &G,
) -> Result<Vec<Option<u32>>, NoMemory>
    requires { 0 < size }
    ensures len { IfOk result
        (λ lowest. length lowest.items ≡ length view.now.positions / size + min 1 (length view.now.positions % size)) }
    ensures each { IfOk result (λ lowest. AreLowest view.now.positions (claim_at view.now.claims) size lowest.items) }
{
    let lowest = thread::map_chunks(
        rt,
        alloc,
        view.places(),
        size,
        &|start: usize, places: &[u32]| -> Option<u32>
            requires { (0 < size) × (start + length places.now ≤ most_positions) }
            ensures { IsLowestIn view.entry.now.positions (claim_at view.entry.now.claims) (start + 1)
                (start + 1 + length places.now) result }
        {
            gate.enter((start / size) as u32);
            let from = start as u32 + 1;
            lowest_in(view, from, from + places.len() as u32)
        },
    )?;
    Ok(lowest)
}

// The lowest position from one on and before another whose claim fails, if there is one.
pub(crate) fn lowest_in(view: &View<'_>, from: u32, to: u32) -> Option<u32>
    requires { from ≤ to }
    ensures { IsLowestIn view.now.positions (claim_at view.now.claims) from to result }
{
    for position in from..to {
        if check_at(view, position).is_some() {
            return Some(position);
        }
    }
    None
}

// The first number that the list has.
fn first_of(numbers: &[Option<u32>]) -> Option<u32>
    ensures { IsFirstOf numbers.now result }
{
    numbers.iter().find_map(|number| *number)
}
