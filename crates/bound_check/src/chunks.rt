ghost use Rattle.std.specs.Prelude.{◌≡◌, ◌+◌, ◌*◌, ◌/◌, ◌%◌, ◌<◌, ◌≤◌, min, length, IfOk};
ghost use Rattle.limits.specs.Limits.{most_positions};
ghost use Rattle.bound_check.specs.Failing.{IsFirstIn, AreFirst, IsFirstOf};

use crate::NoMemory;
use crate::failing::Failing;
use claim_check::{View, check_at};
use mp_outside::Gate;
use plans::Claim;
use std::alloc::Global;
use std::thread;
use std::thread::Threads;

/// The first claim of a list that fails. They are judged in as many chunks as there are workers.
pub fn first_failing<R: Threads + Sync, G: Gate>(
    rt: &R,
    alloc: Global,
    view: &View<'_>,
    claims: &[Claim],
    workers: u32,
    gate: &G,
) -> Result<Option<Failing>, NoMemory>
    requires workers { 1 ≤ workers }
    requires claims { view.now.claims ≡ claims.now }
    requires few { length claims.now ≤ most_positions }
    ensures { IfOk result (λ first. IsFirstIn view.now.positions claims.now 0 (length claims.now) first) }
{
    let size = (claims.len().max(1) - 1) / workers as usize + 1;
    let firsts = first_of_chunks(rt, alloc, view, claims, size, gate)?;
    Ok(first_of(&firsts))
}

// The first claim of each chunk of so many that fails. Each chunk has a thread of its own.
fn first_of_chunks<R: Threads + Sync, G: Gate>(
    rt: &R,
    alloc: Global,
    view: &View<'_>,
    claims: &[Claim],
    size: usize,
    gate: &G,
) -> Result<Vec<Option<Failing>>, NoMemory>
    requires size { 0 < size }
    requires claims { view.now.claims ≡ claims.now }
    requires few { length claims.now ≤ most_positions }
    ensures len { IfOk result (λ firsts. length firsts.items ≡ length claims.now / size + min 1 (length claims.now % size)) }
    ensures each { IfOk result (λ firsts. AreFirst view.now.positions claims.now size firsts.items) }
{
    let firsts = thread::map_chunks(
        rt,
        alloc,
        claims,
        size,
        &|start: usize, chunk: &[Claim]| -> Option<Failing>
            requires { (0 < size) × (start + length chunk.now ≤ length claims.now) × (length claims.now ≤ most_positions)
                × (view.now.claims ≡ claims.now) }
            ensures { IsFirstIn view.entry.now.positions claims.entry.now start (start + length chunk.now) result }
        {
            gate.enter((start / size) as u32);
            first_in(view, claims, start, start + chunk.len())
        },
    )?;
    Ok(firsts)
}

// Of the claims from a place on and before another, the first that fails, if one does.
fn first_in(view: &View<'_>, claims: &[Claim], from: usize, to: usize) -> Option<Failing>
    requires places { (from ≤ to) × (to ≤ length claims.now) }
    requires claims { view.now.claims ≡ claims.now }
    ensures { IsFirstIn view.now.positions claims.now from to result }
{
    for i in from..to {
        let position = claims[i].position;
        if let Some(shape) = check_at(view, position) {
            return Some(Failing { position, shape });
        }
    }
    None
}

// The first one that the list has.
fn first_of(firsts: &[Option<Failing>]) -> Option<Failing>
    ensures { IsFirstOf firsts.now result }
{
    firsts.iter().find_map(|first| *first)
}
