//! The judge of blockers by several workers.

ghost use Rattle.std.specs.Prelude.{◌≡◌, ◌+◌, ◌*◌, ◌/◌, ◌%◌, ◌<◌, ◌≤◌, min, IfOk, length};
ghost use Rattle.limits.specs.Limits.{most_tasks, most_workers};
ghost use Rattle.peak_bounds.specs.Judged.{IsCommon, IsFormed, IsFoundIn, AreFoundIn, IsFirstFound};

use crate::NoMemory;
use crate::blockers::{Common, judge_part};
use crate::evidence::{Blocker, EventSet, Objection};
use mp_outside::Gate;
use shared_systems::SharedSystem;
use std::alloc::{AllocError, Global};
use std::thread;
use std::thread::Threads;

// What is found in each chunk of so many blockers. Each chunk has a thread of its own.
fn found_in_chunks<R: Threads + Sync, G: Gate>(
    rt: &R,
    alloc: Global,
    system: &SharedSystem,
    set: &EventSet,
    bound: u64,
    common: &Common,
    size: usize,
    gate: &G,
) -> Result<Vec<Result<Option<Objection>, NoMemory>>, NoMemory>
    requires common { IsCommon system.now set.now common.now }
    requires formed { IsFormed system.now set.now bound }
    requires few { length set.now.blockers ≤ most_tasks }
    requires size { 0 < size }
    ensures len { IfOk result
        (λ found. length found.items ≡ length set.now.blockers / size + min 1 (length set.now.blockers % size)) }
    ensures each { IfOk result (λ found. AreFoundIn system.now set.now bound size found.items) }
{
    thread::map_chunks(
        rt,
        alloc,
        set.blockers(),
        size,
        &|start: usize, part: &[Blocker]| -> Result<Option<Objection>, NoMemory>
            requires { (0 < size) × (start + length part.now ≤ length set.now.blockers) × (length set.now.blockers ≤ most_tasks)
                × IsCommon system.now set.now common.now × IsFormed system.now set.now bound }
            ensures { IfOk result (IsFoundIn system.entry.now set.entry.now bound start (start + length part.now)) }
        {
            gate.enter((start / size) as u32);
            judge_part(alloc, system, set, bound, common, start, start + part.len())
        },
    )
}

// The first that was found.
fn first_found(found: &[Result<Option<Objection>, NoMemory>]) -> Result<Option<Objection>, NoMemory>
    ensures { IfOk result (IsFirstFound found.now) }
{
    for part in found {
        match part {
            Ok(None) => {}
            Ok(Some(objection)) => return Ok(Some(*objection)),
            Err(_) => return Err(AllocError),
        }
    }
    Ok(None)
}

/// What is said against the blockers of a set, if anything is. They are judged in as many chunks as there are workers, each in a thread.
pub fn judge_parts<R: Threads + Sync, G: Gate>(
    rt: &R,
    alloc: Global,
    system: &SharedSystem,
    set: &EventSet,
    bound: u64,
    common: &Common,
    workers: u32,
    gate: &G,
) -> Result<Option<Objection>, NoMemory>
    requires common { IsCommon system.now set.now common.now }
    requires formed { IsFormed system.now set.now bound }
    requires workers { (1 ≤ workers) × (workers ≤ most_workers) }
    ensures { IfOk result (IsFoundIn system.now set.now bound 0 (length set.now.blockers)) }
{
    system.keeps();
    let size = (set.blockers().len() - 1) / workers as usize + 1;
    let found = found_in_chunks(rt, alloc, system, set, bound, common, size, gate)?;
    first_found(&found)
}
