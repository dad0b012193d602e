//! Fences with room set aside for each worker: some rooms are tried, and those with the fewest fences are kept.

ghost use Rattle.std.specs.Prelude.{◌≡◌, ℕ, ◌*◌, ◌-◌, ◌/◌, ◌^◌, ◌<◌, ◌≤◌, Option, Some, IfOk, IfErr, IfSome};
ghost use Rattle.limits.specs.Limits.{most_total};
ghost use Rattle.mp_system.specs.Traversal.{IsTraversal};
ghost use Rattle.fences.specs.Certificates.{reserve_of, room_of};
ghost use Rattle.fences.specs.Workers.{relieved};
ghost use Rattle.fencing.specs.Asked.{IsFor};
ghost use Rattle.fencing.specs.Refusal.{IsFencingRefusal};
ghost use Rattle.fencing.specs.Rooms.{Suits};

use crate::NoMemory;
use crate::along::{greatest_need, relieved_peak};
use crate::fencing::{Fencing, FencingRefusal, fence_along};
use fences::Workers;
use mp_system::System;
use std::alloc::{AllocError, Global};

/// How many rooms are tried beside none.
pub const STEPS: u64 = 10;

/// Fences, and for how many workers they are, with the room that was chosen for each.
#[derive(Drop)]
pub struct Chosen {
    pub workers: Workers,
    pub fencing: Fencing,
}

/// No room is set aside.
pub fn without_room(asked: Option<u32>) -> Workers
    ensures workers { IsFor asked result }
    ensures room { room_of result ≡ 0 }
    ensures reserve { reserve_of result ≡ 0 }
{
    match asked {
        None => Workers::Any,
        Some(count) => Workers::AtMost { count, room: 0 },
    }
}

// The room that is set aside for each worker, and for all of them.
fn set_aside(workers: Workers) -> (u64, u64)
    requires { reserve_of workers < 2 ^ 64 }
    ensures room { result.0 ≡ room_of workers }
    ensures reserve { result.1 ≡ reserve_of workers }
{
    match workers {
        Workers::Any => (0, 0),
        Workers::AtMost { count, room } => (room, count as u64 * room),
    }
}

// Fences with this room.
fn fenced_with(
    alloc: Global,
    system: &System,
    order: &[u32],
    bound: u64,
    workers: Workers,
) -> Result<Chosen, FencingRefusal>
    requires reserve { reserve_of workers ≤ bound }
    ensures made { (asked : Option ℕ) → IsFor asked workers → IfOk result (Suits system.now bound asked) }
    ensures refused { IfErr result (IsFencingRefusal (relieved (room_of workers) system.now) order.now (bound - reserve_of workers)) }
{
    let (room, reserve) = set_aside(workers);
    let fencing = fence_along(alloc, system, order, room, bound - reserve)?;
    Ok(Chosen { workers, fencing })
}

/// The greatest room for each of so many workers that is worth a try. More than the greatest need is of no use, and there is no more of it than what
/// the bound has for each worker beside the items that are kept.
pub fn greatest_room(
    alloc: Global,
    system: &System,
    order: &[u32],
    bound: u64,
    count: u32,
) -> Result<u64, NoMemory>
    requires traversal { IsTraversal system.now order.now }
    requires workers { 1 ≤ count }
    ensures share { IfOk result (λ room. room ≤ bound / count) }
    ensures need { IfOk result (λ room. room ≤ most_total) }
{
    let kept = relieved_peak(alloc, system, order, u64::MAX)?;
    let free = bound.saturating_sub(kept);
    Ok(greatest_need(alloc, system, order)?.min(free / count as u64))
}

// Of these fences, and those with each of some rooms, the fewest. A room that leaves less than the peak is passed over.
fn fewest(
    alloc: Global,
    system: &System,
    order: &[u32],
    bound: u64,
    count: u32,
    first: Chosen,
) -> Result<Chosen, NoMemory>
    requires traversal { IsTraversal system.now order.now }
    requires workers { 1 ≤ count }
    requires first { Suits system.now bound (Some count) first }
    ensures { IfOk result (Suits system.now bound (Some count)) }
{
    let top = greatest_room(alloc, system, order, bound, count)?;
    let mut best = first;
    for step in 1..=STEPS {
        let room = top * step / STEPS;
        match fenced_with(alloc, system, order, bound, Workers::AtMost { count, room }) {
            Ok(made) => {
                if made.fencing.fences.len() < best.fencing.fences.len() {
                    best = made;
                }
            }
            Err(FencingRefusal::NoMemory) => return Err(AllocError),
            Err(_) => {}
        }
    }
    Ok(best)
}

/// Fences along a traversal with which no run on as many workers uses more than the bound.
pub fn fenced(
    alloc: Global,
    system: &System,
    order: &[u32],
    bound: u64,
    workers: Option<u32>,
) -> Result<Chosen, FencingRefusal>
    requires traversal { IsTraversal system.now order.now }
    requires workers { IfSome workers (λ count. 1 ≤ count) }
    ensures made { IfOk result (Suits system.now bound workers) }
    ensures refused { IfErr result (IsFencingRefusal (relieved 0 system.now) order.now bound) }
{
    let first = fenced_with(alloc, system, order, bound, without_room(workers))?;
    match workers {
        None => Ok(first),
        Some(count) => Ok(fewest(alloc, system, order, bound, count, first)?),
    }
}
