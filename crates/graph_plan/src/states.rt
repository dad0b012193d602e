//! Looking at the states of a system below a target finds an order with a peak below it, or shows that there is none, or finds that there are
//! too many states.

ghost use Rattle.std.specs.Prelude.{◌≤◌, IfSome, OnOk};
ghost use Rattle.state_search.specs.Shown.{HaveRoom};
ghost use Rattle.graph_plan.specs.Drafts.{IsDraft};

use crate::NoMemory;
use crate::draft::Draft;
use crate::peaks::peak_of;
use bounded_plans::BoundEvidence;
use shared_systems::SharedSystem;
use shared_systems::laws::order_law;
use state_search::{Explored, explore};
use std::alloc::Global;

// How often it is looked below the peak at most, as long as lower orders are found.
const ORDERS: u32 = 16;

// How often below a target between the bound and a peak that has too many states, each time at such a part of as many states.
const HALVINGS: u32 = 8;

const PART: u32 = 8;

// How close to that peak is close enough: such a part of it.
const CLOSE: u64 = 64;

// Looks at the states below a target, at so many at most. Whether there were no more.
fn look_below(
    alloc: Global,
    system: &SharedSystem,
    draft: &mut Draft,
    target: u64,
    most: u32,
) -> Result<bool, NoMemory>
    requires room { HaveRoom system.now most }
    requires draft { IsDraft system.now draft.old }
    requires low { draft.old.bound ≤ target }
    requires high { target ≤ draft.old.peak }
    ensures draft { OnOk result (IsDraft system.now draft.new) }
    ensures no_worse { OnOk result (draft.new.peak ≤ draft.old.peak) }
{
    order_law();
    system.keeps();
    match explore(alloc, system, target, most)? {
        Explored::Order(order) => {
            draft.peak = peak_of(alloc, system, &order)?;
            draft.order = order;
            Ok(true)
        }
        Explored::Closed(count) => {
            draft.bound = target;
            draft.evidence = BoundEvidence::States(count);
            Ok(true)
        }
        Explored::Many => Ok(false),
    }
}

// Looks below the peak, and below that of each order that is found so, until there is none below it, or there are too many states.
fn lower_peak(
    alloc: Global,
    system: &SharedSystem,
    draft: &mut Draft,
    most: u32,
) -> Result<(), NoMemory>
    requires room { HaveRoom system.now most }
    requires draft { IsDraft system.now draft.old }
    ensures draft { OnOk result (IsDraft system.now draft.new) }
    ensures no_worse { OnOk result (draft.new.peak ≤ draft.old.peak) }
{
    for _ in 0..ORDERS {
        let target = draft.peak;
        if draft.bound >= target || !look_below(alloc, system, draft, target, most)? {
            break;
        }
    }
    Ok(())
}

// What to look below next, where this peak has too many states: a lower one that was found since, or half way up to it from the bound.
fn next_target(draft: &Draft, crowded: u64) -> Option<u64>
    ensures low { IfSome result (λ target. draft.now.bound ≤ target) }
    ensures high { IfSome result (λ target. target ≤ draft.now.peak) }
{
    if draft.bound >= draft.peak {
        return None;
    }
    if draft.peak < crowded {
        return Some(draft.peak);
    }
    let gap = crowded.saturating_sub(draft.bound);
    if gap <= (draft.peak / CLOSE).max(1) {
        return None;
    }
    Some(draft.bound + gap / 2)
}

// Looks between the bound and a peak that has too many states.
fn raise_bound(
    alloc: Global,
    system: &SharedSystem,
    draft: &mut Draft,
    most: u32,
) -> Result<(), NoMemory>
    requires room { HaveRoom system.now most }
    requires draft { IsDraft system.now draft.old }
    ensures draft { OnOk result (IsDraft system.now draft.new) }
    ensures no_worse { OnOk result (draft.new.peak ≤ draft.old.peak) }
{
    let mut crowded = draft.peak;
    for _ in 0..HALVINGS {
        let Some(target) = next_target(draft, crowded) else {
            break;
        };
        if !look_below(alloc, system, draft, target, most)? {
            crowded = target;
        }
    }
    Ok(())
}

/// Looks at states below the peak of a plan, at so many at a time at most, so that a better order is found, or the bound is raised to the peak;
/// where there are too many, below targets that are lower, at an eighth of them, so that the bound rises nevertheless.
pub fn look_at_states(
    alloc: Global,
    system: &SharedSystem,
    draft: &mut Draft,
    most: u32,
) -> Result<(), NoMemory>
    requires room { HaveRoom system.now most }
    requires draft { IsDraft system.now draft.old }
    ensures draft { OnOk result (IsDraft system.now draft.new) }
    ensures no_worse { OnOk result (draft.new.peak ≤ draft.old.peak) }
{
    if most == 0 {
        return Ok(());
    }
    lower_peak(alloc, system, draft, most)?;
    raise_bound(alloc, system, draft, most / PART)
}
