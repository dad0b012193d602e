//! The completed graph: arcs of size 0 are added, so that an arc leads into each task and out of it.

ghost use Rattle.std.specs.Prelude.{◌≡◌, ◌≤◌, ◌<◌, ◌+◌, ◌^◌, ◌++◌, All, IfOk, length, map, filter, slice_index, ◌==◌};
ghost use Rattle.std.specs.List.{range_with_len};
ghost use Rattle.limits.specs.Limits.{most_tasks};
ghost use Rattle.graphs.specs.Graph.{IsArcWithin, arc_between, completed_arcs};

use crate::NoMemory;
use crate::arc::Arc;
use crate::counts::{count_ends, heads_of, tails_of};
use std::alloc::Global;

// Adds an arc of size 0 from none into each task that has a count of 0.
fn add_first_arcs(counts: &[u32], count: u32, arcs: &mut Vec<Arc>) -> Result<(), NoMemory>
    requires len { length counts.now ≡ count + 1 }
    requires few { count ≤ most_tasks }
    ensures { IfOk result (λ _. arcs.new.items ≡ arcs.old.items
        ++ map (λ v. arc_between 0 v) (filter (λ v. slice_index counts.now v == 0) (range_with_len 1 count))) }
{
    for v in 1..count + 1 {
        if counts[v as usize] == 0 {
            arcs.push(Arc {
                from: 0,
                to: v,
                size: 0,
            })?;
        }
    }
    Ok(())
}

// Adds an arc of size 0 to none out of each task that has a count of 0.
fn add_last_arcs(counts: &[u32], count: u32, arcs: &mut Vec<Arc>) -> Result<(), NoMemory>
    requires len { length counts.now ≡ count + 1 }
    requires few { count ≤ most_tasks }
    ensures { IfOk result (λ _. arcs.new.items ≡ arcs.old.items
        ++ map (λ v. arc_between v 0) (filter (λ v. slice_index counts.now v == 0) (range_with_len 1 count))) }
{
    for v in 1..count + 1 {
        if counts[v as usize] == 0 {
            arcs.push(Arc {
                from: v,
                to: 0,
                size: 0,
            })?;
        }
    }
    Ok(())
}

/// The arcs of the completed graph of so many tasks: these, then those that are added.
pub fn completed_arcs(alloc: Global, count: u32, arcs: &[Arc]) -> Result<Vec<Arc>, NoMemory>
    requires within { All (IsArcWithin count) arcs.now }
    requires few { length arcs.now < 2 ^ 32 }
    requires few_tasks { count ≤ most_tasks }
    ensures { IfOk result (λ all. all.items ≡ completed_arcs count arcs.now) }
{
    let heads = count_ends(alloc, count, &heads_of(alloc, arcs)?)?;
    let tails = count_ends(alloc, count, &tails_of(alloc, arcs)?)?;
    let mut all = Vec::from_slice(alloc, arcs)?;
    add_first_arcs(&heads, count, &mut all)?;
    add_last_arcs(&tails, count, &mut all)?;
    Ok(all)
}
