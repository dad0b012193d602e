//! Which tasks can be ordered, by counting the suppliers that each waits for (Kahn 1962, Topological sorting of large networks).

ghost use Rattle.std.specs.Prelude.{◌≡◌, ◌≤◌, ◌<◌, ◌+◌, ◌-◌, ◌^◌, ℕ, [], All, IfOk, MatchOption, length, slice_index, sum, vec_len};
ghost use Rattle.row_table.specs.Rows.{row_at};
ghost use Rattle.limits.specs.Limits.{most_tasks};
ghost use Rattle.graphs.specs.Graph.{IsAmong, IsArcWithin, CanBeOrdered, IsOrdering};
ghost use Rattle.lists.specs.Numbers.{IsFirstWithout};
ghost use Rattle.graphs.specs.Queue.{waits_of, IsQueue, IsQueueTaken, IsArcRow, AreJudged};

use crate::NoMemory;
use crate::arc::Arc;
use crate::counts::tails_of;
use row_table::RowTable;
use row_table::laws::numbers_law;
use std::alloc::Global;

// For each task how many arcs lead into it from a task.
fn first_waits(alloc: Global, count: u32, arcs: &[Arc]) -> Result<Vec<u32>, NoMemory>
    requires within { All (IsArcWithin count) arcs.now }
    requires few { length arcs.now < 2 ^ 32 }
    ensures len { IfOk result (λ waits. length waits.items ≡ count + 1) }
    ensures waits { IfOk result (λ waits. (v : ℕ) → v ≤ count → slice_index waits.items v ≡ waits_of arcs.now [] v) }
{
    let mut waits: Vec<u32> = vec![in alloc; 0; count as usize + 1]?;
    for arc in arcs {
        if arc.from != 0 {
            waits[arc.to as usize] += 1;
        }
    }
    Ok(waits)
}

// The tasks that wait for none from the start.
fn first_queue(alloc: Global, count: u32, arcs: &[Arc], waits: &[u32]) -> Result<Vec<u32>, NoMemory>
    requires few { count ≤ most_tasks }
    requires len { length waits.now ≡ count + 1 }
    requires waits { (v : ℕ) → v ≤ count → slice_index waits.now v ≡ waits_of arcs.now [] v }
    ensures { IfOk result (λ queue. IsQueueTaken count arcs.now waits.now queue.items 0) }
{
    let mut queue = Vec::new(alloc);
    for v in 1..count + 1 {
        if waits[v as usize] == 0 {
            queue.push(v)?;
        }
    }
    Ok(queue)
}

// Takes the arcs out of the task at this place of the queue from the waits of the tasks that they lead into.
fn take_next(
    count: u32,
    arcs: &[Arc],
    row: &[u32],
    at: usize,
    waits: &mut [u32],
    queue: &mut Vec<u32>,
) -> Result<(), NoMemory>
    requires within { All (IsArcWithin count) arcs.now }
    requires taken { IsQueueTaken count arcs.now waits.old queue.old.items at }
    requires short { at < length queue.old.items }
    requires row { IsArcRow arcs.now row.now (slice_index queue.old.items at) }
    ensures taken { IfOk result (λ _. IsQueueTaken count arcs.now waits.new queue.new.items (at + 1)) }
    ensures fewer { IfOk result (λ _. sum waits.new + vec_len queue.new ≤ sum waits.old + vec_len queue.old) }
{
    for k in row {
        let to = arcs[*k as usize].to;
        waits[to as usize] -= 1;
        if to != 0 && waits[to as usize] == 0 {
            queue.push(to)?;
        }
    }
    Ok(())
}

// Takes the whole queue, as it grows.
fn take_all(
    count: u32,
    arcs: &[Arc],
    rows: &RowTable,
    waits: &mut [u32],
    queue: &mut Vec<u32>,
) -> Result<(), NoMemory>
    requires within { All (IsArcWithin count) arcs.now }
    requires rows { (length rows.now ≡ count + 1)
        × ((u : ℕ) → u ≤ count → IsArcRow arcs.now (row_at rows.now u) u) }
    requires taken { IsQueueTaken count arcs.now waits.old queue.old.items 0 }
    ensures judged { IfOk result (λ _. AreJudged count arcs.now waits.new) }
    ensures queued { IfOk result (λ _. IsQueue count arcs.now waits.new queue.new.items) }
{
    let mut at = 0;
    while at < queue.len() {
        let row = rows.row(queue[at]);
        take_next(count, arcs, row, at, waits, queue)?;
        at += 1;
    }
    Ok(())
}

// The lowest task that waits.
fn first_waiting(count: u32, arcs: &[Arc], waits: &[u32]) -> Option<u32>
    requires few { count ≤ most_tasks }
    requires judged { AreJudged count arcs.now waits.now }
    ensures { MatchOption result
        ((v : ℕ) → IsAmong count v → CanBeOrdered arcs.now v)
        (λ v. IsFirstWithout count (CanBeOrdered arcs.now) v) }
{
    for v in 1..count + 1 {
        if waits[v as usize] != 0 {
            return Some(v);
        }
    }
    None
}

// For each task the places of the arcs out of it.
fn rows_of(alloc: Global, count: u32, arcs: &[Arc]) -> Result<RowTable, NoMemory>
    requires within { All (IsArcWithin count) arcs.now }
    requires few { length arcs.now < 2 ^ 32 }
    requires few_tasks { count ≤ most_tasks }
    ensures len { IfOk result (λ rows. length rows ≡ count + 1) }
    ensures rows { IfOk result (λ rows. (u : ℕ) → u ≤ count → IsArcRow arcs.now (row_at rows u) u) }
{
    numbers_law();
    let tails = tails_of(alloc, arcs)?;
    let rows = RowTable::group(alloc, &tails, count + 1, 0)?;
    Ok(rows)
}

// The tasks that can be ordered, each after its suppliers, and for each task by how many arcs it waits for others.
#[derive(Drop)]
struct Ordering {
    queue: Vec<u32>,
    waits: Vec<u32>,
}

fn ordering_of(alloc: Global, count: u32, arcs: &[Arc]) -> Result<Ordering, NoMemory>
    requires within { All (IsArcWithin count) arcs.now }
    requires few { length arcs.now < 2 ^ 32 }
    requires few_tasks { count ≤ most_tasks }
    ensures judged { IfOk result (λ o. AreJudged count arcs.now o.waits.items) }
    ensures queued { IfOk result (λ o. IsQueue count arcs.now o.waits.items o.queue.items) }
{
    let rows = rows_of(alloc, count, arcs)?;
    let mut waits = first_waits(alloc, count, arcs)?;
    let mut queue = first_queue(alloc, count, arcs, &waits)?;
    take_all(count, arcs, &rows, &mut waits, &mut queue)?;
    Ok(Ordering { queue, waits })
}

/// The lowest of so many tasks that can't be ordered, if there is one. Linear in the tasks and arcs.
pub fn first_unordered(alloc: Global, count: u32, arcs: &[Arc]) -> Result<Option<u32>, NoMemory>
    requires within { All (IsArcWithin count) arcs.now }
    requires few { length arcs.now < 2 ^ 32 }
    requires few_tasks { count ≤ most_tasks }
    ensures { IfOk result (λ found. MatchOption found
        ((v : ℕ) → IsAmong count v → CanBeOrdered arcs.now v)
        (λ v. IsFirstWithout count (CanBeOrdered arcs.now) v)) }
{
    let ordering = ordering_of(alloc, count, arcs)?;
    Ok(first_waiting(count, arcs, &ordering.waits))
}

/// So many tasks, of which all can be ordered, each after its suppliers: breadth first, and the lower first of those that wait for
/// nothing. Linear in the tasks and arcs. Kahn 1962.
pub fn ordered_tasks(alloc: Global, count: u32, arcs: &[Arc]) -> Result<Vec<u32>, NoMemory>
    requires within { All (IsArcWithin count) arcs.now }
    requires few { length arcs.now < 2 ^ 32 }
    requires few_tasks { count ≤ most_tasks }
    requires ordered { (v : ℕ) → IsAmong count v → CanBeOrdered arcs.now v }
    ensures { IfOk result (λ order. IsOrdering count arcs.now order.items) }
{
    let ordering = ordering_of(alloc, count, arcs)?;
    Ok(ordering.queue)
}
