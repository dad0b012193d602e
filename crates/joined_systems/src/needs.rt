//! Which tasks need a join, and the joins' numbers.

ghost use Rattle.std.specs.Prelude.{◌≡◌, ◌≢◌, ℕ, ◌+◌, ◌-◌, ◌<◌, ◌≤◌, ◌^◌, ◌↔◌};
ghost use Rattle.std.specs.Prelude.{All, IfOk, IsTrue, length, map, slice_index, slice_index_or, true, false};
ghost use Rattle.limits.specs.Limits.{most_tasks, most_uses};
ghost use Rattle.row_table.specs.Rows.{has, row_at, numbers_with};
ghost use Rattle.graphs.specs.Graph.{IsAmong};
ghost use Rattle.shared_systems.specs.Shared.{HasTask};
ghost use Rattle.shared_systems.specs.Bounds.{IsSharedItemWithin};
ghost use Rattle.joined_systems.specs.Joins.{AreJoins, HaveSameReaders, NeedsJoin};
ghost use Rattle.joined_systems.specs.Kinds as specs;
ghost use Rattle.joined_systems.specs.Kinds.{meet, AreLeaders};
ghost use Rattle.mp_system.specs.declared.system.Task.{Task};
ghost use Rattle.std.specs.Prelude.{List};
ghost use Rattle.joined_systems.specs.Needs.{HasTwo, IsReadByAll, AreNumbers, TellsNeed};

use crate::NoMemory;
use crate::kinds::{leaders_of, makers_of, takers_of};
use row_table::RowTable;
use shared_systems::{SharedItems, SharedSystem};
use std::alloc::Global;

// Whether the readers of these uses are at least two tasks.
fn has_two(takers: &[u32], row: &[u32]) -> bool
    requires { All (λ p. p < length takers.now) row.now }
    ensures { IsTrue result ↔ HasTwo (map (slice_index takers.now) row.now) }
{
    for i in 1..row.len() {
        if takers[row[i] as usize] != takers[row[0] as usize] {
            return true;
        }
    }
    false
}

// For each task whether some item has several readers, which are just the tasks that it leads.
fn released_of(
    alloc: Global,
    items: &SharedItems,
    leaders: &[u32],
    rows: &RowTable,
) -> Result<Vec<bool>, NoMemory>
    requires within { All (IsSharedItemWithin (length leaders.now)) items.now }
    requires low { (i : ℕ) → slice_index leaders.now i ≤ length leaders.now }
    requires len { length rows.now ≡ length leaders.now + 1 }
    requires rows { (k : ℕ) → k < length leaders.now + 1 → row_at rows.now k ≡ numbers_with leaders.now 1 k }
    ensures len { IfOk result (λ released. length released.items ≡ length leaders.now + 1) }
    ensures released { IfOk result (λ released. (v : ℕ) →
        ((slice_index_or released.items v false ≡ true) ↔ IsReadByAll leaders.now items.now (length items.now) v)) }
{
    let mut released: Vec<bool> = vec![in alloc; false; leaders.len() + 1]?;
    for i in 0..items.len() {
        let readers = items.readers(i);
        if readers.len() >= 2 {
            let leader = leaders[readers[0] as usize - 1];
            if readers == rows.row(leader) {
                released[leader as usize] = true;
            }
        }
    }
    Ok(released)
}

// The joins' numbers, by whether each task needs one.
fn numbers_of(alloc: Global, leaders: &[u32], needs: &[bool]) -> Result<Vec<u32>, NoMemory>
    requires few { length leaders.now ≤ most_tasks }
    requires len { length needs.now ≡ length leaders.now }
    requires low { (i : ℕ) → i < length leaders.now → (1 ≤ slice_index leaders.now i) × (slice_index leaders.now i ≤ i + 1) }
    requires same { (i : ℕ) → i < length leaders.now →
        slice_index_or needs.now (slice_index leaders.now i - 1) false ≡ slice_index_or needs.now i false }
    requires own { (i : ℕ) → i < length leaders.now →
        slice_index leaders.now (slice_index leaders.now i - 1) ≡ slice_index leaders.now i }
    ensures { IfOk result (λ joins. AreNumbers leaders.now needs.now joins.items) }
{
    let mut joins: Vec<u32> = Vec::with_capacity(alloc, leaders.len())?;
    let mut count = 0;
    for i in 0..leaders.len() {
        let leader = leaders[i] as usize;
        if !needs[i] {
            joins.push(0)?;
        } else if leader == i + 1 {
            count += 1;
            joins.push(count)?;
        } else {
            let join = joins[leader - 1];
            joins.push(join)?;
        }
    }
    Ok(joins)
}

// Whether a task needs a join, as rows tell it.
fn need_of(
    rows: &RowTable,
    released: &[bool],
    uses: &RowTable,
    takers: &[u32],
    leader: u32,
    task: u32,
) -> bool
    requires rows { leader < length rows.now }
    requires released { leader < length released.now }
    requires uses { task < length uses.now }
    requires takers { All (λ p. p < length takers.now) (row_at uses.now task) }
    ensures { IsTrue result ↔ TellsNeed rows.now released.now uses.now takers.now leader task }
{
    let row = uses.row(task);
    if released[leader as usize] && !row.is_empty() {
        return true;
    }
    rows.row(leader).len() >= 2 && has_two(takers, row)
}

// Whether each task needs a join.
fn needs_of(
    alloc: Global,
    leaders: &[u32],
    rows: &RowTable,
    released: &[bool],
    uses: &RowTable,
    takers: &[u32],
) -> Result<Vec<bool>, NoMemory>
    requires few { length leaders.now ≤ most_tasks }
    requires rows { (i : ℕ) → slice_index leaders.now i < length rows.now }
    requires released { (i : ℕ) → slice_index leaders.now i < length released.now }
    requires uses { length uses.now ≡ length leaders.now + 1 }
    requires takers { (k : ℕ) → k < length uses.now → All (λ p. p < length takers.now) (row_at uses.now k) }
    ensures len { IfOk result (λ needs. length needs.items ≡ length leaders.now) }
    ensures needs { IfOk result (λ needs. (i : ℕ) → i < length leaders.now → ((slice_index_or needs.items i false ≡ true)
        ↔ TellsNeed rows.now released.now uses.now takers.now (slice_index leaders.now i) (i + 1))) }
{
    let mut needs = Vec::with_capacity(alloc, leaders.len())?;
    for i in 0..leaders.len() {
        let need = need_of(rows, released, uses, takers, leaders[i], i as u32 + 1);
        needs.push(need)?;
    }
    Ok(needs)
}

// The numbers of the joins, by the producer and the reader of each use, and the first task with the same readers as each.
fn joins_by(
    alloc: Global,
    items: &SharedItems,
    leaders: &[u32],
    makers: &[u32],
    takers: &[u32],
) -> Result<Vec<u32>, NoMemory>
    requires few { length leaders.now ≤ most_tasks }
    requires uses { length takers.now < 2 ^ 32 }
    requires within { All (IsSharedItemWithin (length leaders.now)) items.now }
    requires leaders { AreLeaders (meet makers.now takers.now) (length leaders.now) leaders.now }
    requires makers { makers.now ≡ specs.makers items.now }
    requires takers { takers.now ≡ specs.takers items.now }
    ensures { IfOk result (λ joins. (tasks : List Task) → length tasks ≡ length leaders.now →
        AreJoins (record { tasks = tasks; items = items.now }) joins.items) }
{
    let count = leaders.len() as u32;
    let rows = RowTable::group(alloc, leaders, count + 1, 1)?;
    let uses = RowTable::group(alloc, makers, count + 1, 0)?;
    let released = released_of(alloc, items, leaders, &rows)?;
    let needs = needs_of(alloc, leaders, &rows, &released, &uses, takers)?;
    let joins = numbers_of(alloc, leaders, &needs)?;
    Ok(joins)
}

/// The numbers of the joins after the tasks. Linear in the tasks, the items and the readers of all items.
pub fn joins_of(alloc: Global, system: &SharedSystem) -> Result<Vec<u32>, NoMemory>
    ensures { IfOk result (λ joins. AreJoins system.now joins.items) }
{
    system.keeps();
    let items = system.items();
    let makers = makers_of(alloc, items)?;
    let takers = takers_of(alloc, items)?;
    let leaders = leaders_of(alloc, system.tasks().len(), &makers, &takers)?;
    joins_by(alloc, items, &leaders, &makers, &takers)
}
