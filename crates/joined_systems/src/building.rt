//! The joined system, where the joins are known.

ghost use Rattle.std.specs.Prelude.{◌≡◌, ℕ, ◌+◌, ◌*◌, ◌<◌, ◌≤◌, ◌^◌, ◌++◌, All};
ghost use Rattle.std.specs.Prelude.{[], ◌∷◌, ◌-◌, map, IfOk, OnOk, MatchOption, length, slice_index, unwrap_or};
ghost use Rattle.std.specs.List.{sum_by, flat_map, range_with_len};
ghost use Rattle.limits.specs.Limits.{most_positions, most_size, most_tasks};
ghost use Rattle.row_table.specs.Rows.{row_at};
ghost use Rattle.mp_system.specs.System.{IsTaskWithin, extra_size};
ghost use Rattle.mp_system.specs.Given.{end_given};
ghost use Rattle.graphs.specs.Graph.{IsAmong};
ghost use Rattle.shared_systems.specs.Shared.{shared_item_at, shared_size_where};
ghost use Rattle.shared_systems.specs.Bounds.{IsSharedSystem, IsSharedItemWithin, reader_count, shared_size};
ghost use Rattle.joined_systems.specs.Joins.{join_count, tasks_of};
ghost use Rattle.joined_systems.specs.Joined as specs;
ghost use Rattle.joined_systems.specs.Joined.{join_task, with_task, joined_item, join_at, joined};
ghost use Rattle.std.specs.Option.{ForSome};
ghost use Rattle.limits.specs.Limits.{most_total, most_uses};
ghost use Rattle.shared_systems.specs.Shared.{SharedItem};
ghost use Rattle.std.specs.Prelude.{◌==◌, ◌↔◌, IsTrue};
ghost use Rattle.joined_systems.specs.Few.{IsFew};

use crate::NoMemory;
use limits::{MOST_POSITIONS, MOST_TASKS, MOST_TOTAL, MOST_USES};
use mp_system::Task;
use row_table::RowTable;
use shared_systems::{GrowingItems, SharedFault, SharedItems, SharedSystem, shared_system_of};
use std::alloc::{AllocError, Global};

// The join that the item at a place goes through; 0 for none.
fn join_between(items: &SharedItems, joins: &[u32], i: usize) -> u32
    requires inside { i < length items.now }
    requires within { All (IsSharedItemWithin (length joins.now)) items.now }
    ensures { result ≡ specs.join_between joins.now (shared_item_at items.now i).from (shared_item_at items.now i).readers }
{
    if items.readers(i).is_empty() {
        return 0;
    }
    match items.producer(i) {
        None => 0,
        Some(task) => joins[task as usize - 1],
    }
}

// The join after these readers, if they are just its tasks; 0 for none.
fn join_after(joins: &[u32], rows: &RowTable, readers: &[u32]) -> u32
    requires within { All (IsAmong (length joins.now)) readers.now }
    requires len { length rows.now ≡ join_count joins.now + 1 }
    requires rows { (k : ℕ) → k ≤ join_count joins.now → row_at rows.now k ≡ tasks_of joins.now k }
    ensures { result ≡ specs.join_after joins.now readers.now }
{
    if readers.len() < 2 {
        return 0;
    }
    let join = joins[readers[0] as usize - 1];
    if readers == rows.row(join) { join } else { 0 }
}

// One more item, which these tasks read, and this join, unless its number is 0.
fn push_item(
    made: &mut GrowingItems,
    count: u32,
    size: u64,
    from: u32,
    readers: &[u32],
    join: u32,
) -> Result<(), NoMemory>
    requires none { made.old.waiting ≡ [] }
    requires few { count + join < 2 ^ 32 }
    requires room { sum_by reader_count made.old.items + length readers.now + 1 < 2 ^ 32 }
    ensures { OnOk result (made.new ≡ record {
      items = made.old.items ++ record { size = size; from = end_given from; readers = readers.now ++ join_task count join } ∷ [];
      waiting = [];
    }) }
{
    for reader in readers {
        made.push_reader(*reader)?;
    }
    if join != 0 {
        made.push_reader(count + join)?;
    }
    made.push_item(size, from)
}

// What stands for the item at a place, which goes through one join and is read by another; 0 stands for none.
fn push_joined(
    made: &mut GrowingItems,
    items: &SharedItems,
    i: usize,
    count: u32,
    between: u32,
    after: u32,
) -> Result<(), NoMemory>
    requires inside { i < length items.now }
    requires producer { ForSome (shared_item_at items.now i).from (IsAmong count) }
    requires none { made.old.waiting ≡ [] }
    requires few_between { count + between < 2 ^ 32 }
    requires few_after { count + after < 2 ^ 32 }
    requires room { sum_by reader_count made.old.items + length (shared_item_at items.now i).readers + 2 < 2 ^ 32 }
    ensures { OnOk result (made.new ≡ record {
      items = made.old.items ++ specs.through count between (with_task count after (shared_item_at items.now i));
      waiting = [];
    }) }
{
    let size = items.size(i);
    let from = items.producer(i).unwrap_or(0);
    let readers = items.readers(i);
    if between == 0 {
        return push_item(made, count, size, from, readers, after);
    }
    push_item(made, count, size, from, &[], between)?;
    push_item(made, count, size, count + between, readers, after)
}

// What stands for all items.
fn items_of(
    alloc: Global,
    items: &SharedItems,
    joins: &[u32],
    rows: &RowTable,
) -> Result<SharedItems, NoMemory>
    requires few { length joins.now ≤ most_tasks }
    requires few_items { length items.now ≤ most_positions }
    requires few_uses { sum_by reader_count items.now ≤ most_uses }
    requires small { join_count joins.now ≤ length joins.now }
    requires within { All (IsSharedItemWithin (length joins.now)) items.now }
    requires len { length rows.now ≡ join_count joins.now + 1 }
    requires rows { (k : ℕ) → k ≤ join_count joins.now → row_at rows.now k ≡ tasks_of joins.now k }
    ensures { IfOk result (λ made. made ≡ flat_map (joined_item (length joins.now) joins.now) items.now) }
{
    let count = joins.len() as u32;
    let mut made = GrowingItems::new(alloc);
    for i in 0..items.len() {
        let between = join_between(items, joins, i);
        let after = join_after(joins, rows, items.readers(i));
        push_joined(&mut made, items, i, count, between, after)?;
    }
    Ok(made.finish())
}

// The same items.
fn copied_items(alloc: Global, items: &SharedItems) -> Result<SharedItems, NoMemory>
    requires few_uses { sum_by reader_count items.now ≤ most_uses }
    requires producers { All (λ x. ForSome x.from (λ v. 1 ≤ v)) items.now }
    ensures { IfOk result (λ made. made ≡ items.now) }
{
    let mut made = GrowingItems::new(alloc);
    for i in 0..items.len() {
        let from = items.producer(i).unwrap_or(0);
        push_item(&mut made, 0, items.size(i), from, items.readers(i), 0)?;
    }
    Ok(made.finish())
}

/// The same system.
pub fn copied(alloc: Global, system: &SharedSystem) -> Result<SharedSystem, NoMemory>
    ensures { IfOk result (λ made. made ≡ system.now) }
{
    system.keeps();
    let items = copied_items(alloc, system.items())?;
    let tasks = Vec::from_slice(alloc, system.tasks())?;
    Ok(SharedSystem::new(tasks, items))
}

// The sizes of the items that go through each join, together; at the place 0 those of the items that go through none.
fn shares_of(
    alloc: Global,
    items: &SharedItems,
    joins: &[u32],
    count: u32,
) -> Result<Vec<u64>, NoMemory>
    requires few { count < 2 ^ 32 - 1 }
    requires count { join_count joins.now ≤ count }
    requires within { All (IsSharedItemWithin (length joins.now)) items.now }
    requires total { sum_by shared_size items.now ≤ most_total }
    ensures len { IfOk result (λ shares. length shares.items ≡ count + 1) }
    ensures shares { IfOk result (λ shares. (k : ℕ) → slice_index shares.items k
        ≡ shared_size_where (λ x. specs.join_between joins.now x.from x.readers == k) items.now) }
{
    let mut shares: Vec<u64> = vec![in alloc; 0; count as usize + 1]?;
    for i in 0..items.len() {
        let join = join_between(items, joins, i);
        shares[join as usize] += items.size(i);
    }
    Ok(shares)
}

// The tasks, and after them the joins, by their shares from the place 1 on.
fn tasks_of(alloc: Global, tasks: &[Task], shares: &[u64]) -> Result<Vec<Task>, NoMemory>
    requires { 1 ≤ length shares.now }
    ensures { IfOk result (λ made. made.items
        ≡ tasks.now ++ map (λ k. record { extra = 0; share = slice_index shares.now k; time = 1 })
        (range_with_len 1 (length shares.now - 1))) }
{
    let mut made = Vec::from_slice(alloc, tasks)?;
    for k in 1..shares.len() {
        made.push(Task {
            extra: 0,
            share: shares[k],
            time: 1,
        })?;
    }
    Ok(made)
}

// The greatest of the joins' numbers.
fn count_of(joins: &[u32]) -> u32
    ensures { result ≡ join_count joins.now }
{
    let mut count = 0;
    for join in joins {
        if *join > count {
            count = *join;
        }
    }
    count
}

// All extras together.
fn extras_of(tasks: &[Task]) -> u64
    requires { sum_by extra_size tasks.now ≤ most_total }
    ensures { result ≡ sum_by extra_size tasks.now }
{
    let mut total: u64 = 0;
    for i in 0..tasks.len() {
        total += tasks[i].extra;
    }
    total
}

// All sizes together.
fn sizes_of(items: &SharedItems) -> u64
    requires { sum_by shared_size items.now ≤ 2 * most_total }
    ensures { result ≡ sum_by shared_size items.now }
{
    let mut total: u64 = 0;
    for i in 0..items.len() {
        total += items.size(i);
    }
    total
}

// How many readers all items have together.
fn uses_of(items: &SharedItems) -> u64
    requires { sum_by reader_count items.now < 2 ^ 32 }
    ensures { result ≡ sum_by reader_count items.now }
{
    let mut total: u64 = 0;
    for i in 0..items.len() {
        total += items.readers(i).len() as u64;
    }
    total
}

// Whether there are as many tasks, items and readers as there may be, and all extras and sizes together are within the limit.
fn is_few(tasks: &[Task], items: &SharedItems) -> bool
    requires extras { sum_by extra_size tasks.now ≤ most_total }
    requires sizes { sum_by shared_size items.now ≤ 2 * most_total }
    requires uses { sum_by reader_count items.now < 2 ^ 32 }
    ensures { IsTrue result ↔ IsFew (record { tasks = tasks.now; items = items.now }) }
{
    tasks.len() as u64 <= MOST_TASKS
        && items.len() as u64 <= MOST_POSITIONS
        && uses_of(items) <= MOST_USES
        && extras_of(tasks) + sizes_of(items) <= MOST_TOTAL
}

/// The system with its joins, whose numbers stand in a list for the tasks that they come after; none where it is not within the limits.
/// Linear in the tasks, the items and the readers of all items.
pub fn joined_with(
    alloc: Global,
    system: &SharedSystem,
    joins: &[u32],
) -> Result<Option<SharedSystem>, NoMemory>
    requires len { length joins.now ≡ length system.now.tasks }
    requires small { join_count joins.now ≤ length joins.now }
    ensures { IfOk result (λ made. MatchOption made (¬ IsSharedSystem (joined joins.now system.now))
        (λ other. (other ≡ joined joins.now system.now) × IsSharedSystem (joined joins.now system.now))) }
{
    system.keeps();
    let count = count_of(joins);
    let rows = RowTable::group(alloc, joins, count + 1, 1)?;
    let items = items_of(alloc, system.items(), joins, &rows)?;
    let shares = shares_of(alloc, system.items(), joins, count)?;
    let tasks = tasks_of(alloc, system.tasks(), &shares)?;
    if !is_few(&tasks, &items) {
        return Ok(None);
    }
    match shared_system_of(alloc, tasks, items) {
        Ok(made) => Ok(Some(made)),
        Err(SharedFault::Cycle(_)) => Ok(None),
        Err(SharedFault::Share(_)) => Ok(None),
        Err(SharedFault::NoMemory) => Err(AllocError),
    }
}
