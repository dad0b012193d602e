//! Whether tasks and items are a shared system.

ghost use Rattle.std.specs.Prelude.{◌≡◌, ◌≤◌, ◌^◌, ◌*◌, ◌+◌, ℕ, length, map, IfOk, IfErr, MatchResult};
ghost use Rattle.std.specs.List.{sum_by};
ghost use Rattle.limits.specs.Limits.{most_tasks, most_positions, most_size};
ghost use Rattle.mp_system.specs.System.{extra_size, IsTaskWithin};
ghost use Rattle.mp_system.specs.Given.{task_given};
ghost use Rattle.shared_systems.specs.Bounds.{IsSharedSystem, shared_size};
ghost use Rattle.shared_systems.specs.Given.{items_given, count_given, shared_system_given};
ghost use Rattle.shared_systems.specs.Judged.{IsPlainShared, IsSharedFault, IsSharedRefusal, ArePlainShared, SharedItemsPass, refusal_of};
ghost use Rattle.std.specs.Prelude.{All};

use crate::NoMemory;
use crate::given::GivenSharedItem;
use crate::items::SharedItems;
use crate::passing::{first_item_fault, first_task_fault};
use crate::shares::first_unfit_share;
use crate::system::SharedSystem;
use crate::uses::first_unordered_task;
use limits::{MOST_POSITIONS, MOST_TASKS, MOST_TOTAL, MOST_USES};
use mp_system::{GivenTask, Task, TaskTest};
use std::alloc::Global;

/// A test that each item of a shared system passes by itself.
#[derive(Clone, Copy, Debug, PartialEq, Eq)]
pub enum SharedItemTest {
    /// Its producer is 0 or the number of a task.
    Producer,
    /// Its readers are numbers of tasks.
    Readers,
    /// Its producer is none of its readers.
    Apart,
    /// Its readers rise, so none stands twice.
    Rising,
    /// Its size is at most 2^40.
    Size,
}

/// Why tasks and items are no shared system, where each is within the limits.
#[derive(Clone, Copy, Debug, PartialEq, Eq)]
pub enum SharedFault {
    /// This task, the lowest such, stands in no list of tasks in which all suppliers of each stand before it.
    Cycle(u32),
    /// The share of this task, the lowest such, is greater than what it alone reads, or than its extra and what it produces.
    Share(u32),
    /// Memory ran out, which says nothing of the tasks and items.
    NoMemory,
}

impl From<NoMemory> for SharedFault {
    ghost use Rattle.shared_systems.specs.declared.judged.SharedFault.TheVariants.{NoMemory as OutOfMemory};

    ghost from_gives = { λ _ e. e ≡ OutOfMemory };

    fn from(_no_memory: NoMemory) -> SharedFault {
        SharedFault::NoMemory
    }
}

/// Why tasks, items and readers that a caller gives are no shared system.
#[derive(Clone, Copy, Debug, PartialEq, Eq)]
pub enum SharedRefusal {
    /// There are more than 10^6 tasks.
    ManyTasks,
    /// There are more than 4,000,001 items.
    ManyItems,
    /// There are more than 10^7 readers of all items together.
    ManyUses,
    /// There are not as many readers as the items say.
    Counts,
    /// The lowest task that fails a test, of which it is the first.
    Task { test: TaskTest, task: u32 },
    /// The first item, counted from 1, that fails a test, of which it is the first.
    Item { test: SharedItemTest, item: u32 },
    /// All extras and sizes together are greater than 2^60.
    Total,
    /// This task, the lowest such, stands in no list of tasks in which all suppliers of each stand before it.
    Cycle(u32),
    /// The share of this task, the lowest such, is greater than what it alone reads, or than its extra and what it produces.
    Share(u32),
    /// Memory ran out, which says nothing of the tasks and items.
    NoMemory,
}

impl From<NoMemory> for SharedRefusal {
    ghost use Rattle.shared_systems.specs.declared.judged.SharedRefusal.TheVariants.{NoMemory as OutOfMemory};

    ghost from_gives = { λ _ e. e ≡ OutOfMemory };

    fn from(_no_memory: NoMemory) -> SharedRefusal {
        SharedRefusal::NoMemory
    }
}

// Whether all tasks can be ordered and all shares fit.
fn judge(alloc: Global, tasks: &[Task], items: &SharedItems) -> Result<(), SharedFault>
    requires { IsPlainShared (record { tasks = tasks.now; items = items.now }) }
    ensures { MatchResult result (λ _. IsSharedSystem (record { tasks = tasks.now; items = items.now }))
        (IsSharedFault (record { tasks = tasks.now; items = items.now })) }
{
    if let Some(task) = first_unordered_task(alloc, tasks, items)? {
        return Err(SharedFault::Cycle(task));
    }
    if let Some(task) = first_unfit_share(alloc, tasks, items)? {
        return Err(SharedFault::Share(task));
    }
    Ok(())
}

/// The shared system of these tasks and items, or why they are none: the lowest task that can't be ordered, else the lowest whose share
/// does not fit. Linear in the tasks, the items and the readers of all items.
///
/// Each task and item by itself is within the limits already, as are their numbers and all sizes together.
pub fn shared_system_of(
    alloc: Global,
    tasks: Vec<Task>,
    items: SharedItems,
) -> Result<SharedSystem, SharedFault>
    requires { IsPlainShared (record { tasks = tasks.items; items = items }) }
    ensures system { IfOk result (λ system. system ≡ record { tasks = tasks.items; items = items }) }
    ensures within { IfOk result (λ _. IsSharedSystem (record { tasks = tasks.items; items = items })) }
    ensures refused { IfErr result (IsSharedFault (record { tasks = tasks.items; items = items })) }
{
    judge(alloc, &tasks, &items)?;
    Ok(SharedSystem::new(tasks, items))
}

// How many readers items are to have, together.
fn readers_given(items: &[GivenSharedItem]) -> u64
    requires { length items.now ≤ most_positions }
    ensures { result ≡ sum_by count_given items.now }
{
    let mut total: u64 = 0;
    for i in 0..items.len() {
        total += u64::from(items[i].readers);
    }
    total
}

// The tasks that an array gives.
fn tasks_of(alloc: Global, tasks: &[GivenTask]) -> Result<Vec<Task>, NoMemory>
    ensures { IfOk result (λ made. made.items ≡ map task_given tasks.now) }
{
    tasks
        .iter()
        .map(|task| Task {
            extra: task.extra,
            share: task.share,
            time: task.time,
        })
        .collect(alloc)
}

// The items that arrays give, where each task and each item passes all tests, and there are as many as there may be.
fn items_of(
    alloc: Global,
    tasks: &[GivenTask],
    items: &[GivenSharedItem],
    readers: &[u32],
) -> Result<SharedItems, SharedRefusal>
    ensures items { IfOk result (λ made. made ≡ items_given items.now readers.now) }
    ensures plain { IfOk result (λ _. ArePlainShared tasks.now items.now readers.now) }
    ensures refused { IfErr result (IsSharedRefusal tasks.now items.now readers.now) }
{
    if tasks.len() as u64 > MOST_TASKS {
        return Err(SharedRefusal::ManyTasks);
    }
    if items.len() as u64 > MOST_POSITIONS {
        return Err(SharedRefusal::ManyItems);
    }
    if readers.len() as u64 > MOST_USES {
        return Err(SharedRefusal::ManyUses);
    }
    if readers_given(items) != readers.len() as u64 {
        return Err(SharedRefusal::Counts);
    }
    if let Some(fault) = first_task_fault(tasks) {
        let test = fault.test;
        let task = fault.task;
        return Err(SharedRefusal::Task { test, task });
    }
    let made = SharedItems::of_arrays(alloc, items, readers)?;
    if let Some(fault) = first_item_fault(tasks.len(), &made) {
        let test = fault.test;
        let item = fault.item;
        return Err(SharedRefusal::Item { test, item });
    }
    Ok(made)
}

// All extras together.
fn extras_of(tasks: &[Task]) -> u64
    requires few { length tasks.now ≤ most_tasks }
    requires within { All IsTaskWithin tasks.now }
    ensures value { result ≡ sum_by extra_size tasks.now }
    ensures small { result ≤ most_tasks * most_size }
{
    let mut total: u64 = 0;
    for i in 0..tasks.len() {
        total += tasks[i].extra;
    }
    total
}

// All sizes of items together.
fn sizes_of(items: &SharedItems, count: usize) -> u64
    requires few { length items.now ≤ most_positions }
    requires within { SharedItemsPass count items.now }
    ensures value { result ≡ sum_by shared_size items.now }
    ensures small { result ≤ most_positions * most_size }
{
    let mut total: u64 = 0;
    for i in 0..items.len() {
        total += items.size(i);
    }
    total
}

// What a caller is told of a fault.
fn refusal_of(fault: SharedFault) -> SharedRefusal
    ensures { result ≡ refusal_of fault }
{
    match fault {
        SharedFault::Cycle(task) => SharedRefusal::Cycle(task),
        SharedFault::Share(task) => SharedRefusal::Share(task),
        SharedFault::NoMemory => SharedRefusal::NoMemory,
    }
}

/// The shared system that a caller's arrays give, or why they give none: the first test that fails, with the lowest task or the first item
/// that fails it. The tests are in the order of [`SharedRefusal`] and, of tasks and items, in the order of [`TaskTest`] and
/// [`SharedItemTest`]. Linear in the tasks, the items and the readers of all items.
pub fn shared_system_of_arrays(
    alloc: Global,
    tasks: &[GivenTask],
    items: &[GivenSharedItem],
    readers: &[u32],
) -> Result<SharedSystem, SharedRefusal>
    ensures system { IfOk result (λ system. system ≡ shared_system_given tasks.now items.now readers.now) }
    ensures within { IfOk result (λ _. IsSharedSystem (shared_system_given tasks.now items.now readers.now)) }
    ensures refused { IfErr result (IsSharedRefusal tasks.now items.now readers.now) }
{
    let made = items_of(alloc, tasks, items, readers)?;
    let all = tasks_of(alloc, tasks)?;
    if extras_of(&all) + sizes_of(&made, tasks.len()) > MOST_TOTAL {
        return Err(SharedRefusal::Total);
    }
    match shared_system_of(alloc, all, made) {
        Ok(system) => Ok(system),
        Err(fault) => Err(refusal_of(fault)),
    }
}
