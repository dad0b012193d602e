//! Whether tasks and items that a caller gives are a system.

ghost use Rattle.std.specs.Prelude.{◌≡◌, ◌≤◌, ◌*◌, ◌↔◌, ℕ, List, length, IfOk, IfErr, IsTrue, MatchResult};
ghost use Rattle.std.specs.List.{sum_by};
ghost use Rattle.limits.specs.Limits.{most_tasks, most_positions, most_size};
ghost use Rattle.mp_system.specs.System.{IsSystem};
ghost use Rattle.mp_system.specs.declared.given.GivenTask.{GivenTask};
ghost use Rattle.mp_system.specs.declared.given.GivenItem.{GivenItem};
ghost use Rattle.mp_system.specs.declared.judged.TaskTest.TheVariants as task_tests;
ghost use Rattle.mp_system.specs.declared.judged.ItemTest.TheVariants as item_tests;
ghost use Rattle.mp_system.specs.Given.{system_given};
ghost use Rattle.mp_system.specs.Judged.{ArePlain, AreFew, IsSystemRefusal, ItemPasses, ItemsPass, ItemsPassBefore, TaskPasses};
ghost use Rattle.lists.specs.Numbers.{Each};
ghost use Rattle.mp_system.specs.Judged.{TasksPass, TasksPassBefore, given_item, given_task};

use crate::NoMemory;
use crate::given::{GivenItem, GivenTask, items_of, tasks_of};
use crate::shares::first_unfit_share;
use crate::system::System;
use limits::{MOST_POSITIONS, MOST_SIZE, MOST_TASKS, MOST_TIME, MOST_TOTAL};
use std::alloc::Global;

/// A test that each task of a system passes by itself.
#[derive(Clone, Copy, Debug, PartialEq, Eq)]
pub enum TaskTest {
    /// The time is not 0.
    Time,
    /// The extra is at most 2^40.
    Size,
    /// The time is at most 2^40.
    LongTime,
}

/// A test that each item of a system passes by itself.
#[derive(Clone, Copy, Debug, PartialEq, Eq)]
pub enum ItemTest {
    /// What produces it and what consumes it are 0 or the numbers of tasks.
    Ends,
    /// The size is at most 2^40.
    Size,
}

/// Why tasks and items are no system.
#[derive(Clone, Copy, Debug, PartialEq, Eq)]
pub enum SystemRefusal {
    /// There are more tasks than the limit `tasks`.
    ManyTasks,
    /// There are more items than the limit `positions`.
    ManyItems,
    /// The lowest task that fails a test, of which it is the first.
    Task { test: TaskTest, task: u32 },
    /// The first item, counted from 1, that fails a test, of which it is the first.
    Item { test: ItemTest, item: u32 },
    /// All extras and sizes together are greater than 2^60.
    Total,
    /// The share of this task, the lowest such, does not fit.
    Share(u32),
    /// Memory ran out, which says nothing of the tasks and items.
    NoMemory,
}

impl From<NoMemory> for SystemRefusal {
    ghost use Rattle.mp_system.specs.declared.judged.SystemRefusal.TheVariants.{NoMemory as OutOfMemory};

    ghost from_gives = { λ _ e. e ≡ OutOfMemory };

    fn from(_no_memory: NoMemory) -> SystemRefusal {
        SystemRefusal::NoMemory
    }
}

// Whether a task passes a test.
fn task_passes(test: TaskTest, task: GivenTask) -> bool
    ensures { (tasks : List GivenTask) (v : ℕ) → given_task tasks v ≡ task → (IsTrue result ↔ TaskPasses tasks test v) }
{
    match test {
        TaskTest::Time => task.time != 0,
        TaskTest::Size => task.extra <= MOST_SIZE,
        TaskTest::LongTime => task.time <= MOST_TIME,
    }
}

// Whether an item of a system of so many tasks passes a test.
fn item_passes(test: ItemTest, item: GivenItem, count: usize) -> bool
    ensures { (items : List GivenItem) (i : ℕ) → given_item items i ≡ item → (IsTrue result ↔ ItemPasses count items test i) }
{
    match test {
        ItemTest::Ends => item.from as usize <= count && item.to as usize <= count,
        ItemTest::Size => item.size <= MOST_SIZE,
    }
}

// Whether all tasks pass a test; else the lowest that fails it.
fn judge_tasks(
    test: TaskTest,
    tasks: &[GivenTask],
    items: &[GivenItem],
) -> Result<(), SystemRefusal>
    requires few { AreFew tasks.now items.now }
    requires before { TasksPassBefore tasks.now test }
    ensures { MatchResult result (λ _. Each (length tasks.now) (TaskPasses tasks.now test)) (IsSystemRefusal tasks.now items.now) }
{
    for i in 0..tasks.len() {
        if !task_passes(test, tasks[i]) {
            let task = i as u32 + 1;
            return Err(SystemRefusal::Task { test, task });
        }
    }
    Ok(())
}

// Whether all items pass a test; else the first that fails it.
fn judge_items(
    test: ItemTest,
    tasks: &[GivenTask],
    items: &[GivenItem],
) -> Result<(), SystemRefusal>
    requires few { AreFew tasks.now items.now }
    requires tasks { TasksPass tasks.now }
    requires before { ItemsPassBefore (length tasks.now) items.now test }
    ensures { MatchResult result (λ _. Each (length items.now) (ItemPasses (length tasks.now) items.now test))
        (IsSystemRefusal tasks.now items.now) }
{
    for i in 0..items.len() {
        if !item_passes(test, items[i], tasks.len()) {
            let item = i as u32 + 1;
            return Err(SystemRefusal::Item { test, item });
        }
    }
    Ok(())
}

// Whether each task and each item passes all tests, and there are as many as there may be.
fn judge_each(tasks: &[GivenTask], items: &[GivenItem]) -> Result<(), SystemRefusal>
    ensures { MatchResult result (λ _. ArePlain tasks.now items.now) (IsSystemRefusal tasks.now items.now) }
{
    if tasks.len() as u64 > MOST_TASKS {
        return Err(SystemRefusal::ManyTasks);
    }
    if items.len() as u64 > MOST_POSITIONS {
        return Err(SystemRefusal::ManyItems);
    }
    judge_tasks(TaskTest::Time, tasks, items)?;
    judge_tasks(TaskTest::Size, tasks, items)?;
    judge_tasks(TaskTest::LongTime, tasks, items)?;
    judge_items(ItemTest::Ends, tasks, items)?;
    judge_items(ItemTest::Size, tasks, items)
}

// All extras together.
fn extras_of(tasks: &[GivenTask]) -> u64
    requires few { length tasks.now ≤ most_tasks }
    requires sizes { Each (length tasks.now) (TaskPasses tasks.now task_tests.Size) }
    ensures value { result ≡ sum_by (λ task. task.extra) tasks.now }
    ensures small { result ≤ most_tasks * most_size }
{
    let mut total: u64 = 0;
    for i in 0..tasks.len() {
        total += tasks[i].extra;
    }
    total
}

// All sizes of items, of a system of so many tasks, together.
fn sizes_of(items: &[GivenItem], count: usize) -> u64
    requires few { length items.now ≤ most_positions }
    requires sizes { Each (length items.now) (ItemPasses count items.now item_tests.Size) }
    ensures value { result ≡ sum_by (λ item. item.size) items.now }
    ensures small { result ≤ most_positions * most_size }
{
    let mut total: u64 = 0;
    for i in 0..items.len() {
        total += items[i].size;
    }
    total
}

// Whether tasks and items are a system.
fn judge(alloc: Global, tasks: &[GivenTask], items: &[GivenItem]) -> Result<(), SystemRefusal>
    ensures { MatchResult result (λ _. IsSystem (system_given tasks.now items.now)) (IsSystemRefusal tasks.now items.now) }
{
    judge_each(tasks, items)?;
    if extras_of(tasks) + sizes_of(items, tasks.len()) > MOST_TOTAL {
        return Err(SystemRefusal::Total);
    }
    if let Some(task) = first_unfit_share(alloc, tasks, items)? {
        return Err(SystemRefusal::Share(task));
    }
    Ok(())
}

/// The system of these tasks and items, or why they are none: the first test that fails, with the lowest task or the first item that
/// fails it. Linear. Whether the tasks can be ordered is no matter of the system: an order is judged by its replay.
pub fn system_of_arrays(
    alloc: Global,
    tasks: &[GivenTask],
    items: &[GivenItem],
) -> Result<System, SystemRefusal>
    ensures system { IfOk result (λ system. system ≡ system_given tasks.now items.now) }
    ensures within { IfOk result (λ _. IsSystem (system_given tasks.now items.now)) }
    ensures refused { IfErr result (IsSystemRefusal tasks.now items.now) }
{
    judge(alloc, tasks, items)?;
    let made = tasks_of(alloc, tasks)?;
    let items = items_of(alloc, items)?;
    Ok(System::new(made, items))
}
