//! Whether each task and each item passes the tests that it passes by itself.

ghost use Rattle.std.specs.Prelude.{◌≡◌, ◌≤◌, ◌<◌, ◌↔◌, ◌^◌, ℕ, List, false, All, IsTrue, MatchOption, length};
ghost use Rattle.std.specs.List.Sorted.{IsStrictlyIncreasing};
ghost use Rattle.std.specs.Option.{ForSome};
ghost use Rattle.limits.specs.Limits.{most_tasks, most_positions};
ghost use Rattle.lists.specs.Numbers.{Each, IsFirstWithout};
ghost use Rattle.mp_system.specs.System.{is_named};
ghost use Rattle.mp_system.specs.declared.given.GivenTask.{GivenTask};
ghost use Rattle.mp_system.specs.Judged.{TaskPasses, TasksPassBefore, TasksPass, given_task};
ghost use Rattle.graphs.specs.Graph.{IsAmong};
ghost use Rattle.shared_systems.specs.Shared.{SharedItem, shared_item_at};
ghost use Rattle.shared_systems.specs.Judged.{SharedItemPasses, EachPasses, PlacePasses, SharedItemsPass, IsFirstItemFault, IsFirstTaskFault};

use crate::items::SharedItems;
use crate::judged::SharedItemTest;
use limits::{MOST_SIZE, MOST_TIME};
use mp_system::{GivenTask, TaskTest};

// Whether all numbers are those of so many tasks.
fn are_tasks(numbers: &[u32], count: usize) -> bool
    ensures { IsTrue result ↔ All (IsAmong count) numbers.now }
{
    numbers
        .iter()
        .all(|task| *task != 0 && *task as usize <= count)
}

// Whether a producer is one of so many tasks, if there is one.
fn is_task(producer: Option<u32>, count: usize) -> bool
    ensures { IsTrue result ↔ ForSome producer (IsAmong count) }
{
    match producer {
        None => true,
        Some(task) => task != 0 && task as usize <= count,
    }
}

// Whether a producer, if there is one, is none of the readers.
fn are_apart(producer: Option<u32>, readers: &[u32]) -> bool
    ensures { IsTrue result ↔ All (λ c. is_named producer c ≡ false) readers.now }
{
    match producer {
        None => true,
        Some(task) => readers.iter().all(|reader| task != *reader),
    }
}

// Whether numbers rise.
fn are_rising(numbers: &[u32]) -> bool
    ensures { IsTrue result ↔ IsStrictlyIncreasing numbers.now }
{
    for i in 1..numbers.len() {
        if numbers[i - 1] >= numbers[i] {
            return false;
        }
    }
    true
}

// Whether the item at a place passes a test, in a system of so many tasks.
fn item_passes(test: SharedItemTest, count: usize, items: &SharedItems, i: usize) -> bool
    requires { i < length items.now }
    ensures { IsTrue result ↔ SharedItemPasses count test (shared_item_at items.now i) }
{
    match test {
        SharedItemTest::Producer => is_task(items.producer(i), count),
        SharedItemTest::Readers => are_tasks(items.readers(i), count),
        SharedItemTest::Apart => are_apart(items.producer(i), items.readers(i)),
        SharedItemTest::Rising => are_rising(items.readers(i)),
        SharedItemTest::Size => items.size(i) <= MOST_SIZE,
    }
}

// The first item, counted from 1, that fails a test, if one does.
fn first_failing(test: SharedItemTest, count: usize, items: &SharedItems) -> Option<u32>
    requires { length items.now ≤ most_positions }
    ensures { MatchOption result (EachPasses count items.now test) (IsFirstWithout (length items.now) (PlacePasses count items.now test)) }
{
    for i in 0..items.len() {
        if !item_passes(test, count, items, i) {
            return Some(i as u32 + 1);
        }
    }
    None
}

/// The first test that an item fails, with the first item that fails it, counted from 1.
#[derive(Clone, Copy)]
pub struct ItemFault {
    pub test: SharedItemTest,
    pub item: u32,
}

/// The first test that an item fails, with the first item that fails it, if one does.
pub fn first_item_fault(count: usize, items: &SharedItems) -> Option<ItemFault>
    requires { length items.now ≤ most_positions }
    ensures { MatchOption result (SharedItemsPass count items.now) (λ fault. IsFirstItemFault count items.now fault.test fault.item) }
{
    if let Some(item) = first_failing(SharedItemTest::Producer, count, items) {
        let test = SharedItemTest::Producer;
        return Some(ItemFault { test, item });
    }
    if let Some(item) = first_failing(SharedItemTest::Readers, count, items) {
        let test = SharedItemTest::Readers;
        return Some(ItemFault { test, item });
    }
    if let Some(item) = first_failing(SharedItemTest::Apart, count, items) {
        let test = SharedItemTest::Apart;
        return Some(ItemFault { test, item });
    }
    if let Some(item) = first_failing(SharedItemTest::Rising, count, items) {
        let test = SharedItemTest::Rising;
        return Some(ItemFault { test, item });
    }
    let test = SharedItemTest::Size;
    first_failing(test, count, items).map(|item| ItemFault { test, item })
}

// Whether a task passes a test.
fn task_passes(test: TaskTest, task: GivenTask) -> bool
    ensures { (tasks : List GivenTask) (v : ℕ) → given_task tasks v ≡ task → (IsTrue result ↔ TaskPasses tasks test v) }
{
    match test {
        TaskTest::Time => task.time != 0,
        TaskTest::Size => task.extra <= MOST_SIZE,
        TaskTest::LongTime => task.time <= MOST_TIME,
    }
}

// The lowest task that fails a test, if one does.
fn lowest_failing(test: TaskTest, tasks: &[GivenTask]) -> Option<u32>
    requires { length tasks.now ≤ most_tasks }
    ensures { MatchOption result (Each (length tasks.now) (TaskPasses tasks.now test)) (IsFirstWithout (length tasks.now) (TaskPasses tasks.now test)) }
{
    for i in 0..tasks.len() {
        if !task_passes(test, tasks[i]) {
            return Some(i as u32 + 1);
        }
    }
    None
}

/// The first test that a task fails, with the lowest task that fails it.
#[derive(Clone, Copy)]
pub struct TaskFault {
    pub test: TaskTest,
    pub task: u32,
}

/// The first test that a task fails, with the lowest task that fails it, if one does.
pub fn first_task_fault(tasks: &[GivenTask]) -> Option<TaskFault>
    requires { length tasks.now ≤ most_tasks }
    ensures { MatchOption result (TasksPass tasks.now) (λ fault. IsFirstTaskFault tasks.now fault.test fault.task) }
{
    if let Some(task) = lowest_failing(TaskTest::Time, tasks) {
        let test = TaskTest::Time;
        return Some(TaskFault { test, task });
    }
    if let Some(task) = lowest_failing(TaskTest::Size, tasks) {
        let test = TaskTest::Size;
        return Some(TaskFault { test, task });
    }
    let test = TaskTest::LongTime;
    lowest_failing(test, tasks).map(|task| TaskFault { test, task })
}
