//! The systems of the worked rows.

use mp_system::GivenTask;
use shared_systems::{GivenSharedItem, SharedSystem, shared_system_of_arrays};
use std::alloc::Global;
use std::test::Fail;

pub fn task(extra: u64, share: u64, time: u64) -> GivenTask {
    GivenTask { extra, share, time }
}

// An item that so many tasks read.
pub fn item(size: u64, from: u32, readers: u32) -> GivenSharedItem {
    GivenSharedItem {
        size,
        from,
        readers,
    }
}

// A system of tasks and items, and the readers of all items, one after the other. One that is none fails a test.
pub fn made(
    alloc: Global,
    tasks: &[GivenTask],
    items: &[GivenSharedItem],
    readers: &[u32],
) -> Result<SharedSystem, Fail> {
    match shared_system_of_arrays(alloc, tasks, items, readers) {
        Ok(system) => Ok(system),
        Err(_) => Err("a system that was refused".into()),
    }
}

// Task 1 makes an item of 4, which 2, 3 and 4 read; 5 reads the three items of 1 that they make, and takes one of them over.
pub fn fan(alloc: Global) -> Result<SharedSystem, Fail> {
    let tasks = [
        task(0, 0, 1),
        task(2, 0, 2),
        task(2, 0, 1),
        task(2, 0, 1),
        task(0, 1, 1),
    ];
    let items = [
        item(4, 1, 3),
        item(1, 2, 1),
        item(1, 3, 1),
        item(1, 4, 1),
        item(2, 5, 0),
    ];
    made(alloc, &tasks, &items, &[2, 3, 4, 5, 5, 5])
}

// A tree of five nodes: 5 has the children 2 and 4, which have the children 1 and 3; 1 and 3 need 9 beside what they produce.
pub fn tree(alloc: Global) -> Result<SharedSystem, Fail> {
    let (leaf, node) = (task(9, 0, 1), task(0, 0, 1));
    let tasks = [leaf, node, leaf, node, node];
    let items = [
        item(1, 1, 1),
        item(5, 2, 1),
        item(1, 3, 1),
        item(5, 4, 1),
        item(0, 5, 0),
    ];
    made(alloc, &tasks, &items, &[2, 5, 4, 5])
}

// A root with three leaves of size 2.
pub fn star(alloc: Global) -> Result<SharedSystem, Fail> {
    let tasks = [task(0, 0, 1), task(0, 0, 1), task(0, 0, 1), task(0, 0, 1)];
    let items = [item(2, 1, 1), item(2, 2, 1), item(2, 3, 1), item(0, 4, 0)];
    made(alloc, &tasks, &items, &[4, 4, 4])
}

// The fronts of an arrow matrix: the last is built in the memory of one of its children's blocks.
pub fn arrow(alloc: Global) -> Result<SharedSystem, Fail> {
    let tasks = [task(2, 0, 1), task(2, 0, 1), task(3, 1, 2)];
    let items = [item(1, 1, 1), item(1, 2, 1), item(0, 3, 0)];
    made(alloc, &tasks, &items, &[3, 3])
}

// Two items of size 10, and no task.
pub fn still(alloc: Global) -> Result<SharedSystem, Fail> {
    made(alloc, &[], &[item(10, 0, 0), item(10, 0, 0)], &[])
}
