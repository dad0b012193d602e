//! Two tasks that each supply both of two others, three that read one input and supply one, and tasks that need no join.

use joined_systems::join_tasks;
use mp_system::GivenTask;
use shared_systems::{
    GivenSharedItem, SharedItems, SharedRefusal, SharedSystem, shared_system_of_arrays,
};
use std::alloc::Global;
use std::process::Abort;
use std::rt::HostRuntime;

// A task that takes this share of its inputs over.
fn task(extra: u64, share: u64) -> GivenTask {
    GivenTask {
        extra,
        share,
        time: 1,
    }
}

// An item that so many tasks read.
fn item(size: u64, from: u32, readers: u32) -> GivenSharedItem {
    GivenSharedItem {
        size,
        from,
        readers,
    }
}

// Whether the item at a place is this one.
fn is_item(items: &SharedItems, i: usize, size: u64, from: Option<u32>, readers: &[u32]) -> bool {
    i < items.len()
        && items.size(i) == size
        && items.producer(i) == from
        && items.readers(i) == readers
}

// Whether the last of so many tasks is a join with this share.
fn ends_with_join(system: &SharedSystem, count: usize, share: u64) -> bool {
    let tasks = system.tasks();
    let Some(last) = tasks.last() else {
        return false;
    };
    tasks.len() == count && last.extra == 0 && last.share == share && last.time == 1
}

// Tasks 3 and 4 each read what task 1 makes and what task 2 makes.
fn crossing(alloc: Global) -> Result<SharedSystem, SharedRefusal> {
    let tasks = [task(1, 0), task(0, 0), task(2, 0), task(0, 0)];
    let items = [item(5, 1, 2), item(3, 2, 2), item(2, 3, 0), item(1, 4, 0)];
    shared_system_of_arrays(alloc, &tasks, &items, &[3, 4, 3, 4])
}

fn crossing_is_joined(alloc: Global) -> bool {
    let Ok(system) = crossing(alloc) else {
        return false;
    };
    let Ok(made) = join_tasks(alloc, &system) else {
        return false;
    };
    let items = made.items();
    ends_with_join(&made, 5, 8)
        && items.len() == 6
        && is_item(items, 0, 5, Some(1), &[5])
        && is_item(items, 1, 5, Some(5), &[3, 4])
        && is_item(items, 2, 3, Some(2), &[5])
        && is_item(items, 3, 3, Some(5), &[3, 4])
        && is_item(items, 4, 2, Some(3), &[])
        && is_item(items, 5, 1, Some(4), &[])
        && system.peak(alloc, &[1, 2, 3, 4]) == Ok(12)
        && made.peak(alloc, &[1, 2, 5, 3, 4]) == Ok(12)
}

// Tasks 1, 2 and 3 read an input, and task 4 reads what they make.
fn branches(alloc: Global) -> Result<SharedSystem, SharedRefusal> {
    let tasks = [task(2, 0), task(0, 0), task(0, 0), task(0, 3)];
    let items = [
        item(7, 0, 3),
        item(1, 1, 1),
        item(1, 2, 1),
        item(1, 3, 1),
        item(4, 4, 0),
    ];
    shared_system_of_arrays(alloc, &tasks, &items, &[1, 2, 3, 4, 4, 4])
}

fn branches_are_joined(alloc: Global) -> bool {
    let Ok(system) = branches(alloc) else {
        return false;
    };
    let Ok(made) = join_tasks(alloc, &system) else {
        return false;
    };
    let items = made.items();
    ends_with_join(&made, 5, 3)
        && items.len() == 8
        && is_item(items, 0, 7, None, &[1, 2, 3, 5])
        && is_item(items, 1, 1, Some(1), &[5])
        && is_item(items, 2, 1, Some(5), &[4])
        && is_item(items, 6, 1, Some(5), &[4])
        && is_item(items, 7, 4, Some(4), &[])
        && system.peak(alloc, &[1, 2, 3, 4]) == Ok(10)
        && made.peak(alloc, &[1, 2, 3, 5, 4]) == Ok(10)
}

// As before, but task 3 does not read the input: the tasks that read it are not all that supply task 4.
fn some_branches(alloc: Global) -> Result<SharedSystem, SharedRefusal> {
    let tasks = [task(2, 0), task(0, 0), task(0, 0), task(0, 3)];
    let items = [
        item(7, 0, 2),
        item(1, 1, 1),
        item(1, 2, 1),
        item(1, 3, 1),
        item(4, 4, 0),
    ];
    shared_system_of_arrays(alloc, &tasks, &items, &[1, 2, 4, 4, 4])
}

fn some_branches_stay(alloc: Global) -> bool {
    let Ok(system) = some_branches(alloc) else {
        return false;
    };
    let Ok(made) = join_tasks(alloc, &system) else {
        return false;
    };
    let items = made.items();
    made.tasks().len() == 4
        && items.len() == 5
        && is_item(items, 0, 7, None, &[1, 2])
        && is_item(items, 1, 1, Some(1), &[4])
        && is_item(items, 4, 4, Some(4), &[])
}

#[test]
fn two_tasks_that_supply_both_of_two_others_get_a_join(rt: HostRuntime) {
    assert!(rt; crossing_is_joined(rt.alloc()));
}

#[test]
fn an_input_goes_with_the_join_after_its_readers(rt: HostRuntime) {
    assert!(rt; branches_are_joined(rt.alloc()));
}

#[test]
fn a_system_without_need_of_joins_stays_as_it_is(rt: HostRuntime) {
    assert!(rt; some_branches_stay(rt.alloc()));
}
