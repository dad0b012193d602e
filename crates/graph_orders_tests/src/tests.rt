//! Orders of small systems, with the least peaks worked by hand.

use graph_orders::find_order;
use mp_system::GivenTask;
use shared_systems::{GivenSharedItem, SharedSystem, shared_system_of_arrays};
use std::alloc::Global;

const EFFORT: u64 = 1_000_000;

fn task(extra: u64, share: u64) -> GivenTask {
    GivenTask {
        extra,
        share,
        time: 1,
    }
}

// An item that so many tasks read.
fn item(size: u64, from: u32, readers: u32) -> GivenSharedItem {
    GivenSharedItem {
        size,
        from,
        readers,
    }
}

// The system of these arrays; none if they give none.
fn system_of(
    alloc: Global,
    tasks: &[GivenTask],
    items: &[GivenSharedItem],
    readers: &[u32],
) -> Option<SharedSystem> {
    match shared_system_of_arrays(alloc, tasks, items, readers) {
        Ok(system) => Some(system),
        Err(_) => None,
    }
}

// Two leaves that need 9 + 1, each below a task that makes 5 of 1, and a root: whichever leaf runs last has at least 1 beside it. By numbers
// the second leaf has 5 beside it.
fn tree(alloc: Global) -> Option<SharedSystem> {
    let tasks = [task(9, 0), task(0, 0), task(9, 0), task(0, 0), task(0, 0)];
    let items = [item(1, 1, 1), item(5, 2, 1), item(1, 3, 1), item(5, 4, 1)];
    system_of(alloc, &tasks, &items, &[2, 5, 4, 5])
}

// Tasks 2 and 3 both read what task 1 makes, and task 4 reads what they make, and takes 1 of it over. Task 3, run before task 2, has 5 of
// task 1 and needs 5; run after it, it has 1 more beside it.
fn diamond(alloc: Global) -> Option<SharedSystem> {
    let tasks = [task(0, 0), task(1, 0), task(2, 0), task(2, 1)];
    let items = [item(5, 1, 2), item(1, 2, 1), item(3, 3, 1), item(2, 4, 0)];
    system_of(alloc, &tasks, &items, &[2, 3, 4, 4])
}

// Tasks 1 to 3 make 10 each, and tasks 4 to 6 take that up: one after the other 10 is enough.
fn pairs(alloc: Global) -> Option<SharedSystem> {
    let none = task(0, 0);
    let items = [item(10, 1, 1), item(10, 2, 1), item(10, 3, 1)];
    system_of(alloc, &[none; 6], &items, &[4, 5, 6])
}

// Tasks 1 and 2 make 4 each, tasks 3 and 4 read both and make 1 each. All of the first, and 2, are there while the last reader runs.
fn shared(alloc: Global) -> Option<SharedSystem> {
    let none = task(0, 0);
    let items = [item(4, 1, 2), item(4, 2, 2), item(1, 3, 0), item(1, 4, 0)];
    system_of(alloc, &[none; 4], &items, &[3, 4, 3, 4])
}

// The peaks of an order and of the one that is found from it with an effort, as low as it gets; none if it is no traversal.
fn peaks(
    alloc: Global,
    system: Option<SharedSystem>,
    start: &[u32],
    effort: u64,
) -> Option<(u64, u64)> {
    peaks_down_to(alloc, system, start, 0, effort)
}

// The same, if this peak is low enough.
fn peaks_down_to(
    alloc: Global,
    system: Option<SharedSystem>,
    start: &[u32],
    enough: u64,
    effort: u64,
) -> Option<(u64, u64)> {
    let system = system?;
    let Ok(first) = system.peak(alloc, start) else {
        return None;
    };
    let Ok(order) = find_order(alloc, &system, start, enough, effort) else {
        return None;
    };
    match system.peak(alloc, &order) {
        Ok(found) => Some((first, found)),
        Err(_) => None,
    }
}

#[test]
fn both_leaves_run_first(rt: HostRuntime) {
    let alloc = rt.alloc();
    assert_eq!(rt;
        peaks(alloc, tree(alloc), &[1, 2, 3, 4, 5], EFFORT),
        Some((15, 11))
    );
}

#[test]
fn what_makes_more_of_a_shared_item_runs_first(rt: HostRuntime) {
    let alloc = rt.alloc();
    assert_eq!(rt;
        peaks(alloc, diamond(alloc), &[1, 2, 3, 4], EFFORT),
        Some((11, 10))
    );
}

#[test]
fn what_is_made_is_taken_up_at_once(rt: HostRuntime) {
    let alloc = rt.alloc();
    assert_eq!(rt;
        peaks(alloc, pairs(alloc), &[1, 2, 3, 4, 5, 6], EFFORT),
        Some((30, 10))
    );
}

#[test]
fn a_least_order_is_kept(rt: HostRuntime) {
    let alloc = rt.alloc();
    assert_eq!(rt;
        peaks(alloc, shared(alloc), &[1, 2, 3, 4], EFFORT),
        Some((10, 10))
    );
}

#[test]
fn an_order_that_is_good_enough_stays(rt: HostRuntime) {
    let alloc = rt.alloc();
    let start = [1, 2, 3, 4, 5, 6];
    assert_eq!(rt;
        peaks_down_to(alloc, pairs(alloc), &start, 30, EFFORT),
        Some((30, 30))
    );
    assert_eq!(rt;
        peaks_down_to(alloc, pairs(alloc), &start, 10, EFFORT),
        Some((30, 10))
    );
}

#[test]
fn without_effort_the_order_stays(rt: HostRuntime) {
    let alloc = rt.alloc();
    assert_eq!(rt;
        peaks(alloc, tree(alloc), &[1, 2, 3, 4, 5], 0),
        Some((15, 15))
    );
}

#[test]
fn without_tasks_the_start_is_left(rt: HostRuntime) {
    let alloc = rt.alloc();
    let system = system_of(alloc, &[], &[item(7, 0, 0)], &[]);
    assert_eq!(rt; peaks(alloc, system, &[], EFFORT), Some((7, 7)));
}
