//! Plans of graphs that are no forest, worked by hand.

use super::{FORK_READERS, fork_items, fork_tasks, no_fault, shared_item, task};
use c_calls::plan_shared;
use mp_system::GivenTask;
use shared_systems::GivenSharedItem;
use std::alloc::Global;

// The status, the peak and the bound of a plan of the fork, and the kind and the place of its fault.
fn planned(alloc: Global, start: &[u32], effort: u64) -> (u32, u64, u64, u32, u64) {
    let (tasks, items) = (fork_tasks(), fork_items());
    let mut order = [0; 4];
    let (mut peak, mut bound) = (0, 0);
    let mut fault = no_fault();
    let status = plan_shared(
        alloc,
        &tasks,
        &items,
        &FORK_READERS,
        start,
        effort,
        &mut order,
        &mut peak,
        &mut bound,
        &mut fault,
    );
    (status, peak, bound, fault.kind, fault.at)
}

// Whichever of the three that read the input is the last one has what the others leave beside it: the third task needs least, 22.
#[test]
fn a_fork_whose_bound_is_its_peak(rt: HostRuntime) {
    let alloc = rt.alloc();
    assert_eq!(rt; planned(alloc, &[], 1_000_000), (0, 22, 22, 0, 0));
    assert_eq!(rt; planned(alloc, &[3, 2, 1, 4], 1_000_000), (0, 22, 22, 0, 0));
}

#[test]
fn a_start_that_is_no_traversal(rt: HostRuntime) {
    let alloc = rt.alloc();
    assert_eq!(rt; planned(alloc, &[1, 2, 4, 3], 1_000_000), (1, 0, 0, 22, 3));
    assert_eq!(rt; planned(alloc, &[1, 2, 3], 1_000_000), (1, 0, 0, 23, 4));
}

// Task 1 hands 3 to task 2 and 4 to task 3, and both hand on to task 4: a term tells its orders, so there is nothing to search.
fn diamond() -> ([GivenTask; 4], [GivenSharedItem; 6]) {
    (
        [task(0), task(0), task(2), task(0)],
        [
            shared_item(6, 0, 1),
            shared_item(3, 1, 1),
            shared_item(4, 1, 1),
            shared_item(2, 2, 1),
            shared_item(5, 3, 1),
            shared_item(1, 4, 0),
        ],
    )
}

const DIAMOND_READERS: [u32; 5] = [1, 2, 3, 4, 4];

#[test]
fn a_diamond_without_a_search(rt: HostRuntime) {
    let (tasks, items) = diamond();
    let mut order = [0; 4];
    let (mut peak, mut bound) = (0, 0);
    let status = plan_shared(
        rt.alloc(),
        &tasks,
        &items,
        &DIAMOND_READERS,
        &[1, 3, 2, 4],
        0,
        &mut order,
        &mut peak,
        &mut bound,
        &mut no_fault(),
    );
    assert_eq!(rt; (status, peak, bound), (0, 13, 13));
    assert_eq!(rt; order, [1, 2, 3, 4]);
}

// Task 1 makes 10 that tasks 3 and 4 read, and task 2 makes 3 for task 4 alone: no term tells these orders. Task 4 needs 14 for what it
// reads and makes, and 16 where the 2 that task 3 makes are there.
const UNTOLD_ITEMS: [(u64, u32, u32); 4] = [(10, 1, 2), (3, 2, 1), (2, 3, 0), (1, 4, 0)];

// The status, the peak and the bound.
fn planned_without_term(alloc: Global, effort: u64) -> (u32, u64, u64) {
    let tasks = [task(0); 4];
    let items = UNTOLD_ITEMS.map(|(size, from, readers)| shared_item(size, from, readers));
    let (mut peak, mut bound) = (0, 0);
    let status = plan_shared(
        alloc,
        &tasks,
        &items,
        &[3, 4, 4],
        &[1, 3, 2, 4],
        effort,
        &mut [0; 4],
        &mut peak,
        &mut bound,
        &mut no_fault(),
    );
    (status, peak, bound)
}

#[test]
fn a_search_finds_a_better_order(rt: HostRuntime) {
    let alloc = rt.alloc();
    assert_eq!(rt; planned_without_term(alloc, 1_000_000), (0, 14, 14));
    let (status, peak, bound) = planned_without_term(alloc, 0);
    assert!(rt; status == 0 && peak <= 16 && bound <= 14);
}

#[test]
fn room_for_fewer_tasks(rt: HostRuntime) {
    let (tasks, items) = diamond();
    let (mut peak, mut bound) = (0, 0);
    let mut fault = no_fault();
    let status = plan_shared(
        rt.alloc(),
        &tasks,
        &items,
        &DIAMOND_READERS,
        &[],
        0,
        &mut [0; 3],
        &mut peak,
        &mut bound,
        &mut fault,
    );
    assert_eq!(rt; (status, fault.kind, fault.value), (2, 2, 4));
}
