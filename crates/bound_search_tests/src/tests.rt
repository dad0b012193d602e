//! Bounds of small systems, with the least peaks worked by hand.

use bound_search::{CertifiedBound, NoMemory, certify_bound, certify_bound_below};
use mp_system::GivenTask;
use peak_bounds::{Event, Evidence};
use shared_systems::{GivenSharedItem, SharedSystem, shared_system_of_arrays};
use std::alloc::Global;

fn task(extra: u64, share: u64) -> GivenTask {
    GivenTask {
        extra,
        share,
        time: 1,
    }
}

// An item that so many tasks read.
fn item(size: u64, from: u32, readers: u32) -> GivenSharedItem {
    GivenSharedItem {
        size,
        from,
        readers,
    }
}

// The system of these arrays; none if they give none.
fn system_of(
    alloc: Global,
    tasks: &[GivenTask],
    items: &[GivenSharedItem],
    readers: &[u32],
) -> Option<SharedSystem> {
    match shared_system_of_arrays(alloc, tasks, items, readers) {
        Ok(system) => Some(system),
        Err(_) => None,
    }
}

// Two leaves that need 9 + 1, each below a task that makes 5 of 1, and a root: whichever leaf runs last has at least 1 beside it.
fn tree(alloc: Global) -> Option<SharedSystem> {
    let tasks = [task(9, 0), task(0, 0), task(9, 0), task(0, 0), task(0, 0)];
    let items = [item(1, 1, 1), item(5, 2, 1), item(1, 3, 1), item(5, 4, 1)];
    system_of(alloc, &tasks, &items, &[2, 5, 4, 5])
}

// Tasks 2 and 3 both read what task 1 makes, and task 4 reads what they make, and takes 1 of it over. Task 3, run before task 2, has 5 of
// task 1 and needs 5: the least peak is 10.
fn diamond(alloc: Global) -> Option<SharedSystem> {
    let tasks = [task(0, 0), task(1, 0), task(2, 0), task(2, 1)];
    let items = [item(5, 1, 2), item(1, 2, 1), item(3, 3, 1), item(2, 4, 0)];
    system_of(alloc, &tasks, &items, &[2, 3, 4, 4])
}

// The same the other way round: task 1 makes 5 for each of two tasks, which make 1 of it for one that needs 9 more. Whichever of these
// runs first has at least 1 of the other branch beside it, and has 1 itself: 11, which the order 1 2 4 3 5 needs.
fn branches(alloc: Global) -> Option<SharedSystem> {
    let tasks = [task(0, 0), task(0, 0), task(9, 0), task(0, 0), task(9, 0)];
    let items = [item(5, 1, 1), item(1, 2, 1), item(5, 1, 1), item(1, 4, 1)];
    system_of(alloc, &tasks, &items, &[2, 3, 4, 5])
}

// Each task makes something of what the one before made. Task 2 reads 4 and makes 6.
fn chain(alloc: Global) -> Option<SharedSystem> {
    let tasks = [task(0, 0), task(0, 0), task(0, 0)];
    let items = [item(4, 1, 1), item(6, 2, 1), item(1, 3, 0)];
    system_of(alloc, &tasks, &items, &[2, 3])
}

// Task 4 reads what three others make, 3 + 1 + 1, and makes 2: these are there at once.
fn late(alloc: Global) -> Option<SharedSystem> {
    let tasks = [task(0, 0), task(0, 0), task(0, 0), task(0, 0)];
    let items = [item(3, 1, 1), item(1, 2, 1), item(1, 3, 1), item(2, 4, 0)];
    system_of(alloc, &tasks, &items, &[4, 4, 4])
}

// What shows a bound: the start, the need of a task, or that one of so many tasks runs first, or last.
#[derive(Clone, Copy, Debug, PartialEq, Eq)]
enum Shown {
    Start,
    Need(u32),
    First(usize),
    Last(usize),
}

fn shown_by(evidence: &Evidence) -> Shown {
    match evidence {
        Evidence::Start => Shown::Start,
        Evidence::Need(task) => Shown::Need(*task),
        Evidence::Set(set) => match set.event() {
            Event::First => Shown::First(set.blockers().len()),
            Event::Last => Shown::Last(set.blockers().len()),
        },
    }
}

// A bound, and what shows it.
fn told(certified: Result<CertifiedBound, NoMemory>) -> Option<(u64, Shown)> {
    match certified {
        Ok(certified) => Some((certified.bound, shown_by(&certified.evidence))),
        Err(_) => None,
    }
}

// The bound that is found with an effort, and what shows it.
fn found(alloc: Global, system: Option<SharedSystem>, effort: u64) -> Option<(u64, Shown)> {
    told(certify_bound(alloc, &system?, effort))
}

#[test]
fn the_last_leaf_has_something_beside_it(rt: HostRuntime) {
    let alloc = rt.alloc();
    assert_eq!(rt;
        found(alloc, tree(alloc), 100_000),
        Some((11, Shown::Last(2)))
    );
}

#[test]
fn the_search_begins_at_the_lowest_peak_known(rt: HostRuntime) {
    let alloc = rt.alloc();
    let Some(system) = tree(alloc) else {
        assert_eq!(rt; true, false);
        return;
    };
    assert_eq!(rt;
        told(certify_bound_below(alloc, &system, 11, 100_000)),
        Some((11, Shown::Last(2)))
    );
    // nothing above it is looked for
    assert_eq!(rt;
        told(certify_bound_below(alloc, &system, 10, 100_000)),
        Some((10, Shown::Need(1)))
    );
}

#[test]
fn the_first_of_two_has_something_beside_it(rt: HostRuntime) {
    let alloc = rt.alloc();
    assert_eq!(rt;
        found(alloc, branches(alloc), 100_000),
        Some((11, Shown::First(2)))
    );
}

#[test]
fn a_chain_has_the_peak_of_one_need(rt: HostRuntime) {
    let alloc = rt.alloc();
    assert_eq!(rt;
        found(alloc, chain(alloc), 100_000),
        Some((10, Shown::Need(2)))
    );
}

#[test]
fn what_is_read_at_once_counts_at_once(rt: HostRuntime) {
    let alloc = rt.alloc();
    assert_eq!(rt;
        found(alloc, late(alloc), 100_000),
        Some((7, Shown::Need(4)))
    );
}

#[test]
fn a_need_may_be_all_there_is_to_show(rt: HostRuntime) {
    let alloc = rt.alloc();
    assert_eq!(rt;
        found(alloc, diamond(alloc), 100_000),
        Some((10, Shown::Need(3)))
    );
}

// A task that takes over the 6 that it reads needs nothing beside them: no more than what is there at the start.
#[test]
fn what_a_task_takes_over_counts_once(rt: HostRuntime) {
    let alloc = rt.alloc();
    let system = system_of(alloc, &[task(6, 6)], &[item(6, 0, 1)], &[1]);
    assert_eq!(rt; found(alloc, system, 1_000), Some((6, Shown::Start)));
}

// Of the 12 that are there at the start the task reads 3.
#[test]
fn the_start_may_be_more_than_any_need(rt: HostRuntime) {
    let alloc = rt.alloc();
    let system = system_of(alloc, &[task(0, 0)], &[item(3, 0, 1), item(9, 0, 0)], &[1]);
    assert_eq!(rt; found(alloc, system, 1_000), Some((12, Shown::Start)));
}

#[test]
fn without_tasks_the_start_is_left(rt: HostRuntime) {
    let alloc = rt.alloc();
    let system = system_of(alloc, &[], &[item(7, 0, 0)], &[]);
    assert_eq!(rt; found(alloc, system, 1_000), Some((7, Shown::Start)));
}

#[test]
fn without_effort_the_needs_are_left(rt: HostRuntime) {
    let alloc = rt.alloc();
    assert_eq!(rt; found(alloc, tree(alloc), 0), Some((10, Shown::Need(1))));
}
