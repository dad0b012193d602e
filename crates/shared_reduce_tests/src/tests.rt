//! Shared systems as terms, and those that have none.

use mp_system::{GivenTask, replay};
use shared_reduce::{NoMemory, SharedReduceRefusal, reduce_shared};
use shared_systems::{GivenSharedItem, SharedRefusal, SharedSystem, shared_system_of_arrays};
use sp_terms::system_of;
use std::alloc::Global;
use std::process::Abort;
use std::rt::HostRuntime;

// A task that takes this share of its inputs over.
fn task(extra: u64, share: u64) -> GivenTask {
    GivenTask {
        extra,
        share,
        time: 1,
    }
}

// An item that so many tasks read.
fn item(size: u64, from: u32, readers: u32) -> GivenSharedItem {
    GivenSharedItem {
        size,
        from,
        readers,
    }
}

// Tasks 2 and 3 read what task 1 makes, and so does task 4, which reads what they make too.
fn fork(alloc: Global) -> Result<SharedSystem, SharedRefusal> {
    let tasks = [task(0, 0), task(1, 0), task(2, 0), task(2, 1)];
    let items = [item(5, 1, 3), item(1, 2, 1), item(3, 3, 1), item(2, 4, 0)];
    shared_system_of_arrays(alloc, &tasks, &items, &[2, 3, 4, 4, 4])
}

// Tasks 2 and 3 read what task 1 makes, the first item task 2 alone, and the second both, side by side.
fn twins(alloc: Global) -> Result<SharedSystem, SharedRefusal> {
    let tasks = [task(0, 0), task(1, 0), task(2, 0)];
    let items = [item(4, 1, 1), item(6, 1, 2)];
    shared_system_of_arrays(alloc, &tasks, &items, &[2, 2, 3])
}

// Tasks 3 and 4 read what task 1 makes, and task 4 what task 2 makes: no term has these uses.
fn crossing(alloc: Global) -> Result<SharedSystem, SharedRefusal> {
    let tasks = [task(0, 0), task(0, 0), task(0, 0), task(0, 0)];
    let items = [item(1, 1, 2), item(1, 2, 1)];
    shared_system_of_arrays(alloc, &tasks, &items, &[3, 4, 4])
}

// Tasks 2 and 3 stand side by side between tasks 1 and 4, and nobody reads what task 2 makes last.
fn left_over(alloc: Global) -> Result<SharedSystem, SharedRefusal> {
    let tasks = [task(0, 0), task(0, 0), task(0, 0), task(0, 0)];
    let items = [
        item(1, 1, 1),
        item(1, 1, 1),
        item(1, 2, 1),
        item(1, 3, 1),
        item(1, 2, 0),
    ];
    shared_system_of_arrays(alloc, &tasks, &items, &[2, 3, 4, 4])
}

// The numbers in the term of the tasks in this order of the system.
fn in_term(alloc: Global, names: &[u32], order: &[u32]) -> Result<Vec<u32>, NoMemory> {
    let mut own = Vec::new(alloc);
    for task in order {
        let mut number: u32 = 0;
        for name in names {
            number = number.saturating_add(1);
            if name == task {
                own.push(number)?;
            }
        }
    }
    Ok(own)
}

// Whether the order has this peak in the fork, and in its term.
fn fork_agrees(alloc: Global, order: &[u32], peak: u64) -> bool {
    let Ok(system) = fork(alloc) else {
        return false;
    };
    let Ok(reduced) = reduce_shared(alloc, &system) else {
        return false;
    };
    let Ok(own) = system_of(alloc, &reduced.terms) else {
        return false;
    };
    let Ok(own_order) = in_term(alloc, &reduced.names, order) else {
        return false;
    };
    system.peak(alloc, order) == Ok(peak) && replay(alloc, &own, &own_order) == Ok(peak)
}

// The first item without a last reader.
fn item_of(alloc: Global, system: Result<SharedSystem, SharedRefusal>) -> Option<u32> {
    let Ok(system) = system else {
        return None;
    };
    match reduce_shared(alloc, &system) {
        Err(SharedReduceRefusal::Item(item)) => Some(item),
        _ => None,
    }
}

// Whether the graph of uses has this rest.
fn uses_left(alloc: Global, rest: &[(u32, u32)]) -> bool {
    let Ok(system) = crossing(alloc) else {
        return false;
    };
    match reduce_shared(alloc, &system) {
        Err(SharedReduceRefusal::Uses(arcs)) => arcs.as_slice() == rest,
        _ => false,
    }
}

// Whether the graph in which the last readers carry the items has this rest.
fn carried_left(alloc: Global, rest: &[(u32, u32)]) -> bool {
    let Ok(system) = left_over(alloc) else {
        return false;
    };
    match reduce_shared(alloc, &system) {
        Err(SharedReduceRefusal::Rest(arcs)) => arcs.as_slice() == rest,
        _ => false,
    }
}

#[test]
fn the_term_has_the_peak_of_the_system(rt: HostRuntime) {
    assert!(rt; fork_agrees(rt.alloc(), &[1, 2, 3, 4], 12));
}

#[test]
fn an_item_with_readers_side_by_side_is_refused(rt: HostRuntime) {
    let alloc = rt.alloc();
    assert_eq!(rt; item_of(alloc, twins(alloc)), Some(2));
}

#[test]
fn uses_without_a_term_are_refused(rt: HostRuntime) {
    assert!(rt; uses_left(rt.alloc(), &[(0, 1), (0, 4), (1, 0), (1, 4), (4, 0)]));
}

#[test]
fn what_nobody_reads_may_leave_no_term(rt: HostRuntime) {
    assert!(rt;
        carried_left(
            rt.alloc(),
            &[(0, 1), (1, 2), (1, 4), (2, 0), (2, 4), (4, 0)]
        )
    );
}
