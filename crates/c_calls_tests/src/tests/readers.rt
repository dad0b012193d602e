//! Items with several readers, worked by hand: one input of 10 that three tasks read counts once, and goes with the last of them.

use super::{FORK_READERS, fork_items, fork_tasks, no_fault};
use c_calls::replay_shared;
use c_calls::slot::{Slot, activate, begin_shared, booked, end, finish, make, start, used};
use std::alloc::Global;
use std::process::Abort;

// The status and the peak of an order, and the kind and the place of its fault.
fn replayed(alloc: Global, readers: &[u32], order: &[u32]) -> (u32, u64, u32, u64) {
    let (tasks, items) = (fork_tasks(), fork_items());
    let mut peak = 0;
    let mut fault = no_fault();
    let status = replay_shared(alloc, &tasks, &items, readers, order, &mut peak, &mut fault);
    (status, peak, fault.kind, fault.at)
}

#[test]
fn the_peak_of_a_fork(rt: HostRuntime) {
    let alloc = rt.alloc();
    assert_eq!(rt;
        replayed(alloc, &FORK_READERS, &[1, 2, 3, 4]),
        (0, 22, 0, 0)
    );
    assert_eq!(rt;
        replayed(alloc, &FORK_READERS, &[3, 2, 1, 4]),
        (0, 28, 0, 0)
    );
    assert_eq!(rt;
        replayed(alloc, &FORK_READERS, &[1, 2, 4, 3]),
        (1, 0, 22, 3)
    );
}

#[test]
fn readers_that_are_refused(rt: HostRuntime) {
    let alloc = rt.alloc();
    let order = [1, 2, 3, 4];
    assert_eq!(rt; replayed(alloc, &[1, 2, 3, 4, 4], &order), (2, 0, 54, 0));
    assert_eq!(rt; replayed(alloc, &[1, 2, 5, 4, 4, 4], &order), (3, 0, 55, 1));
    assert_eq!(rt; replayed(alloc, &[1, 2, 3, 1, 4, 4], &order), (3, 0, 56, 2));
    assert_eq!(rt; replayed(alloc, &[1, 3, 2, 4, 4, 4], &order), (3, 0, 57, 1));
}

// Begins the fork on two workers: the status, and the kind and the value of the fault.
fn begin_fork(slot: &mut Slot, bound: u64) -> (u32, u32, u64) {
    let (tasks, items) = (fork_tasks(), fork_items());
    let mut fault = no_fault();
    let status = begin_shared(
        slot,
        &tasks,
        &items,
        &FORK_READERS,
        &[1, 2, 3, 4],
        bound,
        2,
        &mut fault,
    );
    (status, fault.kind, fault.value)
}

#[test]
fn a_core_of_a_fork_needs_its_peak(rt: HostRuntime) {
    let mut slot = make(rt.alloc());
    assert_eq!(rt; begin_fork(&mut slot, 21), (5, 30, 22));
    assert_eq!(rt; begin_fork(&mut slot, 22).0, 0);
    assert_eq!(rt; (used(&mut slot), booked(&mut slot)), (10, 10));
    end(slot);
}

// Activates the next task, and none beside it; starts it, and ends it: the task, and the used memory while it runs and after it.
fn run_next(slot: &mut Slot) -> (u32, u64, u64) {
    let task = activate(slot);
    if activate(slot) != 0 || start(slot, task) != 1 {
        return (0, 0, 0);
    }
    let running = used(slot);
    finish(slot, task);
    (task, running, used(slot))
}

// The input is there until the last of its readers is done.
fn check_fork(rt: &impl Abort, slot: &mut Slot) {
    assert_eq!(rt; run_next(slot), (1, 19, 13));
    assert_eq!(rt; run_next(slot), (2, 18, 17));
    assert_eq!(rt; run_next(slot), (3, 22, 12));
    assert_eq!(rt; run_next(slot), (4, 14, 2));
}

#[test]
fn a_core_runs_a_fork(rt: HostRuntime) {
    let mut slot = make(rt.alloc());
    assert_eq!(rt; begin_fork(&mut slot, 22).0, 0);
    check_fork(&rt, &mut slot);
    end(slot);
}
