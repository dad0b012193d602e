//! Cores of a tree and of a system, worked by hand.

use super::{diamond_items, diamond_tasks, five, no_fault};
use c_calls::slot::{
    Slot, activate, begin, begin_system, booked, end, finish, is_done, is_startable, make, start,
    used,
};
use std::alloc::Global;
use std::process::Abort;

// C may give a core to another thread.
fn is_sent<T: Send>(_value: &T) {}

#[test]
fn a_core_may_go_to_another_thread(rt: HostRuntime) {
    let slot = make(rt.alloc());
    is_sent::<Slot>(&slot);
    end(slot);
}

// Begins the five nodes on two workers: the status, and the kind and the value of the fault.
fn begin_five(slot: &mut Slot, bound: u64) -> (u32, u32, u64) {
    let mut fault = no_fault();
    let status = begin(slot, &five(), &[1, 3, 2, 4, 5], bound, 2, &mut fault);
    (status, fault.kind, fault.value)
}

#[test]
fn a_core_of_five_nodes_needs_their_peak(rt: HostRuntime) {
    let mut slot = make(rt.alloc());
    assert_eq!(rt; begin_five(&mut slot, 10), (5, 30, 11));
    assert_eq!(rt; begin_five(&mut slot, 11).0, 0);
    end(slot);
}

// A core of the five nodes, whose slot was refused one before.
fn core_of_five(alloc: Global) -> Slot {
    let mut slot = make(alloc);
    begin_five(&mut slot, 10);
    begin_five(&mut slot, 11);
    slot
}

// Node 1 can't start before it is activated, and no other node fits beside it: the answers of the three calls that show it.
fn activate_one(slot: &mut Slot) -> (u32, u32, u32) {
    (start(slot, 1), activate(slot), activate(slot))
}

#[test]
fn a_core_activates_one_of_five_nodes(rt: HostRuntime) {
    let mut slot = core_of_five(rt.alloc());
    assert_eq!(rt; activate_one(&mut slot), (0, 1, 0));
    assert_eq!(rt; (booked(&mut slot), used(&mut slot)), (10, 0));
    end(slot);
}

// Whether a node may start, whether it does, and the used memory then.
fn started(slot: &mut Slot, node: u32) -> (u32, u32, u64) {
    (is_startable(slot, node), start(slot, node), used(slot))
}

// Whether a node is done, whether it ends, and whether it is done then.
fn ended(slot: &mut Slot, node: u32) -> (u32, u32, u32) {
    (is_done(slot, node), finish(slot, node), is_done(slot, node))
}

#[test]
fn a_core_runs_one_of_five_nodes(rt: HostRuntime) {
    let mut slot = core_of_five(rt.alloc());
    activate_one(&mut slot);
    assert_eq!(rt; started(&mut slot, 1), (1, 1, 10));
    assert_eq!(rt; ended(&mut slot, 1), (0, 1, 1));
    end(slot);
}

// Runs a task that may start; whether it was so.
fn run(slot: &mut Slot, task: u32) -> bool {
    start(slot, task) == 1 && finish(slot, task) == 1
}

// Begins the diamond on two workers, within its peak.
fn begin_diamond(slot: &mut Slot) -> u32 {
    let (tasks, items) = (diamond_tasks(), diamond_items());
    begin_system(slot, &tasks, &items, &[1, 3, 2, 4], 14, 2, &mut no_fault())
}

// Only task 1 fits at first, and only 3 once it is done.
fn check_one_and_three(rt: &impl Abort, slot: &mut Slot) {
    assert_eq!(rt; (activate(slot), activate(slot)), (1, 0));
    assert_eq!(rt; (run(slot, 1), used(slot)), (true, 7));
    assert_eq!(rt; (activate(slot), activate(slot)), (3, 0));
    assert_eq!(rt; (booked(slot), start(slot, 2)), (14, 0));
    assert_eq!(rt; (run(slot, 3), used(slot)), (true, 8));
}

// Both others fit then, and 4 waits for 2.
fn check_two_and_four(rt: &impl Abort, slot: &mut Slot) {
    assert_eq!(rt; (activate(slot), activate(slot)), (2, 4));
    assert_eq!(rt; (start(slot, 4), run(slot, 2)), (0, true));
    assert_eq!(rt; (run(slot, 4), used(slot)), (true, 1));
}

#[test]
fn a_core_runs_a_diamond(rt: HostRuntime) {
    let mut slot = make(rt.alloc());
    assert_eq!(rt; begin_diamond(&mut slot), 0);
    check_one_and_three(&rt, &mut slot);
    check_two_and_four(&rt, &mut slot);
    end(slot);
}
