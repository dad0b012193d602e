//! Systems with several readers made of arrays, what they are refused with, their peaks and their collected systems.

use mp_system::{GivenTask, OrderFault, OrderKind, ReplayRefusal, TaskTest};
use shared_systems::{
    GivenSharedItem, NoMemory, SharedItemTest, SharedRefusal, SharedSystem, shared_system_of_arrays,
};
use std::alloc::Global;
use std::process::Abort;
use std::rt::HostRuntime;
use std::test::Fail;

fn task(extra: u64, share: u64, time: u64) -> GivenTask {
    GivenTask { extra, share, time }
}

// An item that so many tasks read.
fn item(size: u64, from: u32, readers: u32) -> GivenSharedItem {
    GivenSharedItem {
        size,
        from,
        readers,
    }
}

// Tasks 2 and 3 both read what task 1 makes, and task 4 reads what they make, and takes 1 of it over.
fn diamond(alloc: Global) -> Result<SharedSystem, SharedRefusal> {
    let tasks = [task(0, 0, 1), task(1, 0, 1), task(2, 0, 1), task(2, 1, 1)];
    let items = [item(5, 1, 2), item(1, 2, 1), item(3, 3, 1), item(2, 4, 0)];
    shared_system_of_arrays(alloc, &tasks, &items, &[2, 3, 4, 4])
}

// Three tasks read an input of size 7 that is there from the start; an input of size 4 stays to the end.
fn index(alloc: Global) -> Result<SharedSystem, SharedRefusal> {
    let tasks = [task(1, 0, 1), task(2, 0, 1), task(3, 0, 1)];
    let items = [item(7, 0, 3), item(4, 0, 0)];
    shared_system_of_arrays(alloc, &tasks, &items, &[1, 2, 3])
}

// How an order of the diamond ends.
fn diamond_peak(alloc: Global, order: &[u32]) -> Result<u64, ReplayRefusal> {
    match diamond(alloc) {
        Ok(system) => system.peak(alloc, order),
        Err(_) => Err(ReplayRefusal::NoMemory),
    }
}

// How an order of the inputs' readers ends.
fn index_peak(alloc: Global, order: &[u32]) -> Result<u64, ReplayRefusal> {
    match index(alloc) {
        Ok(system) => system.peak(alloc, order),
        Err(_) => Err(ReplayRefusal::NoMemory),
    }
}

// What three tasks without needs and these items are refused with.
fn refusal_of(alloc: Global, items: &[GivenSharedItem], readers: &[u32]) -> Option<SharedRefusal> {
    let tasks = [task(0, 0, 1), task(0, 0, 1), task(0, 0, 1)];
    match shared_system_of_arrays(alloc, &tasks, items, readers) {
        Ok(_) => None,
        Err(refusal) => Some(refusal),
    }
}

// What a task with this extra, share and time is refused with, after one that makes 4 for it and for a third task.
fn task_refusal(alloc: Global, second: GivenTask) -> Option<SharedRefusal> {
    let tasks = [task(0, 0, 1), second, task(0, 0, 1)];
    match shared_system_of_arrays(alloc, &tasks, &[item(4, 1, 2)], &[2, 3]) {
        Ok(_) => None,
        Err(refusal) => Some(refusal),
    }
}

fn fault(place: u64, kind: OrderKind) -> Result<u64, ReplayRefusal> {
    Err(ReplayRefusal::Order(OrderFault { place, kind }))
}

fn failing(test: SharedItemTest, item: u32) -> Option<SharedRefusal> {
    Some(SharedRefusal::Item { test, item })
}

fn failing_task(test: TaskTest, task: u32) -> Option<SharedRefusal> {
    Some(SharedRefusal::Task { test, task })
}

#[test]
fn a_datum_counts_once_until_its_last_reader_has_run(rt: HostRuntime) {
    assert_eq!(rt; diamond_peak(rt.alloc(), &[1, 3, 2, 4]), Ok(10));
    assert_eq!(rt; diamond_peak(rt.alloc(), &[1, 2, 3, 4]), Ok(11));
    assert_eq!(rt; index_peak(rt.alloc(), &[3, 1, 2]), Ok(14));
}

#[test]
fn an_order_that_is_no_traversal_has_a_first_fault(rt: HostRuntime) {
    assert_eq!(rt;
        diamond_peak(rt.alloc(), &[2, 1, 3, 4]),
        fault(1, OrderKind::TooEarly)
    );
    assert_eq!(rt;
        diamond_peak(rt.alloc(), &[1, 3, 1, 5]),
        fault(3, OrderKind::Repeated)
    );
    assert_eq!(rt;
        diamond_peak(rt.alloc(), &[1, 3, 2, 5]),
        fault(4, OrderKind::Unknown)
    );
    assert_eq!(rt;
        diamond_peak(rt.alloc(), &[1, 3, 2]),
        fault(4, OrderKind::Missing)
    );
    assert_eq!(rt;
        index_peak(rt.alloc(), &[3, 1, 2, 1]),
        fault(4, OrderKind::Repeated)
    );
}

#[test]
fn readers_rise_and_are_tasks_beside_the_producer(rt: HostRuntime) {
    let alloc = rt.alloc();
    let first = item(1, 1, 0);
    assert_eq!(rt; refusal_of(alloc, &[first, item(4, 1, 2)], &[2, 3]), None);
    assert_eq!(rt;
        refusal_of(alloc, &[first, item(4, 4, 0)], &[]),
        failing(SharedItemTest::Producer, 2)
    );
    assert_eq!(rt;
        refusal_of(alloc, &[first, item(4, 1, 1)], &[4]),
        failing(SharedItemTest::Readers, 2)
    );
    assert_eq!(rt;
        refusal_of(alloc, &[first, item(4, 2, 1)], &[2]),
        failing(SharedItemTest::Apart, 2)
    );
    assert_eq!(rt;
        refusal_of(alloc, &[first, item(4, 1, 2)], &[3, 3]),
        failing(SharedItemTest::Rising, 2)
    );
}

#[test]
fn counts_sizes_and_sums_are_within_the_limits(rt: HostRuntime) {
    let alloc = rt.alloc();
    let large = 1_099_511_627_776;
    assert_eq!(rt;
        refusal_of(alloc, &[item(4, 1, 2)], &[2]),
        Some(SharedRefusal::Counts)
    );
    assert_eq!(rt; refusal_of(alloc, &[item(large, 1, 0)], &[]), None);
    assert_eq!(rt;
        refusal_of(alloc, &[item(large + 1, 1, 0)], &[]),
        failing(SharedItemTest::Size, 1)
    );
}

#[test]
fn tasks_wait_for_one_another_in_no_circle(rt: HostRuntime) {
    let items = [item(0, 1, 1), item(0, 2, 1), item(0, 3, 1)];
    assert_eq!(rt;
        refusal_of(rt.alloc(), &items, &[3, 3, 2]),
        Some(SharedRefusal::Cycle(2))
    );
}

#[test]
fn a_share_counts_what_the_task_alone_reads(rt: HostRuntime) {
    let alloc = rt.alloc();
    assert_eq!(rt; task_refusal(alloc, task(9, 0, 1)), None);
    assert_eq!(rt;
        task_refusal(alloc, task(9, 1, 1)),
        Some(SharedRefusal::Share(2))
    );
    assert_eq!(rt;
        task_refusal(alloc, task(9, 0, 0)),
        failing_task(TaskTest::Time, 2)
    );
}

// The number of tasks and of items of the diamond's collected system.
fn collected_counts(alloc: Global) -> Result<Option<(usize, usize)>, NoMemory> {
    let Ok(system) = diamond(alloc) else {
        return Ok(None);
    };
    let made = system.collected(alloc)?;
    match made {
        None => Ok(None),
        Some(whole) => Ok(Some((whole.tasks().len(), whole.items().len()))),
    }
}

#[test]
fn a_collector_and_its_waits_stand_for_a_shared_item(rt: HostRuntime) -> Result<(), Fail> {
    assert_eq!(rt; collected_counts(rt.alloc())?, Some((5, 8)));
    Ok(())
}

// The diamond's order with the collector, and this order without.
fn with_and_without(alloc: Global, order: &[u32], mixed: &[u32]) -> Result<bool, NoMemory> {
    let Ok(system) = diamond(alloc) else {
        return Ok(false);
    };
    if order.len() > system.tasks().len() {
        return Ok(false);
    }
    let woven = system.woven(alloc, order)?;
    let kept = system.dropped(alloc, mixed)?;
    Ok(woven.as_slice() == mixed && kept.as_slice() == order)
}

#[test]
fn a_collector_comes_right_after_the_last_reader(rt: HostRuntime) -> Result<(), Fail> {
    assert!(rt; with_and_without(rt.alloc(), &[1, 2, 3, 4], &[1, 2, 3, 5, 4])?);
    assert!(rt; with_and_without(rt.alloc(), &[1, 3, 2, 4], &[1, 3, 2, 5, 4])?);
    Ok(())
}
