//! Tasks and items worked by hand, and what they are refused with.

use mp_system::{
    GivenItem, GivenTask, ItemTest, SystemRefusal, TaskTest, replay, system_of_arrays,
};
use std::alloc::Global;
use std::process::Abort;
use std::test::Fail;

const MOST: u64 = 1_099_511_627_776;

fn task(extra: u64, share: u64, time: u64) -> GivenTask {
    GivenTask { extra, share, time }
}

fn item(size: u64, from: u32, to: u32) -> GivenItem {
    GivenItem { size, from, to }
}

// One task hands an item to each of two, and a third takes theirs.
#[test]
fn a_system_and_its_peak(rt: HostRuntime) -> Result<(), Fail> {
    let tasks = [
        task(1, 0, 1),
        task(2, 0, 1),
        task(3, 0, MOST),
        task(0, 2, 1),
    ];
    let items = [
        item(4, 1, 2),
        item(4, 1, 3),
        item(1, 2, 4),
        item(1, 3, 4),
        item(2, 4, 0),
    ];
    match system_of_arrays(rt.alloc(), &tasks, &items) {
        Ok(system) => assert_eq!(rt; replay(rt.alloc(), &system, &[1, 3, 2, 4])?, 12),
        Err(_) => assert!(rt; false),
    }
    Ok(())
}

fn refused<R: Abort>(
    rt: &R,
    alloc: Global,
    tasks: &[GivenTask],
    items: &[GivenItem],
    refusal: SystemRefusal,
) {
    match system_of_arrays(alloc, tasks, items) {
        Ok(_) => assert!(rt; false),
        Err(found) => assert_eq!(rt; found, refusal),
    }
}

#[test]
#[rattlefmt::skip]
fn refused_arrays(rt: HostRuntime) {
    let of_task = |test, task| SystemRefusal::Task { test, task };
    let of_item = |test, item| SystemRefusal::Item { test, item };
    for (first, second, one, refusal) in [
        (task(MOST + 1, 0, 1), task(0, 0, 0), item(1, 3, 0), of_task(TaskTest::Time, 2)),
        (task(0, 0, MOST + 1), task(MOST + 1, 0, 1), item(1, 3, 0), of_task(TaskTest::Size, 2)),
        (task(0, 0, MOST + 1), task(0, 0, 1), item(1, 3, 0), of_task(TaskTest::LongTime, 1)),
        (task(0, 0, 1), task(0, 0, 1), item(1, 3, 0), of_item(ItemTest::Ends, 1)),
        (task(0, 0, 1), task(0, 0, 1), item(MOST + 1, 0, 2), of_item(ItemTest::Size, 1)),
        (task(9, 0, 1), task(9, 5, 1), item(4, 1, 2), SystemRefusal::Share(2)),
        (task(1, 2, 1), task(9, 4, 1), item(4, 1, 2), SystemRefusal::Share(1)),
    ] {
        refused(&rt, rt.alloc(), &[first, second], &[one], refusal);
    }
}
