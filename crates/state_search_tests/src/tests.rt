//! Small systems explored at their least peak and one above it; the least peaks, and how many states are looked at, are worked by hand.

use mp_system::GivenTask;
use shared_systems::{GivenSharedItem, SharedSystem, shared_system_of_arrays};
use state_search::laws::states_law;
use state_search::{
    Explored, MOST_MARKS, MOST_VISITS, StatesObjection, explore, judge_states, most_states,
};
use std::alloc::Global;

fn task(extra: u64, share: u64) -> GivenTask {
    GivenTask {
        extra,
        share,
        time: 1,
    }
}

// An item that so many tasks read.
fn item(size: u64, from: u32, readers: u32) -> GivenSharedItem {
    GivenSharedItem {
        size,
        from,
        readers,
    }
}

// The system of these arrays; none if they give none.
fn system_of(
    alloc: Global,
    tasks: &[GivenTask],
    items: &[GivenSharedItem],
    readers: &[u32],
) -> Option<SharedSystem> {
    match shared_system_of_arrays(alloc, tasks, items, readers) {
        Ok(system) => Some(system),
        Err(_) => None,
    }
}

// Two leaves that need 9 + 1, each below a task that makes 5 of 1, and a root. The leaf that runs last has at least the 1 of the other beside
// it, and both leaves first need no more: the least peak is 11.
fn tree(alloc: Global) -> Option<SharedSystem> {
    let tasks = [task(9, 0), task(0, 0), task(9, 0), task(0, 0), task(0, 0)];
    let items = [item(1, 1, 1), item(5, 2, 1), item(1, 3, 1), item(5, 4, 1)];
    system_of(alloc, &tasks, &items, &[2, 5, 4, 5])
}

// Tasks 2 and 3 both read what task 1 makes, and task 4 reads what they make, and takes 1 of it over. Task 3 has the 5 of task 1 beside it
// and needs 5 in either order, so that no peak is below 10. With task 2 first it has 1 more, with task 2 second that one has 5 + 3 and
// needs 2; then 4 are left, and task 4 needs 3.
fn diamond(alloc: Global) -> Option<SharedSystem> {
    let tasks = [task(0, 0), task(1, 0), task(2, 0), task(2, 1)];
    let items = [item(5, 1, 2), item(1, 2, 1), item(3, 3, 1), item(2, 4, 0)];
    system_of(alloc, &tasks, &items, &[2, 3, 4, 4])
}

// Tasks 1 to 3 make 10 each, and tasks 4 to 6 take that up: one after the other 10 is enough.
fn pairs(alloc: Global) -> Option<SharedSystem> {
    let none = task(0, 0);
    let items = [item(10, 1, 1), item(10, 2, 1), item(10, 3, 1)];
    system_of(alloc, &[none; 6], &items, &[4, 5, 6])
}

// The pairs, and a task that needs 100.
fn pairs_and_giant(alloc: Global) -> Option<SharedSystem> {
    let none = task(0, 0);
    let tasks = [none, none, none, none, none, none, task(100, 0)];
    let items = [item(10, 1, 1), item(10, 2, 1), item(10, 3, 1)];
    system_of(alloc, &tasks, &items, &[4, 5, 6])
}

// No task, and an item of 7 that stays: the peak of the one order is 7.
fn idle(alloc: Global) -> Option<SharedSystem> {
    system_of(alloc, &[], &[item(7, 0, 0)], &[])
}

// What a search came to, with the peak of the order that was found.
#[derive(Clone, Copy, Debug, PartialEq, Eq)]
enum Found {
    Peak(u64),
    Closed(u32),
    Many,
}

fn searched(alloc: Global, system: Option<SharedSystem>, bound: u64, most: u32) -> Option<Found> {
    let system = system?;
    match explore(alloc, &system, bound, most) {
        Ok(Explored::Order(order)) => match system.peak(alloc, &order) {
            Ok(peak) => Some(Found::Peak(peak)),
            Err(_) => None,
        },
        Ok(Explored::Closed(seen)) => Some(Found::Closed(seen)),
        Ok(Explored::Many) => Some(Found::Many),
        Err(_) => None,
    }
}

#[test]
fn one_above_the_least_peak_an_order_is_found(rt: HostRuntime) {
    let alloc = rt.alloc();
    assert_eq!(rt;
        searched(alloc, tree(alloc), 12, 1000),
        Some(Found::Peak(11))
    );
    assert_eq!(rt;
        searched(alloc, diamond(alloc), 11, 1000),
        Some(Found::Peak(10))
    );
    assert_eq!(rt;
        searched(alloc, pairs(alloc), 11, 1000),
        Some(Found::Peak(10))
    );
    assert_eq!(rt; searched(alloc, idle(alloc), 8, 1000), Some(Found::Peak(7)));
}

// In the tree and in the diamond only the root can be last, and before it both of its suppliers need too much. In the pairs none of the
// last three tasks fits, each of which has 10 when it starts. The idle item is too much at the end already.
#[test]
fn at_the_least_peak_all_is_explored(rt: HostRuntime) {
    let alloc = rt.alloc();
    assert_eq!(rt;
        searched(alloc, tree(alloc), 11, 1000),
        Some(Found::Closed(2))
    );
    assert_eq!(rt;
        searched(alloc, diamond(alloc), 10, 1000),
        Some(Found::Closed(2))
    );
    assert_eq!(rt;
        searched(alloc, pairs(alloc), 10, 1000),
        Some(Found::Closed(1))
    );
    assert_eq!(rt;
        searched(alloc, idle(alloc), 7, 1000),
        Some(Found::Closed(0))
    );
}

// The giant never fits, so it stays done. Of the pairs any may be taken back, one whole pair after the other: 8 states with whole pairs; and
// from each of those, half of each pair that is left: 12 more. The first task of a pair may wait as soon as the second is taken back, so no
// two pairs are open.
#[test]
fn tasks_that_may_wait_keep_the_states_few(rt: HostRuntime) {
    let alloc = rt.alloc();
    assert_eq!(rt;
        searched(alloc, pairs_and_giant(alloc), 11, 20),
        Some(Found::Closed(20))
    );
    assert_eq!(rt;
        searched(alloc, pairs_and_giant(alloc), 100, 20),
        Some(Found::Closed(20))
    );
    assert_eq!(rt;
        searched(alloc, pairs_and_giant(alloc), 100, 19),
        Some(Found::Many)
    );
}

// Before the end each of the three tasks that take 10 up can be the last, which gives three states beside the end. The diamond has one state
// for each of its 4 tasks and the end on the way to the start; of those the start is the last.
#[test]
fn more_states_than_may_be_kept_are_looked_at(rt: HostRuntime) {
    let alloc = rt.alloc();
    assert_eq!(rt; searched(alloc, pairs(alloc), 31, 2), Some(Found::Many));
    assert_eq!(rt; searched(alloc, pairs(alloc), 31, 0), Some(Found::Many));
    assert_eq!(rt;
        searched(alloc, diamond(alloc), 11, 5),
        Some(Found::Peak(10))
    );
    assert_eq!(rt; searched(alloc, diamond(alloc), 11, 4), Some(Found::Many));
}

// What the judge says: `Some(None)` where all is shown.
fn judged(
    alloc: Global,
    system: Option<SharedSystem>,
    bound: u64,
    most: u32,
) -> Option<Option<StatesObjection>> {
    let system = system?;
    match judge_states(alloc, &system, bound, most) {
        Ok(objection) => Some(objection),
        Err(_) => None,
    }
}

#[test]
fn as_many_states_as_are_looked_at_show_the_bound(rt: HostRuntime) {
    let alloc = rt.alloc();
    states_law();
    assert_eq!(rt; judged(alloc, tree(alloc), 11, 2), Some(None));
    assert_eq!(rt;
        judged(alloc, tree(alloc), 11, 1),
        Some(Some(StatesObjection::Many))
    );
    assert_eq!(rt;
        judged(alloc, tree(alloc), 12, 1000),
        Some(Some(StatesObjection::Order))
    );
    assert_eq!(rt; judged(alloc, pairs_and_giant(alloc), 100, 20), Some(None));
    assert_eq!(rt; judged(alloc, idle(alloc), 7, 4_294_967_295), Some(None));
}

// 2^27 marks are 22,369,621 states of 6 tasks, and 2 marks more.
#[test]
fn the_room_is_looked_at_first(rt: HostRuntime) {
    let alloc = rt.alloc();
    assert_eq!(rt; MOST_MARKS, 134_217_728);
    assert_eq!(rt; judged(alloc, pairs(alloc), 10, 22_369_621), Some(None));
    assert_eq!(rt;
        judged(alloc, pairs(alloc), 10, 22_369_622),
        Some(Some(StatesObjection::Room))
    );
    assert_eq!(rt;
        judged(alloc, pairs(alloc), 11, 22_369_622),
        Some(Some(StatesObjection::Room))
    );
}

// One task, and a hundred items that stay.
fn crowd(alloc: Global) -> Option<SharedSystem> {
    system_of(alloc, &[task(0, 0)], &[item(1, 0, 0); 100], &[])
}

// 2^32 looks at items are 42,949,672 states of a hundred, and 96 looks more.
#[test]
fn the_room_for_looks_at_items_is_looked_at_too(rt: HostRuntime) {
    let alloc = rt.alloc();
    assert_eq!(rt; MOST_VISITS, 4_294_967_296);
    assert_eq!(rt; judged(alloc, crowd(alloc), 10, 42_949_672), Some(None));
    assert_eq!(rt;
        judged(alloc, crowd(alloc), 10, 42_949_673),
        Some(Some(StatesObjection::Room))
    );
}

// The most states of a system that have room.
fn most_of(system: Option<SharedSystem>, most: u32) -> Option<u32> {
    Some(most_states(&system?, most))
}

// Of a system without tasks any number of states has no mark at all.
#[test]
fn no_more_states_than_have_room(rt: HostRuntime) {
    let alloc = rt.alloc();
    assert_eq!(rt; most_of(crowd(alloc), 4_294_967_295), Some(42_949_672));
    assert_eq!(rt; most_of(pairs(alloc), 4_294_967_295), Some(22_369_621));
    assert_eq!(rt; most_of(pairs(alloc), 7), Some(7));
    assert_eq!(rt; most_of(idle(alloc), 4_294_967_295), Some(4_294_967_295));
}
