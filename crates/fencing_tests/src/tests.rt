//! Fences along orders. The fences, the amounts and what they certify are worked by hand, and `judge_fences` judges them besides.

mod certificates;
mod standing;

use fences::{Fence, judge_fences};
use fencing::{FencingRefusal, fence_along};
use mp_system::{GivenItem, GivenTask, OrderFault, OrderKind, System, system_of_arrays};
use std::alloc::Global;
use std::rt::HostRuntime;
use std::test::Fail;

fn task(extra: u64, share: u64) -> GivenTask {
    GivenTask {
        extra,
        share,
        time: 1,
    }
}

fn item(size: u64, from: u32, to: u32) -> GivenItem {
    GivenItem { size, from, to }
}

// An order, a bound, the fences, the amounts of the items and of the fences, and the bound that these certify.
type Fenced = (
    &'static [u32],
    u64,
    &'static [(u32, u32)],
    &'static [u64],
    u64,
);

fn are(fences: &[Fence], pairs: &[(u32, u32)]) -> bool {
    if fences.len() != pairs.len() {
        return false;
    }
    for i in 0..pairs.len() {
        let (from, to) = pairs[i];
        if fences[i] != (Fence { from, to }) {
            return false;
        }
    }
    true
}

// Whether such fences and amounts are made, and certify that.
fn makes(alloc: Global, system: &System, row: &Fenced) -> Result<bool, Fail> {
    let (order, bound, fences, amounts, certified) = *row;
    let made = fence_along(alloc, system, order, 0, bound)?;
    let judged = judge_fences(alloc, system, &made.fences, &made.amounts, 0, bound)?;
    Ok(are(&made.fences, fences) && &made.amounts[..] == amounts && judged == certified)
}

// The root 3 has the children 1 and 2, which need 9 beside the 1 that they produce.
fn pair(alloc: Global) -> Result<System, Fail> {
    let tasks = [task(9, 0), task(9, 0), task(0, 0)];
    let items = [item(1, 1, 3), item(1, 2, 3)];
    Ok(system_of_arrays(alloc, &tasks, &items)?)
}

// Both children at once use 20, and one after the other 11. From 20 on there is no fence.
const OF_PAIR: &[Fenced] = &[
    (&[1, 2, 3], 11, &[(1, 2)], &[1, 1, 9], 11),
    (&[1, 2, 3], 15, &[(1, 2)], &[1, 1, 5], 15),
    (&[2, 1, 3], 11, &[(2, 1)], &[1, 1, 9], 11),
    (&[1, 2, 3], 19, &[(1, 2)], &[1, 1, 1], 19),
    (&[1, 2, 3], 20, &[], &[1, 1], 20),
    (&[1, 2, 3], u64::MAX, &[], &[1, 1], 20),
];

#[test]
fn two_children_and_a_root(rt: HostRuntime) -> Result<(), Fail> {
    let alloc = rt.alloc();
    let pair = pair(alloc)?;
    for row in OF_PAIR {
        assert!(rt; makes(alloc, &pair, row)?);
    }
    Ok(())
}

// Each task hands on what it held to the next, along the item: no fence.
const OF_CHAIN: &[Fenced] = &[
    (&[1, 2, 3, 4], 8, &[], &[4, 8, 4], 8),
    (&[1, 2, 3, 4], 100, &[], &[4, 8, 4], 8),
];

#[test]
fn a_chain(rt: HostRuntime) -> Result<(), Fail> {
    let alloc = rt.alloc();
    let tasks = [task(0, 0), task(0, 0), task(0, 0), task(0, 0)];
    let items = [item(4, 1, 2), item(4, 2, 3), item(4, 3, 4)];
    let chain = system_of_arrays(alloc, &tasks, &items)?;
    for row in OF_CHAIN {
        assert!(rt; makes(alloc, &chain, row)?);
    }
    Ok(())
}

// 5 has the children 2 and 4, which have the children 1 and 3; 1 and 3 need 9 beside what they produce. Both at once use 20, which is the most.
const OF_TREE: &[Fenced] = &[
    (
        &[1, 3, 2, 4, 5],
        11,
        &[(1, 3), (3, 2), (2, 4)],
        &[1, 5, 5, 5, 0, 9, 5, 1],
        11,
    ),
    (
        &[1, 2, 3, 4, 5],
        15,
        &[(2, 3), (1, 3)],
        &[6, 5, 6, 5, 0, 1, 4],
        15,
    ),
    (
        &[1, 2, 3, 4, 5],
        16,
        &[(2, 3), (1, 3)],
        &[6, 5, 6, 5, 0, 1, 3],
        16,
    ),
    (&[1, 2, 3, 4, 5], 19, &[(2, 3)], &[6, 5, 6, 5, 0, 1], 19),
    (&[1, 2, 3, 4, 5], 20, &[], &[6, 5, 6, 5, 0], 20),
    (&[1, 3, 2, 4, 5], 20, &[], &[6, 5, 6, 5, 0], 20),
];

#[test]
fn a_tree(rt: HostRuntime) -> Result<(), Fail> {
    let alloc = rt.alloc();
    let tasks = [task(9, 0), task(0, 0), task(9, 0), task(0, 0), task(0, 0)];
    let items = [
        item(1, 1, 2),
        item(5, 2, 5),
        item(1, 3, 4),
        item(5, 4, 5),
        item(0, 5, 0),
    ];
    let tree = system_of_arrays(alloc, &tasks, &items)?;
    for row in OF_TREE {
        assert!(rt; makes(alloc, &tree, row)?);
    }
    Ok(())
}

// 1 supplies 2, 3 and 4, each of which needs 11 while it runs. There is room for one of them at 14, for two at 25, and for all at 36.
const OF_FORK: &[Fenced] = &[
    (
        &[1, 2, 3, 4, 5],
        14,
        &[(2, 3), (3, 4)],
        &[1, 1, 1, 1, 1, 1, 11, 11],
        14,
    ),
    (&[1, 2, 3, 4, 5], 25, &[(3, 4)], &[1, 1, 1, 1, 1, 1, 11], 25),
    (&[1, 4, 2, 3, 5], 25, &[(2, 3)], &[1, 1, 1, 1, 1, 1, 11], 25),
    (&[1, 2, 3, 4, 5], 35, &[(3, 4)], &[1, 1, 1, 1, 1, 1, 1], 35),
    (&[1, 2, 3, 4, 5], 36, &[], &[1, 1, 1, 1, 1, 1], 36),
];

#[test]
fn a_fork(rt: HostRuntime) -> Result<(), Fail> {
    let alloc = rt.alloc();
    let tasks = [
        task(0, 0),
        task(10, 0),
        task(10, 0),
        task(10, 0),
        task(0, 0),
    ];
    let items = [
        item(1, 1, 2),
        item(1, 1, 3),
        item(1, 1, 4),
        item(1, 2, 5),
        item(1, 3, 5),
        item(1, 4, 5),
    ];
    let fork = system_of_arrays(alloc, &tasks, &items)?;
    for row in OF_FORK {
        assert!(rt; makes(alloc, &fork, row)?);
    }
    Ok(())
}

// 3 waits for 1 by way of 2 alone, and 2 gives nothing back: a fence, though 3 comes after 1 anyway.
const OF_LINE: &[Fenced] = &[(&[1, 2, 3], 10, &[(1, 3)], &[0, 0, 10], 10)];

#[test]
fn a_line(rt: HostRuntime) -> Result<(), Fail> {
    let alloc = rt.alloc();
    let tasks = [task(10, 0), task(0, 0), task(10, 0)];
    let items = [item(0, 1, 2), item(0, 2, 3)];
    let line = system_of_arrays(alloc, &tasks, &items)?;
    for row in OF_LINE {
        assert!(rt; makes(alloc, &line, row)?);
    }
    Ok(())
}

// Blocks of 7 and 2 that are there from the start, which two tasks take up that need 1 and 4 beside, and one of 3 that stays.
const OF_STOCKED: &[Fenced] = &[
    (&[1, 2], 13, &[(1, 2)], &[7, 2, 3, 4], 13),
    (&[1, 2], 16, &[(1, 2)], &[7, 2, 3, 1], 16),
    (&[2, 1], 16, &[(2, 1)], &[7, 2, 3, 1], 16),
    (&[1, 2], 17, &[], &[7, 2, 3], 17),
];

#[test]
fn what_is_there_from_the_start(rt: HostRuntime) -> Result<(), Fail> {
    let alloc = rt.alloc();
    let tasks = [task(1, 0), task(4, 0)];
    let items = [item(7, 0, 1), item(2, 0, 2), item(3, 0, 0)];
    let stocked = system_of_arrays(alloc, &tasks, &items)?;
    for row in OF_STOCKED {
        assert!(rt; makes(alloc, &stocked, row)?);
    }
    Ok(())
}

// Each pair of tasks writes 8 over 8 that it takes over: the first of a pair needs 8, the second nothing.
const OF_SHARES: &[Fenced] = &[
    (&[1, 2, 3, 4], 16, &[], &[8, 8, 8, 8], 16),
    (&[1, 3, 2, 4], 16, &[], &[8, 8, 8, 8], 16),
];

#[test]
fn shares(rt: HostRuntime) -> Result<(), Fail> {
    let alloc = rt.alloc();
    let tasks = [task(0, 0), task(0, 8), task(0, 0), task(0, 8)];
    let items = [item(8, 1, 2), item(8, 2, 0), item(8, 3, 4), item(8, 4, 0)];
    let shares = system_of_arrays(alloc, &tasks, &items)?;
    for row in OF_SHARES {
        assert!(rt; makes(alloc, &shares, row)?);
    }
    Ok(())
}

// An order, the room of a worker, a bound, the fences, and the amounts of the items and of the fences.
type Roomy = (
    &'static [u32],
    u64,
    u64,
    &'static [(u32, u32)],
    &'static [u64],
);

// Each child takes 10 less the room, and at least the 1 that it leaves: with a room of 9 and more one after the other needs no more than both.
const OF_ROOMS: &[Roomy] = &[
    (&[1, 2, 3], 4, 7, &[(1, 2)], &[1, 1, 5]),
    (&[1, 2, 3], 4, 12, &[], &[1, 1]),
    (&[1, 2, 3], 9, 2, &[], &[1, 1]),
    (&[1, 2, 3], 100, 2, &[], &[1, 1]),
];

#[test]
fn room_for_each_worker(rt: HostRuntime) -> Result<(), Fail> {
    let alloc = rt.alloc();
    let pair = pair(alloc)?;
    for row in OF_ROOMS {
        let (order, room, bound, fences, amounts) = *row;
        let made = fence_along(alloc, &pair, order, room, bound)?;
        assert!(rt; are(&made.fences, fences));
        assert!(rt; &made.amounts[..] == amounts);
    }
    Ok(())
}

#[test]
fn room_that_leaves_too_little(rt: HostRuntime) -> Result<(), Fail> {
    let alloc = rt.alloc();
    let pair = pair(alloc)?;
    let rows: [(u64, u64, u64); 4] = [(0, 10, 11), (4, 6, 7), (9, 1, 2), (100, 1, 2)];
    for (room, bound, peak) in rows {
        let made = fence_along(alloc, &pair, &[1, 2, 3], room, bound);
        assert!(rt; made.err() == Some(FencingRefusal::Bound { peak }));
    }
    Ok(())
}

#[test]
fn orders_and_bounds_that_are_refused(rt: HostRuntime) -> Result<(), Fail> {
    let alloc = rt.alloc();
    let pair = pair(alloc)?;
    let fault = |place: u64, kind: OrderKind| FencingRefusal::Order(OrderFault { place, kind });
    let rows: [(&[u32], u64, FencingRefusal); 9] = [
        (&[1, 2, 3], 10, FencingRefusal::Bound { peak: 11 }),
        (&[2, 1, 3], 0, FencingRefusal::Bound { peak: 11 }),
        (&[3, 1, 2], 20, fault(1, OrderKind::TooEarly)),
        (&[1, 1, 3], 20, fault(2, OrderKind::Repeated)),
        (&[1, 4, 2], 0, fault(2, OrderKind::Unknown)),
        (&[0, 1, 2], 20, fault(1, OrderKind::Unknown)),
        (&[1, 2], 0, fault(3, OrderKind::Missing)),
        (&[], 20, fault(1, OrderKind::Missing)),
        (&[1, 2, 3, 3], 20, fault(4, OrderKind::Repeated)),
    ];
    for (order, bound, refusal) in rows {
        let made = fence_along(alloc, &pair, order, 0, bound);
        assert!(rt; made.err() == Some(refusal));
    }
    Ok(())
}
