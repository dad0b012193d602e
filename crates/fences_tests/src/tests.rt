//! Amounts that are handed on, and what they are refused with; the bounds are worked by hand.

mod certificates;
mod implied;

use fences::{
    AmountTest, AmountsRefusal, Fence, FenceTest, FencesRefusal, judge_amounts, judge_fences,
};
use mp_system::{GivenItem, GivenTask, System, SystemRefusal, system_of_arrays};
use std::alloc::Global;
use std::rt::HostRuntime;
use std::test::Fail;

fn task(extra: u64) -> GivenTask {
    GivenTask {
        extra,
        share: 0,
        time: 1,
    }
}

fn item(size: u64, from: u32, to: u32) -> GivenItem {
    GivenItem { size, from, to }
}

// A tree of five nodes: 5 has the children 2 and 4, which have the children 1 and 3; 1 and 3 need 9 beside what they produce. There are
// fences from some tasks to others.
fn tree(alloc: Global, fences: &[(u32, u32)]) -> Result<System, Fail> {
    let tasks = [task(9), task(0), task(9), task(0), task(0)];
    let mut items = vec![in alloc;
        item(1, 1, 2),
        item(5, 2, 5),
        item(1, 3, 4),
        item(5, 4, 5),
        item(0, 5, 0),
    ]?;
    for (from, to) in fences {
        items.push(item(0, *from, *to))?;
    }
    Ok(system_of_arrays(alloc, &tasks, &items)?)
}

#[test]
fn bounds_that_amounts_certify(rt: HostRuntime) -> Result<(), Fail> {
    let alloc = rt.alloc();
    let whole = tree(alloc, &[])?;
    let fenced = tree(alloc, &[(1, 3)])?;
    let chained = tree(alloc, &[(1, 3), (3, 2), (2, 4), (4, 5)])?;
    let rows: [(&System, &[u64], u64); 5] = [
        (&whole, &[1, 5, 1, 5, 0], 30),
        (&whole, &[10, 10, 10, 10, 0], 20),
        (&whole, &[10, 10, 10, 10, 7], 20),
        (&fenced, &[6, 6, 10, 10, 0, 10], 16),
        (&chained, &[1, 5, 1, 5, 0, 10, 9, 5, 1], 11),
    ];
    for (system, amounts, bound) in rows {
        assert_eq!(rt; judge_amounts(alloc, system, amounts, 0), Ok(bound));
    }
    Ok(())
}

#[test]
fn amounts_that_are_refused(rt: HostRuntime) -> Result<(), Fail> {
    let alloc = rt.alloc();
    let whole = tree(alloc, &[])?;
    let most = 1 << 60;
    let rows: [(&[u64], AmountsRefusal); 7] = [
        (&[1, 5, 1, 5], AmountsRefusal::Length),
        (&[1, 5, 1, 5, 0, 0], AmountsRefusal::Length),
        (
            &[1, 5, 1, 4, 0],
            AmountsRefusal::Item {
                test: AmountTest::Size,
                item: 4,
            },
        ),
        (
            &[1, 4, 1, most + 1, 0],
            AmountsRefusal::Item {
                test: AmountTest::Size,
                item: 2,
            },
        ),
        (
            &[1, 5, most + 1, 4, 0],
            AmountsRefusal::Item {
                test: AmountTest::Limit,
                item: 3,
            },
        ),
        (
            &[u64::MAX, 5, 1, 5, 0],
            AmountsRefusal::Item {
                test: AmountTest::Limit,
                item: 1,
            },
        ),
        (&[most, most, most, most, 1], AmountsRefusal::Total),
    ];
    for (amounts, refusal) in rows {
        assert_eq!(rt; judge_amounts(alloc, &whole, amounts, 0), Err(refusal));
    }
    Ok(())
}

#[test]
fn amounts_at_the_limits(rt: HostRuntime) -> Result<(), Fail> {
    let alloc = rt.alloc();
    let whole = tree(alloc, &[])?;
    let most = 1 << 60;
    // Each leaf draws 2^60, and what each hands on is enough for the next.
    assert_eq!(rt;
        judge_amounts(alloc, &whole, &[most, most, most, most, 0], 0),
        Ok(2 * most)
    );
    Ok(())
}

// Blocks of 7 and 2 that are there from the start, which two tasks take up, and one of 3 that stays.
#[test]
fn what_is_there_from_the_start(rt: HostRuntime) -> Result<(), Fail> {
    let alloc = rt.alloc();
    let tasks = [task(1), task(4)];
    let items = [item(7, 0, 1), item(2, 0, 2), item(3, 0, 0)];
    let stocked = system_of_arrays(alloc, &tasks, &items)?;
    assert_eq!(rt; judge_amounts(alloc, &stocked, &[7, 2, 3], 0), Ok(17));
    assert_eq!(rt; judge_amounts(alloc, &stocked, &[8, 6, 3], 0), Ok(17));
    Ok(())
}

fn fence(from: u32, to: u32) -> Fence {
    Fence { from, to }
}

#[test]
fn fences_that_keep_a_bound(rt: HostRuntime) -> Result<(), Fail> {
    let alloc = rt.alloc();
    let whole = tree(alloc, &[])?;
    let all = [fence(1, 3), fence(3, 2), fence(2, 4), fence(4, 5)];
    let rows: [(&[Fence], &[u64], u64); 4] = [
        (&[], &[10, 10, 10, 10, 0], 20),
        (&all[..1], &[6, 6, 10, 10, 0, 10], 16),
        (&all[..1], &[6, 6, 10, 10, 0, 12], 18),
        (&all, &[1, 5, 1, 5, 0, 10, 9, 5, 1], 11),
    ];
    for (fences, amounts, least) in rows {
        assert_eq!(rt;
            judge_fences(alloc, &whole, fences, amounts, 0, least),
            Ok(least)
        );
        assert_eq!(rt;
            judge_fences(alloc, &whole, fences, amounts, 0, u64::MAX),
            Ok(least)
        );
        let refused = Err(FencesRefusal::Bound(least));
        assert_eq!(rt;
            judge_fences(alloc, &whole, fences, amounts, 0, least - 1),
            refused
        );
    }
    Ok(())
}

#[test]
fn fences_that_are_refused(rt: HostRuntime) -> Result<(), Fail> {
    let alloc = rt.alloc();
    let whole = tree(alloc, &[])?;
    let tasks = |fence: u32| FencesRefusal::Fence {
        test: FenceTest::Tasks,
        fence,
    };
    let apart = |fence: u32| FencesRefusal::Fence {
        test: FenceTest::Apart,
        fence,
    };
    let rows: [(&[Fence], FencesRefusal); 8] = [
        (&[fence(0, 3)], tasks(1)),
        (&[fence(1, 3), fence(2, 6)], tasks(2)),
        (&[fence(0, 0), fence(1, 1)], tasks(1)),
        (&[fence(1, 3), fence(2, 2), fence(0, 0)], apart(2)),
        (&[fence(2, 1)], FencesRefusal::Cycle(1)),
        (&[fence(5, 4)], FencesRefusal::Cycle(4)),
        (
            &[fence(1, 3), fence(4, 2), fence(2, 3)],
            FencesRefusal::Cycle(2),
        ),
        (&[fence(1, 3)], FencesRefusal::Length),
    ];
    for (fences, refusal) in rows {
        let judged = judge_fences(alloc, &whole, fences, &[10, 10, 10, 10, 0], 0, 20);
        assert_eq!(rt; judged, Err(refusal));
    }
    Ok(())
}

#[test]
fn amounts_of_fences_that_are_refused(rt: HostRuntime) -> Result<(), Fail> {
    let alloc = rt.alloc();
    let whole = tree(alloc, &[])?;
    let most = 1 << 60;
    let failed = |test: AmountTest, item: u32| FencesRefusal::Item { test, item };
    let rows: [(&[u64], FencesRefusal); 5] = [
        (&[1, 5, 1, 5, 0], FencesRefusal::Length),
        (&[1, 5, 0, 5, 0, 10], failed(AmountTest::Size, 3)),
        (&[1, 5, 1, 5, 0, most + 1], failed(AmountTest::Limit, 6)),
        (&[most, most, most, most, 0, most], FencesRefusal::Total),
        (&[most, most, most, 5, 0, 0], FencesRefusal::Bound(2 * most)),
    ];
    for (amounts, refusal) in rows {
        let judged = judge_fences(alloc, &whole, &[fence(1, 3)], amounts, 0, 16);
        assert_eq!(rt; judged, Err(refusal));
    }
    Ok(())
}

// A task that consumes what it produces never runs.
#[test]
fn an_item_of_one_task(rt: HostRuntime) -> Result<(), Fail> {
    let alloc = rt.alloc();
    let tasks = [task(1), task(4)];
    let items = [item(7, 1, 2), item(2, 2, 2)];
    let stuck = system_of_arrays(alloc, &tasks, &items)?;
    assert_eq!(rt; judge_amounts(alloc, &stuck, &[7, 2], 0), Ok(14));
    let judged = judge_fences(alloc, &stuck, &[], &[7, 2], 0, 100);
    assert_eq!(rt; judged, Err(FencesRefusal::OwnInput(2)));
    Ok(())
}

// The amounts along the tree, the room, and what is certified beside it. With room 5 each leaf needs 5, and each node above one nothing: with all
// of a leaf's memory handed on only the leaves draw, 5 each, so that one worker uses 15 at most, and two use 20. Where the sizes alone are
// handed on, each node above a leaf draws 4 too.
const BESIDE_ROOM: &[(&[u64], u64, u64)] = &[
    (&[5, 5, 5, 5, 0], 5, 10),
    (&[10, 10, 10, 10, 0], 5, 20),
    (&[1, 5, 1, 5, 0], 5, 18),
    (&[5, 5, 5, 5, 0], 4, 12),
    (&[5, 5, 5, 5, 0], 6, 10),
    (&[1, 5, 1, 5, 0], u64::MAX, 10),
];

#[test]
fn bounds_beside_room(rt: HostRuntime) -> Result<(), Fail> {
    let alloc = rt.alloc();
    let whole = tree(alloc, &[])?;
    for (amounts, room, certified) in BESIDE_ROOM {
        let judged = judge_amounts(alloc, &whole, amounts, *room);
        assert_eq!(rt; judged, Ok(*certified));
    }
    Ok(())
}

#[test]
fn bounds_beside_room_that_are_refused(rt: HostRuntime) -> Result<(), Fail> {
    let alloc = rt.alloc();
    let whole = tree(alloc, &[])?;
    for (amounts, room, certified) in BESIDE_ROOM {
        let kept = judge_fences(alloc, &whole, &[], amounts, *room, *certified);
        assert_eq!(rt; kept, Ok(*certified));
        let refused = judge_fences(alloc, &whole, &[], amounts, *room, *certified - 1);
        assert_eq!(rt; refused, Err(FencesRefusal::Bound(*certified)));
    }
    Ok(())
}

// The root 4 has the children 1, 2 and 3, which need 9 beside the 1 that they produce: all at once use 30, and two at once, with what the first
// one left, 21. With no room one fence is needed for 21; with room 9 for each of two workers 3 is certified beside it, without any.
#[test]
fn room_for_two_workers(rt: HostRuntime) -> Result<(), Fail> {
    let alloc = rt.alloc();
    let tasks = [task(9), task(9), task(9), task(0)];
    let items = [item(1, 1, 4), item(1, 2, 4), item(1, 3, 4)];
    let wide = system_of_arrays(alloc, &tasks, &items)?;
    let whole = judge_fences(alloc, &wide, &[], &[1, 1, 1], 0, 21);
    assert_eq!(rt; whole, Err(FencesRefusal::Bound(30)));
    let fenced = judge_fences(alloc, &wide, &[fence(1, 3)], &[1, 1, 1, 9], 0, 21);
    assert_eq!(rt; fenced, Ok(21));
    let on_two = judge_fences(alloc, &wide, &[], &[1, 1, 1], 9, 21 - 2 * 9);
    assert_eq!(rt; on_two, Ok(3));
    Ok(())
}
