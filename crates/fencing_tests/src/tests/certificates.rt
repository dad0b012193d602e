//! Certificates along orders of shared systems, worked by hand.

use super::{are, task};
use fences::{FenceCertificate, Workers};
use fencing::{CertifyingRefusal, certificate_along};
use mp_system::{GivenTask, OrderFault, OrderKind};
use shared_systems::{GivenSharedItem, SharedSystem, shared_system_of_arrays};
use std::alloc::Global;
use std::rt::HostRuntime;
use std::test::Fail;

// An item that so many tasks read.
fn item(size: u64, from: u32, readers: u32) -> GivenSharedItem {
    GivenSharedItem {
        size,
        from,
        readers,
    }
}

// A bound, how many workers are asked for, and the certificate: the workers, the joins, the fences and the amounts.
type Certified = (
    u64,
    Option<u32>,
    Workers,
    &'static [u32],
    &'static [(u32, u32)],
    &'static [u64],
);

fn is(made: &FenceCertificate, row: &Certified) -> bool {
    let (bound, _, workers, joins, fences, amounts) = *row;
    made.bound == bound
        && made.workers == workers
        && &made.joins[..] == joins
        && are(&made.fences, fences)
        && &made.amounts[..] == amounts
}

// Tasks 2 and 3 read the 4 that task 1 makes, and need 6 beside.
fn two_readers(alloc: Global) -> Result<SharedSystem, Fail> {
    let tasks = [task(0, 0), task(6, 0), task(6, 0)];
    Ok(shared_system_of_arrays(alloc, &tasks, &[item(4, 1, 2)], &[2, 3])?)
}

// The join, task 4, takes up the 4. One reader after the other uses 10, and both at once use 16. On one worker a room of 6 is all that a reader
// needs; two workers have no room at 10, and at 16 they need none.
const OF_TWO_READERS: &[Certified] = &[
    (10, None, Workers::Any, &[1], &[(2, 3)], &[4, 0, 0, 0, 0, 6]),
    (16, None, Workers::Any, &[1], &[], &[4, 0, 0, 0, 0]),
    (
        10,
        Some(1),
        Workers::AtMost { count: 1, room: 6 },
        &[1],
        &[],
        &[4, 0, 0, 0, 0],
    ),
    (
        10,
        Some(2),
        Workers::AtMost { count: 2, room: 0 },
        &[1],
        &[(2, 3)],
        &[4, 0, 0, 0, 0, 6],
    ),
    (
        16,
        Some(2),
        Workers::AtMost { count: 2, room: 0 },
        &[1],
        &[],
        &[4, 0, 0, 0, 0],
    ),
];

#[test]
fn an_item_with_two_readers(rt: HostRuntime) -> Result<(), Fail> {
    let alloc = rt.alloc();
    let system = two_readers(alloc)?;
    for row in OF_TWO_READERS {
        let made = certificate_along(alloc, &system, &[1, 2, 3], row.0, row.1, false)?;
        assert!(rt; is(&made, row));
        let fewest = certificate_along(alloc, &system, &[1, 2, 3], row.0, row.1, true)?;
        assert!(rt; is(&fewest, row));
    }
    Ok(())
}

// 1 supplies 2, 3 and 4, each of which needs 11 while it runs, so that two at once use 25 and three use 36. Within 25 two workers need no fence,
// since none can run three; three workers do: 4 waits for the first to end, of two that end at once for the one with the lower number.
const OF_FORK: &[Certified] = &[
    (
        25,
        None,
        Workers::Any,
        &[],
        &[(2, 4)],
        &[1, 1, 1, 1, 1, 1, 11],
    ),
    (
        25,
        Some(2),
        Workers::AtMost { count: 2, room: 11 },
        &[],
        &[],
        &[1, 1, 1, 1, 1, 1],
    ),
    (
        25,
        Some(3),
        Workers::AtMost { count: 3, room: 0 },
        &[],
        &[(2, 4)],
        &[1, 1, 1, 1, 1, 1, 11],
    ),
    (
        u64::MAX,
        Some(3),
        Workers::AtMost { count: 3, room: 0 },
        &[],
        &[],
        &[1, 1, 1, 1, 1, 1],
    ),
];

#[test]
fn two_workers_need_no_fence(rt: HostRuntime) -> Result<(), Fail> {
    let alloc = rt.alloc();
    let tasks = [
        task(0, 0),
        task(10, 0),
        task(10, 0),
        task(10, 0),
        task(0, 0),
    ];
    let items = [
        item(1, 1, 1),
        item(1, 1, 1),
        item(1, 1, 1),
        item(1, 2, 1),
        item(1, 3, 1),
        item(1, 4, 1),
    ];
    let fork = shared_system_of_arrays(alloc, &tasks, &items, &[2, 3, 4, 5, 5, 5])?;
    for row in OF_FORK {
        let made = certificate_along(alloc, &fork, &[1, 2, 3, 4, 5], row.0, row.1, false)?;
        assert!(rt; is(&made, row));
    }
    Ok(())
}

// 3 waits for 1 by way of 2, so it takes what 1 gave back with no fence. Within 20 there is room for all tasks at once, and nothing is handed on.
const OF_LINE: &[Certified] = &[
    (10, None, Workers::Any, &[], &[], &[10, 10]),
    (
        10,
        Some(1),
        Workers::AtMost { count: 1, room: 0 },
        &[],
        &[],
        &[10, 10],
    ),
    (15, None, Workers::Any, &[], &[], &[10, 10]),
    (20, None, Workers::Any, &[], &[], &[0, 0]),
];

#[test]
fn memory_from_two_arcs_away(rt: HostRuntime) -> Result<(), Fail> {
    let alloc = rt.alloc();
    let tasks = [task(10, 0), task(0, 0), task(10, 0)];
    let items = [item(0, 1, 1), item(0, 2, 1)];
    let line = shared_system_of_arrays(alloc, &tasks, &items, &[2, 3])?;
    for row in OF_LINE {
        let made = certificate_along(alloc, &line, &[1, 2, 3], row.0, row.1, false)?;
        assert!(rt; is(&made, row));
    }
    Ok(())
}

// 4 waits for both readers of the 10 that 1 makes, so what the join, task 5, gives back costs it no time. From 20 on it needs none of that.
const OF_JOIN: &[Certified] = &[
    (
        10,
        None,
        Workers::Any,
        &[1],
        &[(5, 4)],
        &[10, 0, 0, 0, 0, 0, 0, 10],
    ),
    (
        19,
        None,
        Workers::Any,
        &[1],
        &[(5, 4)],
        &[10, 0, 0, 0, 0, 0, 0, 10],
    ),
    (20, None, Workers::Any, &[1], &[], &[10, 0, 0, 0, 0, 0, 0]),
];

#[test]
fn memory_from_a_join(rt: HostRuntime) -> Result<(), Fail> {
    let alloc = rt.alloc();
    let tasks = [task(0, 0), task(0, 0), task(0, 0), task(10, 0)];
    let items = [item(10, 1, 2), item(0, 2, 1), item(0, 3, 1)];
    let system = shared_system_of_arrays(alloc, &tasks, &items, &[2, 3, 4, 4])?;
    for row in OF_JOIN {
        let made = certificate_along(alloc, &system, &[1, 2, 3, 4], row.0, row.1, false)?;
        assert!(rt; is(&made, row));
    }
    Ok(())
}

// Of two tasks that stand alone, 1 runs for five units of time and 2 for one. There is room for two at once: 3 waits for 2, whichever stands
// first in the order.
#[test]
fn the_first_to_end(rt: HostRuntime) -> Result<(), Fail> {
    let alloc = rt.alloc();
    let long = GivenTask {
        extra: 10,
        share: 0,
        time: 5,
    };
    let tasks = [long, task(10, 0), task(10, 0)];
    let alone = shared_system_of_arrays(alloc, &tasks, &[], &[])?;
    let orders: [&[u32]; 2] = [&[1, 2, 3], &[2, 1, 3]];
    for order in orders {
        let made = certificate_along(alloc, &alone, order, 20, None, false)?;
        assert!(rt; are(&made.fences, &[(2, 3)]));
        assert!(rt; &made.amounts[..] == [10].as_slice());
    }
    Ok(())
}

// Within 5 tasks 1 and 2, which need 4 each, do not run at once, and task 3, which needs 1, runs beside either. What the bound leaves at first is 1
// beside task 1, and task 2 takes it with 3 of what 1 gives back, so that 3 waits for 1 too. With the fewest fences 2 takes all 4.
#[test]
fn the_fewest_fences(rt: HostRuntime) -> Result<(), Fail> {
    let alloc = rt.alloc();
    let tasks = [task(4, 0), task(4, 0), task(1, 0)];
    let alone = shared_system_of_arrays(alloc, &tasks, &[], &[])?;
    let made = certificate_along(alloc, &alone, &[1, 2, 3], 5, None, false)?;
    assert!(rt; are(&made.fences, &[(1, 2), (1, 3)]));
    assert!(rt; &made.amounts[..] == [3, 1].as_slice());
    let fewest = certificate_along(alloc, &alone, &[1, 2, 3], 5, None, true)?;
    assert!(rt; are(&fewest.fences, &[(1, 2)]));
    assert!(rt; &fewest.amounts[..] == [4].as_slice());
    Ok(())
}

#[test]
fn certificates_that_are_refused(rt: HostRuntime) -> Result<(), Fail> {
    let alloc = rt.alloc();
    let system = two_readers(alloc)?;
    let fault = |place: u64, kind: OrderKind| CertifyingRefusal::Order(OrderFault { place, kind });
    let rows: [(&[u32], u64, CertifyingRefusal); 4] = [
        (&[1, 2, 3], 9, CertifyingRefusal::Bound { peak: 10 }),
        (&[2, 1, 3], 16, fault(1, OrderKind::TooEarly)),
        (&[1, 2], 0, fault(3, OrderKind::Missing)),
        (&[1, 2, 3, 4], 16, fault(4, OrderKind::Unknown)),
    ];
    for (order, bound, refusal) in rows {
        let made = certificate_along(alloc, &system, order, bound, Some(2), false);
        assert!(rt; made.err() == Some(refusal));
    }
    Ok(())
}
