//! Cores of systems in which each item has at most one consumer.

ghost use Rattle.std.specs.Prelude.{◌≡◌};

use activation::{Core, CoreRefusal};
use mp_system::{Item, OrderFault, OrderKind, System, Task};
use std::alloc::{AllocError, Global};
use std::rt::HostRuntime;
use std::test::Fail;

fn item(size: u64, from: Option<u32>, to: Option<u32>) -> Item
    ensures { result ≡ record { size = size; from = from; to = to } }
{
    Item { size, from, to }
}

// The first of three tasks hands an item of 2 to the last, and the second, which needs 3, an item of 1.
fn system(alloc: Global) -> Result<System, AllocError> {
    let (plain, greedy) = (
        Task {
            extra: 0,
            share: 0,
            time: 1,
        },
        Task {
            extra: 2,
            share: 0,
            time: 1,
        },
    );
    let tasks = vec![in alloc; plain, greedy, plain]?;
    let items = vec![in alloc;
        item(2, Some(1), Some(3)),
        item(1, Some(2), Some(3)),
        item(0, Some(3), None),
    ]?;
    Ok(System::new(tasks, items))
}

// Orders, bounds, and why there is no core, where there is none.
const TRIED: &[(&[u32], u64, Option<CoreRefusal>)] = &[
    (&[2, 1, 3], 3, None),
    (
        &[2, 1, 3],
        2,
        Some(CoreRefusal::BoundBelow { bound: 2, peak: 3 }),
    ),
    (
        &[1, 2, 3],
        4,
        Some(CoreRefusal::BoundBelow { bound: 4, peak: 5 }),
    ),
    (
        &[1, 3, 2],
        9,
        Some(CoreRefusal::Order(OrderFault {
            place: 2,
            kind: OrderKind::TooEarly,
        })),
    ),
];

#[test]
fn cores_that_are_there_and_cores_that_are_not(rt: HostRuntime) -> Result<(), Fail> {
    let system = system(rt.alloc())?;
    for &(order, bound, refusal) in TRIED {
        let found = Core::of_system(rt.alloc(), &system, order, bound, 1).err();
        assert_eq!(rt; found, refusal);
    }
    Ok(())
}

#[test]
fn an_item_goes_with_its_consumer(rt: HostRuntime) -> Result<(), Fail> {
    let system = system(rt.alloc())?;
    let mut core = Core::of_system(rt.alloc(), &system, &[2, 1, 3], 3, 1)?;
    assert_eq!(rt; (core.activate(), core.activate()), (Some(2), None));
    assert_eq!(rt;
        (core.start(2), core.used(), core.finish(2)),
        (true, 3, true)
    );
    assert_eq!(rt; (core.used(), core.booked()), (1, 1));
    assert_eq!(rt; (core.activate(), core.activate()), (Some(1), Some(3)));
    assert_eq!(rt;
        (core.start(3), core.start(1), core.finish(1)),
        (false, true, true)
    );
    assert_eq!(rt;
        (core.used(), core.start(3), core.finish(3)),
        (3, true, true)
    );
    assert_eq!(rt; (core.used(), core.booked()), (0, 0));
    Ok(())
}
