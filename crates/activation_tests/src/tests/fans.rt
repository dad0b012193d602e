//! Runs of a system in which one item has three readers, and a core event by event.

use crate::tests::rows::{along, check_run, sums};
use crate::tests::systems::fan;
use activation::{Core, CoreRefusal};
use std::process::Abort;
use std::rt::HostRuntime;
use std::test::Fail;

const TIGHT: &str = "6 9 9 0a1 0a2 0s1 1f1 1s2 3f2 3a3 3s3 4f3 4a4 4s4 5f4 5a5 5s5 6f5";

const WIDE: &str = "4 11 14 0a1 0a2 0a3 0a4 0a5 0s1 1f1 1s2 1s3 2f3 2s4 3f2 3f4 3s5 4f5";

// Bounds for the fan, and its runs.
const BOUNDED: &[(u64, &str)] = &[(9, TIGHT), (14, WIDE)];

#[test]
fn runs_of_three_readers_of_one_item(rt: HostRuntime) -> Result<(), Fail> {
    let fan = fan(rt.alloc())?;
    for (bound, wanted) in BOUNDED {
        check_run(
            &rt,
            rt.alloc(),
            along(&fan, &[1, 2, 3, 4, 5], *bound, 2),
            wanted,
        )?;
    }
    Ok(())
}

#[test]
fn a_bound_below_the_peak(rt: HostRuntime) -> Result<(), Fail> {
    let fan = fan(rt.alloc())?;
    let refusal = Core::new(rt.alloc(), &fan, &[1, 2, 3, 4, 5], 8, 2).err();
    assert_eq!(&rt;
        refusal,
        Some(CoreRefusal::BoundBelow { bound: 8, peak: 9 })
    );
    Ok(())
}

// Starts a task, and ends it.
fn run_one(core: &mut Core, task: u32) -> bool {
    core.start(task) && core.finish(task)
}

// A task that runs, and then used, booked and activated.
type Ran = (u32, (u64, u64, u32));

// Activates what fits, runs the next task, and then memory is this.
fn check_ran(rt: &impl Abort, core: &mut Core, (task, memory): Ran) {
    for _task in 0..5 {
        let _ = core.activate();
    }
    assert_eq!(rt; core.next_startable(), Some(task));
    assert_eq!(rt; run_one(core, task), true);
    assert_eq!(rt; sums(core), memory);
}

// The item of 4 goes with task 4, its last reader.
const STEPS: &[Ran] = &[
    (1, (4, 7, 2)),
    (2, (5, 5, 2)),
    (3, (6, 6, 3)),
    (4, (3, 3, 4)),
    (5, (2, 2, 5)),
];

#[test]
fn a_core_event_by_event(rt: HostRuntime) -> Result<(), Fail> {
    let fan = fan(rt.alloc())?;
    let mut core = Core::new(rt.alloc(), &fan, &[1, 2, 3, 4, 5], 9, 1)?;
    for step in STEPS {
        check_ran(&rt, &mut core, *step);
    }
    Ok(())
}

#[test]
fn a_reader_waits_for_the_producer(rt: HostRuntime) -> Result<(), Fail> {
    let fan = fan(rt.alloc())?;
    let mut core = Core::new(rt.alloc(), &fan, &[1, 2, 3, 4, 5], 9, 2)?;
    assert_eq!(&rt;
        (core.next_startable(), core.activate(), core.activate()),
        (None, Some(1), Some(2))
    );
    assert_eq!(&rt; (core.may_start(2), core.start(2)), (false, false));
    assert_eq!(&rt;
        (core.next_startable(), core.start(1), core.running().len()),
        (Some(1), true, 1)
    );
    assert_eq!(&rt; core.next_startable(), None);
    assert_eq!(&rt;
        (core.finish(1), core.is_done(1), core.may_start(2)),
        (true, true, true)
    );
    assert_eq!(&rt; core.next_startable(), Some(2));
    Ok(())
}
