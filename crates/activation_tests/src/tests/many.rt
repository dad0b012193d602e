//! Many tasks at once.

use crate::tests::plain::Given;
use crate::tests::rows::{along, run};
use crate::tests::systems::{made, task};
use activation::EventKind;
use std::rt::HostRuntime;
use std::test::Fail;

const TASKS: u32 = 300_000;

#[test]
fn many_tasks_start_by_their_priority(rt: HostRuntime) -> Result<(), Fail> {
    let alloc = rt.alloc();
    let tasks = vec![in alloc; task(0, 0, 1); TASKS as usize]?;
    let system = made(alloc, &tasks, &[], &[])?;
    let mut order = Vec::new(alloc);
    let mut priority = Vec::new(alloc);
    for place in 0..TASKS {
        order.push(place + 1)?;
        priority.push(TASKS - place)?;
    }
    let given = Given {
        priority: &priority,
        ..along(&system, &order, 0, 1)
    };
    let trace = run(alloc, given)?;
    assert_eq!(rt; trace.makespan, u64::from(TASKS));
    let mut next = TASKS;
    for event in &trace.events {
        if event.kind == EventKind::Start {
            assert_eq!(rt; event.task, next);
            next = next.saturating_sub(1);
        }
    }
    assert_eq!(rt; next, 0);
    Ok(())
}
