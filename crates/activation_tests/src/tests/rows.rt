//! The worked rows: runs, refusals, and a core event by event.

ghost use Rattle.std.specs.Prelude.{◌≡◌, ◌≤◌};
ghost use Rattle.limits.specs.Limits.{most_workers};

use crate::tests::plain::{Given, plain_run};
use crate::tests::systems::{arrow, star, still, tree};
use activation::{Core, CoreRefusal, EventKind, Simulator, Trace, holds_each};
use mp_system::{OrderFault, OrderKind};
use shared_systems::SharedSystem;
use std::alloc::Global;
use std::process::Abort;
use std::rt::HostRuntime;
use std::test::Fail;

/// The simulated run.
pub fn run(alloc: Global, given: Given) -> Result<Trace, Fail>
    requires { (1 ≤ given.workers) × (given.workers ≤ most_workers) }
{
    let core = Core::new(alloc, given.system, given.order, given.bound, given.workers)?;
    if !holds_each(alloc, given.system, given.priority)? {
        return Err("a priority that does not hold each task once".into());
    }
    Ok(Simulator::new(alloc, core)?.run(given.priority))
}

/// The simulated run, which is that of the plain simulator.
pub fn compare(rt: &impl Abort, alloc: Global, given: Given) -> Result<Trace, Fail>
    requires { (1 ≤ given.workers) × (given.workers ≤ most_workers) }
{
    let (trace, plain) = (run(alloc, given)?, plain_run(alloc, given)?);
    assert_eq!(rt;
        (trace.makespan, trace.used, trace.booked),
        (plain.makespan, plain.used, plain.booked)
    );
    assert_eq!(rt; trace.events.as_slice(), plain.events.as_slice());
    Ok(trace)
}

// A run in one line: its makespan, used and booked memory, and its events, each as its moment, the first letter of its kind, and its task.
fn line_of(alloc: Global, trace: &Trace) -> Result<String, Fail> {
    let mut line = format!(in alloc; "{} {} {}", trace.makespan, trace.used, trace.booked)?;
    for event in &trace.events {
        let kind = match event.kind {
            EventKind::Activate => 'a',
            EventKind::Start => 's',
            EventKind::Finish => 'f',
        };
        line.push_str(format!(in alloc; " {}{kind}{}", event.time, event.task)?.as_str())?;
    }
    Ok(line)
}

/// The simulated run is that of the plain simulator, and this one.
pub fn check_run(rt: &impl Abort, alloc: Global, given: Given, wanted: &str) -> Result<(), Fail>
    requires { (1 ≤ given.workers) × (given.workers ≤ most_workers) }
{
    let trace = compare(rt, alloc, given)?;
    let found = line_of(alloc, &trace)?;
    assert_eq!(rt; found.as_str(), wanted);
    Ok(())
}

/// A run along an order, which is the priority too.
pub fn along<'a>(system: &'a SharedSystem, order: &'a [u32], bound: u64, workers: u32) -> Given<'a>
    ensures { result.workers ≡ workers }
{
    Given {
        system,
        order,
        bound,
        workers,
        priority: order,
    }
}

const TIGHT: &str = "5 11 11 0a1 0s1 1f1 1a3 1s3 2f3 2a2 2s2 3f2 3a4 3a5 3s4 4f4 4s5 5f5";

const WIDE: &str = "3 20 20 0a1 0a3 0s1 0s3 1f1 1f3 1a2 1a4 1a5 1s2 1s4 2f2 2f4 2s5 3f5";

const ENDLESS: &str = "3 20 30 0a1 0a3 0a2 0a4 0a5 0s1 0s3 1f1 1f3 1s2 1s4 2f2 2f4 2s5 3f5";

// Bounds for the tree, and its runs.
const BOUNDED: &[(u64, &str)] = &[(11, TIGHT), (22, WIDE), (u64::MAX, ENDLESS)];

const ORDER: &[u32] = &[1, 3, 2, 4, 5];

#[test]
fn runs_of_a_tree(rt: HostRuntime) -> Result<(), Fail> {
    let alloc = rt.alloc();
    let tree = tree(alloc)?;
    for (bound, wanted) in BOUNDED {
        check_run(&rt, alloc, along(&tree, ORDER, *bound, 2), wanted)?;
    }
    Ok(())
}

#[test]
fn a_tree_on_one_worker(rt: HostRuntime) -> Result<(), Fail> {
    let alloc = rt.alloc();
    let tree = tree(alloc)?;
    let alone = compare(&rt, alloc, along(&tree, ORDER, 22, 1))?;
    assert_eq!(rt; alone.makespan, 5);
    Ok(())
}

#[test]
fn a_tree_on_as_many_workers_as_there_may_be(rt: HostRuntime) -> Result<(), Fail> {
    let alloc = rt.alloc();
    let tree = tree(alloc)?;
    let crowded = compare(&rt, alloc, along(&tree, ORDER, 22, 4096))?;
    assert_eq!(rt; crowded.makespan, 3);
    Ok(())
}

const RANKED: &str = "4 6 6 0a1 0a2 0a3 0a4 0s3 1f3 1s2 2f2 2s1 3f1 3s4 4f4";

const IN_PLACE: &str = "4 4 4 0a1 0s1 1f1 1a2 1s2 2f2 2a3 2s3 4f3";

#[test]
fn a_star_by_a_priority(rt: HostRuntime) -> Result<(), Fail> {
    let star = star(rt.alloc())?;
    let ranked = Given {
        priority: &[3, 2, 1, 4],
        ..along(&star, &[1, 2, 3, 4], 6, 1)
    };
    check_run(&rt, rt.alloc(), ranked, RANKED)
}

#[test]
fn items_taken_over_in_place(rt: HostRuntime) -> Result<(), Fail> {
    let arrow = arrow(rt.alloc())?;
    check_run(&rt, rt.alloc(), along(&arrow, &[1, 2, 3], 4, 2), IN_PLACE)
}

#[test]
fn items_without_a_task(rt: HostRuntime) -> Result<(), Fail> {
    let still = still(rt.alloc())?;
    check_run(&rt, rt.alloc(), along(&still, &[], 20, 1), "0 20 20")
}

fn no_traversal(place: u64, kind: OrderKind) -> CoreRefusal {
    CoreRefusal::Order(OrderFault { place, kind })
}

fn below(bound: u64, peak: u64) -> CoreRefusal {
    CoreRefusal::BoundBelow { bound, peak }
}

// Why there is no core of two workers for an order and a bound.
fn refusal_of(
    alloc: Global,
    system: &SharedSystem,
    order: &[u32],
    bound: u64,
) -> Option<CoreRefusal> {
    Core::new(alloc, system, order, bound, 2).err()
}

// Orders of the tree, bounds, and the peak where that is above the bound.
const BOUNDS: &[([u32; 5], u64, Option<u64>)] = &[
    ([1, 3, 2, 4, 5], 11, None),
    ([1, 3, 2, 4, 5], 10, Some(11)),
    ([1, 2, 3, 4, 5], 11, Some(15)),
];

#[test]
fn bounds_that_are_refused(rt: HostRuntime) -> Result<(), Fail> {
    let tree = tree(rt.alloc())?;
    for (order, bound, peak) in BOUNDS {
        let refusal = peak.map(|peak| below(*bound, peak));
        assert_eq!(rt; refusal_of(rt.alloc(), &tree, order, *bound), refusal);
    }
    Ok(())
}

#[test]
fn a_bound_below_the_peak_in_place(rt: HostRuntime) -> Result<(), Fail> {
    let arrow = arrow(rt.alloc())?;
    let refusal = refusal_of(rt.alloc(), &arrow, &[1, 2, 3], 3);
    assert_eq!(rt; refusal, Some(below(3, 4)));
    Ok(())
}

// Orders that are no traversal of the tree, with bounds, and the first place that is wrong.
const NO_TRAVERSALS: &[(&[u32], u64, u64, OrderKind)] = &[
    (&[1, 1], 0, 2, OrderKind::Repeated),
    (&[9], 99, 1, OrderKind::Unknown),
    (&[1, 2, 3, 4], 99, 5, OrderKind::Missing),
    (&[2, 1, 3, 4, 5], 99, 1, OrderKind::TooEarly),
];

#[test]
fn orders_that_are_refused(rt: HostRuntime) -> Result<(), Fail> {
    let tree = tree(rt.alloc())?;
    for &(order, bound, place, kind) in NO_TRAVERSALS {
        let refusal = refusal_of(rt.alloc(), &tree, order, bound);
        assert_eq!(rt; refusal, Some(no_traversal(place, kind)));
    }
    Ok(())
}

// Refusals, and their words.
const TOLD: &[(CoreRefusal, &str)] = &[
    (
        CoreRefusal::Order(OrderFault {
            place: 3,
            kind: OrderKind::TooEarly,
        }),
        "too-early at place 3",
    ),
    (CoreRefusal::BoundBelow { bound: 7, peak: 9 }, "bound 7 9"),
    (CoreRefusal::NoMemory, "no memory"),
];

#[test]
fn refusals_are_told(rt: HostRuntime) -> Result<(), Fail> {
    for (refusal, words) in TOLD {
        assert_eq!(rt; format!(in rt.alloc(); "{refusal}")?.as_str(), *words);
    }
    Ok(())
}

// The tree along an order, in the least memory for it.
fn tree_core(alloc: Global) -> Result<Core, Fail> {
    let tree = tree(alloc)?;
    Ok(Core::new(alloc, &tree, ORDER, 11, 1)?)
}

/// Used and booked memory, and how many tasks are activated.
pub fn sums(core: &Core) -> (u64, u64, u32) {
    (core.used(), core.booked(), core.activated())
}

// Only task 1 fits at first.
fn activate_one(rt: &impl Abort, core: &mut Core) {
    assert_eq!(rt; (core.activate(), core.activate()), (Some(1), None));
    assert_eq!(rt; sums(core), (0, 10, 1));
}

// Whether a task starts, how many run then, whether it finishes, and whether it is done.
fn tried(core: &mut Core, task: u32) -> (bool, usize, bool, bool) {
    let starts = core.start(task);
    let running = core.running().len();
    let finishes = core.finish(task);
    (starts, running, finishes, core.is_done(task))
}

// A task, whether it starts and finishes, and then used, booked and activated.
type Tried = (u32, bool, (u64, u64, u32));

fn check_event(rt: &impl Abort, core: &mut Core, (task, runs, memory): Tried) {
    assert_eq!(rt; tried(core, task), (runs, usize::from(runs), runs, runs));
    assert_eq!(rt; sums(core), memory);
}

const EVENTS: &[Tried] = &[
    (0, false, (0, 10, 1)),
    (6, false, (0, 10, 1)),
    (3, false, (0, 10, 1)),
    (1, true, (1, 1, 1)),
    (2, false, (1, 1, 1)),
    (u32::MAX, false, (1, 1, 1)),
];

#[test]
fn a_core_event_by_event(rt: HostRuntime) -> Result<(), Fail> {
    let mut core = tree_core(rt.alloc())?;
    activate_one(&rt, &mut core);
    for event in EVENTS {
        check_event(&rt, &mut core, *event);
    }
    Ok(())
}

// Priorities, and whether each holds each of five tasks once.
const PRIORITIES: &[(&[u32], bool)] = &[
    (&[1, 2, 3, 4, 5], true),
    (&[5, 3, 1, 4, 2], true),
    (&[1, 2, 3, 4], false),
    (&[1, 2, 3, 4, 4], false),
    (&[0, 1, 2, 3, 4, 5], false),
    (&[1, 2, 3, 4, 5, 6], false),
];

#[test]
fn priorities_that_hold_each_task_once(rt: HostRuntime) -> Result<(), Fail> {
    let alloc = rt.alloc();
    let tree = tree(alloc)?;
    for (priority, holds) in PRIORITIES {
        assert_eq!(rt; holds_each(alloc, &tree, priority)?, *holds);
    }
    Ok(())
}
