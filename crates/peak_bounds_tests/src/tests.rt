//! Evidence for lower bounds, and what is said against it.

ghost use Rattle.std.specs.Prelude.{◌≤◌};
ghost use Rattle.limits.specs.Limits.{most_workers};

use mp_outside::{Gate, NoGate};
use mp_system::GivenTask;
use peak_bounds::{
    Amount, Blocker, BlockerTest, Event, EventSet, Evidence, Objection, judge_evidence,
    judge_evidence_by,
};
use shared_systems::{GivenSharedItem, SharedRefusal, SharedSystem, shared_system_of_arrays};
use std::alloc::Global;
use std::rt::HostRuntime;
use std::sync::atomic::{AtomicU32, Ordering};
use std::test::Fail;
use std::thread::Threads;

fn task(extra: u64, share: u64) -> GivenTask {
    GivenTask {
        extra,
        share,
        time: 1,
    }
}

// An item that so many tasks read.
fn item(size: u64, from: u32, readers: u32) -> GivenSharedItem {
    GivenSharedItem {
        size,
        from,
        readers,
    }
}

// Task 2 reads what task 1 makes, task 4 what task 3 makes, and task 5 what tasks 2 and 4 make; the least peak is 11. The uses, by their
// places: 1 to 2, 2 to 5, 3 to 4, 4 to 5, and of task 5 to none.
fn tree(alloc: Global) -> Result<SharedSystem, SharedRefusal> {
    let tasks = [task(9, 0), task(0, 0), task(9, 0), task(0, 0), task(0, 0)];
    let items = [
        item(1, 1, 1),
        item(5, 2, 1),
        item(1, 3, 1),
        item(5, 4, 1),
        item(0, 5, 0),
    ];
    shared_system_of_arrays(alloc, &tasks, &items, &[2, 5, 4, 5])
}

// The tree the other way round: the uses are 5 to 2, 5 to 4, 2 to 1 and 4 to 3.
fn fan(alloc: Global) -> Result<SharedSystem, SharedRefusal> {
    let tasks = [task(9, 0), task(0, 0), task(9, 0), task(0, 0), task(0, 0)];
    let items = [item(5, 5, 1), item(5, 5, 1), item(1, 2, 1), item(1, 4, 1)];
    shared_system_of_arrays(alloc, &tasks, &items, &[2, 4, 1, 3])
}

// Tasks 2 and 3 both read what task 1 makes, and task 4 reads what they make, and takes 1 of it over; the least peak is 10. The uses: 1 to
// 2, 1 to 3, 2 to 4, 3 to 4, and of task 4 to none.
fn diamond(alloc: Global) -> Result<SharedSystem, SharedRefusal> {
    let tasks = [task(0, 0), task(1, 0), task(2, 0), task(2, 1)];
    let items = [item(5, 1, 2), item(1, 2, 1), item(3, 3, 1), item(2, 4, 0)];
    shared_system_of_arrays(alloc, &tasks, &items, &[2, 3, 4, 4])
}

fn told(place: u32, amount: i64) -> Amount {
    Amount { place, amount }
}

// Evidence by a set of two tasks; the second has no amounts of its own.
fn pair(
    alloc: Global,
    event: Event,
    base: &[Amount],
    tasks: [u32; 2],
    own: &[Amount],
) -> Result<Evidence, Fail> {
    let first = Blocker::new(tasks[0], own.to_vec(alloc)?);
    let second = Blocker::new(tasks[1], Vec::new(alloc));
    let mut blockers = Vec::new(alloc);
    blockers.push(first)?;
    blockers.push(second)?;
    let set = EventSet::new(event, base.to_vec(alloc)?, blockers);
    Ok(Evidence::Set(set))
}

// Evidence by one task.
fn single(alloc: Global, event: Event, base: &[Amount], task: u32) -> Result<Evidence, Fail> {
    let mut blockers = Vec::new(alloc);
    blockers.push(Blocker::new(task, Vec::new(alloc)))?;
    let set = EventSet::new(event, base.to_vec(alloc)?, blockers);
    Ok(Evidence::Set(set))
}

// What is said against the leaves of the tree as evidence, where the first has these amounts of its own.
fn leaves(
    alloc: Global,
    event: Event,
    own: &[Amount],
    bound: u64,
) -> Result<Option<Objection>, Fail> {
    let evidence = pair(alloc, event, &[told(1, 1), told(2, 1)], [1, 3], own)?;
    Ok(judge_evidence(alloc, &tree(alloc)?, &evidence, bound)?)
}

// The same with these amounts for both, by so many workers.
fn leaves_by<R: Threads + Sync, G: Gate>(
    rt: &R,
    alloc: Global,
    base: &[Amount],
    bound: u64,
    workers: u32,
    gate: &G,
) -> Result<Option<Objection>, Fail>
    requires { (1 ≤ workers) × (workers ≤ most_workers) }
{
    let evidence = pair(alloc, Event::Last, base, [1, 3], &OWN)?;
    let system = tree(alloc)?;
    Ok(judge_evidence_by(rt, alloc, &system, &evidence, bound, workers, gate)?)
}

// And against these two tasks with these amounts.
fn tasks_of_tree(
    alloc: Global,
    tasks: [u32; 2],
    base: &[Amount],
) -> Result<Option<Objection>, Fail> {
    let evidence = pair(alloc, Event::Last, base, tasks, &[])?;
    Ok(judge_evidence(alloc, &tree(alloc)?, &evidence, 10)?)
}

// And against the leaves of the fan.
fn fan_leaves(alloc: Global, event: Event, bound: u64) -> Result<Option<Objection>, Fail> {
    let base = [told(1, 1), told(2, 1), told(3, 1), told(4, 1)];
    let evidence = pair(alloc, event, &base, [1, 3], &[])?;
    Ok(judge_evidence(alloc, &fan(alloc)?, &evidence, bound)?)
}

// And against task 3 of the diamond, as the first of itself.
fn third(alloc: Global, base: &[Amount]) -> Result<Option<Objection>, Fail> {
    let evidence = single(alloc, Event::First, base, 3)?;
    Ok(judge_evidence(alloc, &diamond(alloc)?, &evidence, 10)?)
}

// And against what is there at the start of a system without tasks, of which 7 is.
fn start(alloc: Global, bound: u64) -> Result<Option<Objection>, Fail> {
    let system = shared_system_of_arrays(alloc, &[], &[item(7, 0, 0)], &[])?;
    Ok(judge_evidence(alloc, &system, &Evidence::Start, bound)?)
}

// And against the need of a task of the diamond.
fn need(alloc: Global, task: u32, bound: u64) -> Result<Option<Objection>, Fail> {
    Ok(judge_evidence(alloc, &diamond(alloc)?, &Evidence::Need(task), bound)?)
}

fn failing(test: BlockerTest, place: u64) -> Option<Objection> {
    Some(Objection::Blocker { test, place })
}

// One of the leaves starts last. Then the other has run, and at least 1 is there of what it made, or of what is made of that.
const OWN: [Amount; 4] = [
    Amount {
        place: 1,
        amount: 0,
    },
    Amount {
        place: 2,
        amount: 0,
    },
    Amount {
        place: 3,
        amount: 1,
    },
    Amount {
        place: 4,
        amount: 1,
    },
];

#[test]
fn the_least_peak_of_a_tree(rt: HostRuntime) -> Result<(), Fail> {
    assert_eq!(rt; leaves(rt.alloc(), Event::Last, &OWN, 11)?, None);
    assert_eq!(rt;
        leaves(rt.alloc(), Event::Last, &OWN, 12)?,
        failing(BlockerTest::Level, 1)
    );
    Ok(())
}

#[test]
fn the_first_of_a_set_is_not_the_last(rt: HostRuntime) -> Result<(), Fail> {
    assert_eq!(rt; fan_leaves(rt.alloc(), Event::First, 11)?, None);
    assert_eq!(rt;
        fan_leaves(rt.alloc(), Event::Last, 11)?,
        failing(BlockerTest::Level, 1)
    );
    assert_eq!(rt;
        leaves(rt.alloc(), Event::First, &OWN, 11)?,
        failing(BlockerTest::Level, 1)
    );
    Ok(())
}

#[test]
fn an_open_task_lowers_nothing(rt: HostRuntime) -> Result<(), Fail> {
    // Task 4 takes 1 up and leaves nothing; then it leaves more than it takes up, which is 1 below 0.
    let falls = [told(1, 0), told(2, 0), told(3, 1)];
    assert_eq!(rt;
        leaves(rt.alloc(), Event::Last, &falls, 11)?,
        failing(BlockerTest::Open, 1)
    );
    let below = [told(1, 0), told(2, 0), told(3, -1), told(4, 0)];
    assert_eq!(rt; leaves(rt.alloc(), Event::Last, &below, 9)?, None);
    assert_eq!(rt;
        leaves(rt.alloc(), Event::Last, &below, 10)?,
        failing(BlockerTest::Level, 1)
    );
    Ok(())
}

#[test]
fn amounts_are_told_of_uses_in_order(rt: HostRuntime) -> Result<(), Fail> {
    let alloc = rt.alloc();
    let amounts = failing(BlockerTest::Amounts, 1);
    let turned = [told(2, 0), told(1, 0)];
    assert_eq!(rt; leaves(alloc, Event::Last, &turned, 11)?, amounts);
    assert_eq!(rt; leaves(alloc, Event::Last, &[told(0, 0)], 11)?, amounts);
    assert_eq!(rt; leaves(alloc, Event::Last, &[told(6, 0)], 11)?, amounts);
    let least = [told(1, i64::MIN)];
    assert_eq!(rt; leaves(alloc, Event::Last, &least, 11)?, amounts);
    Ok(())
}

#[test]
fn tasks_of_a_set_rise(rt: HostRuntime) -> Result<(), Fail> {
    let alloc = rt.alloc();
    assert_eq!(rt; tasks_of_tree(alloc, [1, 3], &[])?, None);
    assert_eq!(rt;
        tasks_of_tree(alloc, [3, 3], &[])?,
        failing(BlockerTest::Rising, 2)
    );
    assert_eq!(rt;
        tasks_of_tree(alloc, [3, 6], &[])?,
        failing(BlockerTest::Task, 2)
    );
    assert_eq!(rt;
        tasks_of_tree(alloc, [1, 3], &[told(6, 1)])?,
        Some(Objection::Base)
    );
    Ok(())
}

#[test]
fn a_set_without_tasks_says_nothing(rt: HostRuntime) -> Result<(), Fail> {
    let alloc = rt.alloc();
    let set = EventSet::new(Event::Last, Vec::new(alloc), Vec::new(alloc));
    let judged = judge_evidence(alloc, &tree(alloc)?, &Evidence::Set(set), 0)?;
    assert_eq!(rt; judged, Some(Objection::Empty));
    Ok(())
}

#[test]
fn the_uses_of_an_item_share_its_size(rt: HostRuntime) -> Result<(), Fail> {
    let alloc = rt.alloc();
    assert_eq!(rt; third(alloc, &[told(2, 5)])?, None);
    assert_eq!(rt; third(alloc, &[told(1, 1), told(2, 4), told(3, 1)])?, None);
    assert_eq!(rt;
        third(alloc, &[told(1, 1), told(2, 5), told(3, 1)])?,
        failing(BlockerTest::Sizes, 1)
    );
    // Task 2 takes up what it does not leave.
    assert_eq!(rt; third(alloc, &[told(1, 5)])?, failing(BlockerTest::Open, 1));
    assert_eq!(rt;
        third(alloc, &[told(1, -1), told(2, 5)])?,
        failing(BlockerTest::Level, 1)
    );
    Ok(())
}

#[test]
fn a_task_reads_and_needs_so_much(rt: HostRuntime) -> Result<(), Fail> {
    let alloc = rt.alloc();
    // Task 3 reads 5, and needs 2 and makes 3. Task 4 reads 4, needs 2 and makes 2, of which it takes 1 over.
    assert_eq!(rt; need(alloc, 3, 10)?, None);
    assert_eq!(rt; need(alloc, 3, 11)?, Some(Objection::Low));
    assert_eq!(rt; need(alloc, 4, 7)?, None);
    assert_eq!(rt; need(alloc, 4, 8)?, Some(Objection::Low));
    assert_eq!(rt; need(alloc, 0, 0)?, Some(Objection::NoTask));
    assert_eq!(rt; need(alloc, 5, 0)?, Some(Objection::NoTask));
    Ok(())
}

#[test]
fn so_much_is_there_at_the_start(rt: HostRuntime) -> Result<(), Fail> {
    let alloc = rt.alloc();
    assert_eq!(rt; start(alloc, 7)?, None);
    assert_eq!(rt; start(alloc, 8)?, Some(Objection::Low));
    // What tasks make is not there yet.
    let made = tree(alloc)?;
    assert_eq!(rt; judge_evidence(alloc, &made, &Evidence::Start, 0)?, None);
    assert_eq!(rt;
        judge_evidence(alloc, &made, &Evidence::Start, 1)?,
        Some(Objection::Low)
    );
    Ok(())
}

#[test]
fn workers_say_the_same(rt: HostRuntime) -> Result<(), Fail> {
    let alloc = rt.alloc();
    for workers in [1, 2, 3, 4096] {
        let base = [told(1, 1), told(2, 1)];
        assert_eq!(rt; leaves_by(&rt, alloc, &base, 11, workers, &NoGate)?, None);
        assert_eq!(rt;
            leaves_by(&rt, alloc, &base, 12, workers, &NoGate)?,
            failing(BlockerTest::Level, 1)
        );
        // The second has no amounts then.
        assert_eq!(rt;
            leaves_by(&rt, alloc, &[], 11, workers, &NoGate)?,
            failing(BlockerTest::Level, 2)
        );
        assert_eq!(rt;
            leaves_by(&rt, alloc, &[told(6, 1)], 11, workers, &NoGate)?,
            Some(Objection::Base)
        );
    }
    Ok(())
}

#[test]
fn workers_judge_needs_and_the_start(rt: HostRuntime) -> Result<(), Fail> {
    let alloc = rt.alloc();
    let system = diamond(alloc)?;
    let third = Evidence::Need(3);
    assert_eq!(rt;
        judge_evidence_by(&rt, alloc, &system, &third, 10, 4, &NoGate)?,
        None
    );
    assert_eq!(rt;
        judge_evidence_by(&rt, alloc, &system, &third, 11, 4, &NoGate)?,
        Some(Objection::Low)
    );
    let start = Evidence::Start;
    assert_eq!(rt;
        judge_evidence_by(&rt, alloc, &system, &start, 0, 4, &NoGate)?,
        None
    );
    assert_eq!(rt;
        judge_evidence_by(&rt, alloc, &system, &start, 1, 4, &NoGate)?,
        Some(Objection::Low)
    );
    Ok(())
}

// Counts how often chunks were entered, and sets a bit for each.
#[derive(Drop)]
struct Counts {
    entered: AtomicU32,
    numbers: AtomicU32,
}

impl Gate for Counts {
    fn enter(&self, chunk: u32) {
        self.entered.fetch_add(1, Ordering::SeqCst);
        self.numbers
            .fetch_or(1u32.wrapping_shl(chunk), Ordering::SeqCst);
    }
}

#[test]
fn each_chunk_is_entered_once(rt: HostRuntime) -> Result<(), Fail> {
    for (workers, chunks) in [(1, 1), (2, 2), (4096, 2)] {
        let gate = Counts {
            entered: AtomicU32::new(0),
            numbers: AtomicU32::new(0),
        };
        let base = [told(1, 1), told(2, 1)];
        assert_eq!(rt;
            leaves_by(&rt, rt.alloc(), &base, 11, workers, &gate)?,
            None
        );
        assert_eq!(rt; gate.entered.load(Ordering::SeqCst), chunks);
        assert_eq!(rt;
            gate.numbers.load(Ordering::SeqCst),
            1u32.wrapping_shl(chunks) - 1
        );
    }
    Ok(())
}
