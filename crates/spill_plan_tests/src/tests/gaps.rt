//! Items with several readers: amounts of the gaps between uses, by hand and by trial.

ghost use Rattle.std.specs.Prelude.{◌<◌, length};

use mp_system::{GivenTask, OrderFault, OrderKind};
use shared_systems::{
    GivenSharedItem, SharedItems, SharedRefusal, SharedSystem, shared_system_of_arrays,
};
use spill_plan::{NoMemory, SpillRefusal, spill_gaps};
use std::alloc::Global;
use std::process::Abort;
use std::rt::HostRuntime;
use std::test::Fail;

fn task(extra: u64) -> GivenTask {
    GivenTask {
        extra,
        share: 0,
        time: 1,
    }
}

// An item that so many tasks read.
fn item(size: u64, from: u32, readers: u32) -> GivenSharedItem {
    GivenSharedItem {
        size,
        from,
        readers,
    }
}

// Tasks 2 and 4 read the 5 that task 1 makes; task 3, which needs 6, runs between them.
fn broadcast(alloc: Global) -> Result<SharedSystem, SharedRefusal> {
    let tasks = [task(0), task(1), task(6), task(0)];
    let items = [item(5, 1, 2), item(1, 2, 1), item(2, 3, 1), item(1, 4, 0)];
    shared_system_of_arrays(alloc, &tasks, &items, &[2, 4, 3, 4])
}

// Tasks 1 and 3 read 7 that are there from the start; 4 more are read by none and stay.
fn stocked(alloc: Global) -> Result<SharedSystem, SharedRefusal> {
    let tasks = [task(2), task(5), task(1)];
    shared_system_of_arrays(alloc, &tasks, &[item(7, 0, 2), item(4, 0, 0)], &[1, 3])
}

// Tasks 3 and 5 read the 5 that task 1 makes; before each of them runs a task with a need.
fn relay(alloc: Global) -> Result<SharedSystem, SharedRefusal> {
    let tasks = [task(0), task(6), task(0), task(8), task(0)];
    shared_system_of_arrays(alloc, &tasks, &[item(5, 1, 2)], &[3, 5])
}

// An order, a bound, the least volume, and the amounts of the gaps.
type Spilled = (&'static [u32], u64, u64, &'static [u64]);

// The steps need 5, 7, 9 and 8 for themselves; the 5 are held across the third.
const OF_BROADCAST: &[Spilled] = &[
    (&[1, 2, 3, 4], 14, 0, &[0, 0, 0, 0, 0]),
    (&[1, 2, 3, 4], 11, 3, &[0, 3, 0, 0, 0]),
    (&[1, 2, 3, 4], 9, 5, &[0, 5, 0, 0, 0]),
    (&[1, 2, 3, 4], u64::MAX, 0, &[0, 0, 0, 0, 0]),
];

// In the first order the steps need 9, 5 and 8 for themselves, beside 4, 11 and 4; in the second 8, 9 and 5, beside 4 each.
const OF_STOCKED: &[Spilled] = &[
    (&[1, 2, 3], 16, 0, &[0, 0, 0]),
    (&[1, 2, 3], 13, 3, &[0, 0, 3]),
    (&[1, 2, 3], 11, 5, &[0, 1, 4]),
    (&[1, 2, 3], 9, 7, &[0, 3, 4]),
    (&[3, 1, 2], 13, 0, &[0, 0, 0]),
    (&[3, 1, 2], 12, 1, &[0, 0, 1]),
];

// What is written before the first reader is written again before the second: together more than the item's size.
const OF_RELAY: &[Spilled] = &[
    (&[1, 2, 3, 4, 5], 13, 0, &[0, 0]),
    (&[1, 2, 3, 4, 5], 9, 6, &[2, 4]),
    (&[1, 2, 3, 4, 5], 8, 8, &[3, 5]),
    (&[1, 2, 5, 4, 3], 8, 8, &[5, 3]),
    (&[1, 2, 4, 3, 5], 8, 5, &[5, 0]),
];

fn check_spilled(
    rt: &impl Abort,
    alloc: Global,
    system: &SharedSystem,
    rows: &[Spilled],
) -> Result<(), Fail> {
    for (order, bound, volume, amounts) in rows {
        let found = spill_gaps(alloc, system, order, *bound)?;
        assert_eq!(rt; found.volume, *volume, "{order:?} {bound}");
        assert_eq!(rt; found.amounts.as_slice(), *amounts, "{order:?} {bound}");
    }
    Ok(())
}

#[test]
fn an_item_goes_to_disk_between_its_readers(rt: HostRuntime) -> Result<(), Fail> {
    let system = broadcast(rt.alloc())?;
    check_spilled(&rt, rt.alloc(), &system, OF_BROADCAST)
}

#[test]
fn an_item_that_no_task_reads_goes_first(rt: HostRuntime) -> Result<(), Fail> {
    let system = stocked(rt.alloc())?;
    check_spilled(&rt, rt.alloc(), &system, OF_STOCKED)
}

#[test]
fn an_item_is_read_back_for_each_reader(rt: HostRuntime) -> Result<(), Fail> {
    let system = relay(rt.alloc())?;
    check_spilled(&rt, rt.alloc(), &system, OF_RELAY)
}

// An order, a bound, and how the two are refused.
type Refused = (&'static [u32], u64, SpillRefusal);

#[rattlefmt::skip]
const REFUSED_OF_BROADCAST: &[Refused] = &[
    (&[1, 2, 3, 4], 8, SpillRefusal::WorkingSet { step: 3, need: 9, bound: 8 }),
    (&[1, 2, 3, 4], 6, SpillRefusal::WorkingSet { step: 2, need: 7, bound: 6 }),
    (&[1, 2, 3, 4], 0, SpillRefusal::WorkingSet { step: 1, need: 5, bound: 0 }),
    (&[1, 1], 0, SpillRefusal::Order(OrderFault { place: 2, kind: OrderKind::Repeated })),
    (&[1, 3, 2, 4], 0, SpillRefusal::Order(OrderFault { place: 2, kind: OrderKind::TooEarly })),
    (&[1, 2, 3], 99, SpillRefusal::Order(OrderFault { place: 4, kind: OrderKind::Missing })),
    (&[9], 99, SpillRefusal::Order(OrderFault { place: 1, kind: OrderKind::Unknown })),
];

#[test]
fn orders_and_needs_are_refused(rt: HostRuntime) -> Result<(), Fail> {
    let system = broadcast(rt.alloc())?;
    for &(order, bound, refusal) in REFUSED_OF_BROADCAST {
        assert_eq!(rt;
            spill_gaps(rt.alloc(), &system, order, bound).err(),
            Some(refusal)
        );
    }
    Ok(())
}

// ---- by trial

// Where a task stands; past the end if it does not.
fn place_of(order: &[u32], task: u32) -> usize {
    order
        .iter()
        .position(|other| *other == task)
        .unwrap_or(order.len())
}

// The step after the last use of an item before a place, or after its producer's.
fn use_before(items: &SharedItems, i: usize, order: &[u32], end: usize) -> usize
    requires { i < length items.now }
{
    let mut start = match items.producer(i) {
        None => 0,
        Some(producer) => place_of(order, producer).saturating_add(1),
    };
    for reader in items.readers(i) {
        let place = place_of(order, *reader);
        if place < end {
            start = start.max(place.saturating_add(1));
        }
    }
    start
}

// A gap between two uses of an item.
#[derive(Clone, Copy)]
struct Gap {
    size: u64,
    start: usize,
    end: usize,
}

// The gaps of all items.
fn gaps_along(alloc: Global, items: &SharedItems, order: &[u32]) -> Result<Vec<Gap>, NoMemory> {
    let mut gaps = Vec::new(alloc);
    for i in 0..items.len() {
        let size = items.size(i);
        for reader in items.readers(i) {
            let end = place_of(order, *reader);
            let start = use_before(items, i, order, end);
            gaps.push(Gap { size, start, end })?;
        }
        if items.readers(i).is_empty() {
            let end = order.len();
            let start = use_before(items, i, order, end);
            gaps.push(Gap { size, start, end })?;
        }
    }
    Ok(gaps)
}

// What a task reads and makes, and its extra.
fn own_need(system: &SharedSystem, task: u32) -> u64 {
    let mut need = match system.tasks().get((task as usize).wrapping_sub(1)) {
        Some(task) => task.extra,
        None => u64::MAX,
    };
    let items = system.items();
    for i in 0..items.len() {
        if items.producer(i) == Some(task) || items.readers(i).contains(&task) {
            need = need.saturating_add(items.size(i));
        }
    }
    need
}

// Whether all steps fit with these amounts on disk, none of them above its item's size.
fn fits(system: &SharedSystem, order: &[u32], gaps: &[Gap], bound: u64, amounts: &[u64]) -> bool {
    for (gap, amount) in gaps.iter().zip(amounts) {
        if *amount > gap.size {
            return false;
        }
    }
    for (step, task) in order.iter().enumerate() {
        let mut memory = own_need(system, *task);
        for (gap, amount) in gaps.iter().zip(amounts) {
            if gap.start <= step && step < gap.end {
                memory = memory.saturating_add(gap.size.saturating_sub(*amount));
            }
        }
        if memory > bound {
            return false;
        }
    }
    true
}

// The least volume of four amounts of at most 3 that fit, if any do.
fn least_by_trial(system: &SharedSystem, order: &[u32], gaps: &[Gap], bound: u64) -> Option<u64> {
    let mut least: Option<u64> = None;
    for code in 0..256u64 {
        let amounts = [code % 4, code / 4 % 4, code / 16 % 4, code / 64 % 4];
        if fits(system, order, gaps, bound, &amounts) {
            let volume = amounts[0] + amounts[1] + amounts[2] + amounts[3];
            least = Some(least.unwrap_or(volume).min(volume));
        }
    }
    least
}

// Two tasks read what the first makes, one reads an input, and makes a result that stays.
fn shared(alloc: Global) -> Result<SharedSystem, SharedRefusal> {
    let tasks = [task(1), task(2), task(3), task(0)];
    let items = [item(3, 1, 2), item(2, 0, 1), item(1, 3, 0)];
    shared_system_of_arrays(alloc, &tasks, &items, &[2, 4, 3])
}

#[test]
fn volumes_of_gaps_as_by_trial(rt: HostRuntime) -> Result<(), Fail> {
    let alloc = rt.alloc();
    let system = shared(alloc)?;
    let orders: [&[u32]; 6] = [
        &[1, 2, 3, 4],
        &[1, 3, 2, 4],
        &[3, 1, 2, 4],
        &[1, 4, 3, 2],
        &[1, 4, 2, 3],
        &[3, 1, 4, 2],
    ];
    for order in orders {
        let gaps = gaps_along(alloc, system.items(), order)?;
        for bound in 0..14 {
            let found = spill_gaps(alloc, &system, order, bound)
                .ok()
                .map(|spill| spill.volume);
            let tried = least_by_trial(&system, order, &gaps, bound);
            assert_eq!(rt; found, tried, "{order:?} {bound}");
        }
    }
    Ok(())
}
