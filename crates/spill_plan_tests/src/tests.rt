ghost use Rattle.std.specs.Prelude.{◌≡◌};

mod gaps;
mod plain;

use mp_system::{Item, OrderFault, OrderKind, System, Task};
use spill_plan::{NoMemory, SpillRefusal, spill};
use std::alloc::Global;
use std::process::Abort;
use std::rt::HostRuntime;
use std::test::Fail;

pub fn task(extra: u64, share: u64) -> Task
    ensures { result ≡ record { extra = extra; share = share; time = 1 } }
{
    Task {
        extra,
        share,
        time: 1,
    }
}

pub fn item(size: u64, from: Option<u32>, to: Option<u32>) -> Item
    ensures { result ≡ record { size = size; from = from; to = to } }
{
    Item { size, from, to }
}

// 5 has the children 2 and 4, which have the children 1 and 3; 1 and 3 need 9 beside what they produce.
fn tree(alloc: Global) -> Result<System, NoMemory> {
    let tasks = vec![in alloc; task(9, 0), task(0, 0), task(9, 0), task(0, 0), task(0, 0)]?;
    let items = vec![in alloc;
        item(1, Some(1), Some(2)),
        item(5, Some(2), Some(5)),
        item(1, Some(3), Some(4)),
        item(5, Some(4), Some(5)),
        item(0, Some(5), None),
    ]?;
    Ok(System::new(tasks, items))
}

// Two tasks in a row. Beside them one item is there from the start until the second takes it up, and one stays throughout; the first task
// leaves one that stays to the end. The first task takes nothing up.
fn stocked(alloc: Global) -> Result<System, NoMemory> {
    let tasks = vec![in alloc; task(4, 0), task(6, 2)]?;
    let items = vec![in alloc;
        item(3, Some(1), Some(2)),
        item(7, None, Some(2)),
        item(2, None, None),
        item(8, Some(1), None),
    ]?;
    Ok(System::new(tasks, items))
}

// Two tasks in a row, the second with the greater need. An item of size 3 stays throughout.
fn still(alloc: Global) -> Result<System, NoMemory> {
    let tasks = vec![in alloc; task(0, 0), task(5, 0)]?;
    let items = vec![in alloc; item(2, Some(1), Some(2)), item(3, None, None)]?;
    Ok(System::new(tasks, items))
}

// An order, a bound, the least volume, and the amounts.
type Spilled = (&'static [u32], u64, u64, &'static [u64]);

const OF_TREE: &[Spilled] = &[
    (&[1, 2, 3, 4, 5], 15, 0, &[0, 0, 0, 0, 0]),
    (&[1, 2, 3, 4, 5], 11, 4, &[0, 4, 0, 0, 0]),
    (&[1, 2, 3, 4, 5], 10, 5, &[0, 5, 0, 0, 0]),
    (&[1, 3, 2, 4, 5], 11, 0, &[0, 0, 0, 0, 0]),
    (&[1, 3, 2, 4, 5], 10, 2, &[1, 1, 0, 0, 0]),
    (&[1, 2, 3, 4, 5], u64::MAX, 0, &[0, 0, 0, 0, 0]),
];

// At the first step there are 15 and the 7 and 2 that are there, at the second 14 and 2 and 8.
const OF_STOCKED: &[Spilled] = &[
    (&[1, 2], 24, 0, &[0, 0, 0, 0]),
    (&[1, 2], 23, 1, &[0, 0, 1, 0]),
    (&[1, 2], 22, 2, &[0, 0, 2, 0]),
    (&[1, 2], 21, 4, &[0, 1, 2, 1]),
    (&[1, 2], 15, 16, &[0, 7, 2, 7]),
];

const OF_STILL: &[Spilled] = &[
    (&[1, 2], 10, 0, &[0, 0]),
    (&[1, 2], 9, 1, &[0, 1]),
    (&[1, 2], 7, 3, &[0, 3]),
    (&[1, 2], u64::MAX, 0, &[0, 0]),
];

fn check_spilled(
    rt: &impl Abort,
    alloc: Global,
    system: &System,
    rows: &[Spilled],
) -> Result<(), Fail> {
    for (order, bound, volume, amounts) in rows {
        let found = spill(alloc, system, order, *bound)?;
        assert_eq!(rt; found.volume, *volume, "{order:?} {bound}");
        assert_eq!(rt; found.amounts.as_slice(), *amounts, "{order:?} {bound}");
    }
    Ok(())
}

#[test]
fn volumes_and_amounts_of_a_tree(rt: HostRuntime) -> Result<(), Fail> {
    let system = tree(rt.alloc())?;
    check_spilled(&rt, rt.alloc(), &system, OF_TREE)
}

#[test]
fn volumes_where_items_are_there_from_the_start(rt: HostRuntime) -> Result<(), Fail> {
    let system = stocked(rt.alloc())?;
    check_spilled(&rt, rt.alloc(), &system, OF_STOCKED)
}

#[test]
fn volumes_where_an_item_stays(rt: HostRuntime) -> Result<(), Fail> {
    let system = still(rt.alloc())?;
    check_spilled(&rt, rt.alloc(), &system, OF_STILL)
}

// An order, a bound, and how the two are refused, also in words.
type Refused = (&'static [u32], u64, SpillRefusal, &'static str);

#[rattlefmt::skip]
const REFUSED_OF_TREE: &[Refused] = &[
    (&[1, 2, 3, 4, 5], 9, SpillRefusal::WorkingSet { step: 1, need: 10, bound: 9 }, "working-set 1 10 9"),
    (&[1, 3, 2, 4, 5], 0, SpillRefusal::WorkingSet { step: 1, need: 10, bound: 0 }, "working-set 1 10 0"),
    (&[1, 1], 0, SpillRefusal::Order(OrderFault { place: 2, kind: OrderKind::Repeated }), "repeated at place 2"),
    (&[2, 1, 3, 4, 5], 0, SpillRefusal::Order(OrderFault { place: 1, kind: OrderKind::TooEarly }), "too-early at place 1"),
    (&[1, 2, 3, 4], 0, SpillRefusal::Order(OrderFault { place: 5, kind: OrderKind::Missing }), "missing at place 5"),
    (&[9], 99, SpillRefusal::Order(OrderFault { place: 1, kind: OrderKind::Unknown }), "unknown at place 1"),
];

#[rattlefmt::skip]
const REFUSED_OF_STOCKED: &[Refused] = &[
    (&[1, 2], 14, SpillRefusal::WorkingSet { step: 1, need: 15, bound: 14 }, "working-set 1 15 14"),
];

#[rattlefmt::skip]
const REFUSED_OF_STILL: &[Refused] = &[
    (&[1, 2], 6, SpillRefusal::WorkingSet { step: 2, need: 7, bound: 6 }, "working-set 2 7 6"),
    (&[1, 2], 1, SpillRefusal::WorkingSet { step: 1, need: 2, bound: 1 }, "working-set 1 2 1"),
    (&[], 0, SpillRefusal::Order(OrderFault { place: 1, kind: OrderKind::Missing }), "missing at place 1"),
];

fn check_refused(
    rt: &impl Abort,
    alloc: Global,
    system: &System,
    rows: &[Refused],
) -> Result<(), Fail> {
    for &(order, bound, refusal, text) in rows {
        assert_eq!(rt; spill(alloc, system, order, bound).err(), Some(refusal));
        assert_eq!(rt; format!(in alloc; "{refusal}")?.as_str(), text);
    }
    Ok(())
}

#[test]
fn refusals_of_a_tree(rt: HostRuntime) -> Result<(), Fail> {
    let system = tree(rt.alloc())?;
    check_refused(&rt, rt.alloc(), &system, REFUSED_OF_TREE)
}

#[test]
fn refusals_where_items_are_there_from_the_start(rt: HostRuntime) -> Result<(), Fail> {
    let system = stocked(rt.alloc())?;
    check_refused(&rt, rt.alloc(), &system, REFUSED_OF_STOCKED)
}

#[test]
fn refusals_where_an_item_stays(rt: HostRuntime) -> Result<(), Fail> {
    let system = still(rt.alloc())?;
    check_refused(&rt, rt.alloc(), &system, REFUSED_OF_STILL)
}

#[test]
fn want_of_memory_is_told(rt: HostRuntime) -> Result<(), Fail> {
    let refusal = SpillRefusal::NoMemory;
    assert_eq!(rt; format!(in rt.alloc(); "{refusal}")?.as_str(), "no memory");
    Ok(())
}
