//! The least volume by trial of all amounts, to compare with.

ghost use Rattle.std.specs.Prelude.{◌<◌, length};

use crate::tests::{item, task};
use mp_system::{Item, System};
use spill_plan::{NoMemory, spill};
use std::alloc::Global;
use std::rt::HostRuntime;
use std::test::Fail;

// Whether the producer stands before the step, and the consumer after it.
fn is_held(order: &[u32], step: usize, item: Item) -> bool
    requires { step < length order.now }
{
    let produced = item.from.is_none_or(|task| order[..step].contains(&task));
    let consumed = item
        .to
        .is_some_and(|task| order[..step + 1].contains(&task));
    produced && !consumed
}

// The memory while a step runs: the items that its task produces or consumes, and what is not on disk of those that are held across it.
fn memory_at(system: &System, order: &[u32], step: usize, amounts: &[u64]) -> u64
    requires { step < length order.now }
{
    let task = order[step];
    let mut memory: u64 = 0;
    for (item, amount) in system.items().iter().zip(amounts) {
        if item.from == Some(task) || item.to == Some(task) {
            memory = memory.saturating_add(item.size);
        } else if is_held(order, step, *item) {
            memory = memory.saturating_add(item.size.saturating_sub(*amount));
        }
    }
    match system.tasks().get((task as usize).wrapping_sub(1)) {
        Some(task) => memory.saturating_add(task.extra).saturating_sub(task.share),
        None => u64::MAX,
    }
}

// Whether all steps fit with these amounts on disk, none of them above its item's size.
fn fits(system: &System, order: &[u32], bound: u64, amounts: &[u64]) -> bool {
    for (item, amount) in system.items().iter().zip(amounts) {
        if *amount > item.size {
            return false;
        }
    }
    for step in 0..order.len() {
        if memory_at(system, order, step, amounts) > bound {
            return false;
        }
    }
    true
}

// The least volume of four amounts of at most 3 that fit, if any do.
fn least_by_trial(system: &System, order: &[u32], bound: u64) -> Option<u64> {
    let mut least: Option<u64> = None;
    for code in 0..256u64 {
        let amounts = [code % 4, code / 4 % 4, code / 16 % 4, code / 64 % 4];
        if fits(system, order, bound, &amounts) {
            let volume = amounts[0] + amounts[1] + amounts[2] + amounts[3];
            least = Some(least.unwrap_or(volume).min(volume));
        }
    }
    least
}

// Two branches that the last task joins, and one beside them that takes up an item from the start and leaves one to the end.
fn fork(alloc: Global) -> Result<System, NoMemory> {
    let tasks = vec![in alloc; task(1, 0), task(0, 0), task(2, 0), task(1, 1)]?;
    let items = vec![in alloc;
        item(3, Some(1), Some(4)),
        item(2, Some(2), Some(4)),
        item(3, None, Some(3)),
        item(1, Some(3), None),
    ]?;
    Ok(System::new(tasks, items))
}

// Three tasks in a row, of which the first serves the last too.
fn chain(alloc: Global) -> Result<System, NoMemory> {
    let tasks = vec![in alloc; task(1, 0), task(2, 1), task(0, 0)]?;
    let items = vec![in alloc;
        item(2, Some(1), Some(2)),
        item(3, Some(1), Some(3)),
        item(2, None, Some(3)),
        item(3, Some(2), None),
    ]?;
    Ok(System::new(tasks, items))
}

#[test]
fn volumes_as_by_trial(rt: HostRuntime) -> Result<(), Fail> {
    let alloc = rt.alloc();
    let (fork, chain) = (fork(alloc)?, chain(alloc)?);
    let rows: [(&System, &[u32]); 7] = [
        (&fork, &[1, 2, 3, 4]),
        (&fork, &[3, 2, 1, 4]),
        (&fork, &[2, 1, 4, 3]),
        (&fork, &[1, 3, 2, 4]),
        (&fork, &[2, 3, 1, 4]),
        (&fork, &[1, 2, 4, 3]),
        (&chain, &[1, 2, 3]),
    ];
    for (system, order) in rows {
        for bound in 0..16 {
            let found = spill(alloc, system, order, bound)
                .ok()
                .map(|spill| spill.volume);
            let tried = least_by_trial(system, order, bound);
            assert_eq!(rt; found, tried, "{order:?} {bound}");
        }
    }
    Ok(())
}
