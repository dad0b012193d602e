//! Random small systems: the simulator beside the plain one.

ghost use Rattle.std.specs.Prelude.{◌<◌};

use crate::tests::plain::Given;
use crate::tests::rows::compare;
use crate::tests::systems::{item, made, task};
use activation::NoMemory;
use mp_system::GivenTask;
use rand_core::utils::NextWord;
use rand_pcg::Pcg32;
use shared_systems::{GivenSharedItem, SharedSystem};
use std::alloc::Global;
use std::process::Abort;
use std::rt::HostRuntime;
use std::test::Fail;

// A number below n.
fn below(dice: &mut Pcg32, n: u32) -> u32
    requires { 0 < n }
    ensures { result < n }
{
    dice.next_word() % n
}

fn random_task(dice: &mut Pcg32) -> GivenTask {
    task(u64::from(below(dice, 10)), 0, u64::from(1 + below(dice, 4)))
}

// The later of six tasks, each once in two times; at most so many.
fn push_readers(
    dice: &mut Pcg32,
    readers: &mut Vec<u32>,
    from: u32,
    most: u32,
) -> Result<u32, NoMemory> {
    let mut count: u32 = 0;
    for reader in 2..7u32 {
        if reader > from && count < most && below(dice, 2) == 0 {
            readers.push(reader)?;
            count = count.saturating_add(1);
        }
    }
    Ok(count)
}

// An item of a producer, or of none; later tasks read it.
fn random_item(
    dice: &mut Pcg32,
    readers: &mut Vec<u32>,
    from: u32,
    most: u32,
) -> Result<GivenSharedItem, NoMemory> {
    let size = u64::from(below(dice, 10));
    let count = push_readers(dice, readers, from, most)?;
    Ok(item(size, from, count))
}

// Six tasks, an input, and an item of each of the first five tasks, each with at most so many readers.
fn random_system(alloc: Global, dice: &mut Pcg32, most: u32) -> Result<SharedSystem, Fail> {
    let mut tasks = Vec::new(alloc);
    let mut items = Vec::new(alloc);
    let mut readers = Vec::new(alloc);
    for from in 0..6u32 {
        tasks.push(random_task(dice))?;
        items.push(random_item(dice, &mut readers, from, most)?)?;
    }
    made(alloc, &tasks, &items, &readers)
}

// The numbers 1 to 6 in random order.
fn shuffled(dice: &mut Pcg32) -> [u32; 6] {
    let mut numbers = [1, 2, 3, 4, 5, 6];
    for i in 1..numbers.len() {
        let other = below(dice, i as u32 + 1) as usize;
        (numbers[i], numbers[other]) = (numbers[other], numbers[i]);
    }
    numbers
}

// This order, where it is a traversal, or the one that always is.
fn traversal(alloc: Global, system: &SharedSystem, order: [u32; 6]) -> [u32; 6] {
    if system.peak(alloc, &order).is_ok() {
        order
    } else {
        [1, 2, 3, 4, 5, 6]
    }
}

// A random system along a random order, by a random priority, within a bound of its peak or more.
fn compare_one(rt: &impl Abort, alloc: Global, dice: &mut Pcg32, most: u32) -> Result<(), Fail> {
    let system = random_system(alloc, dice, most)?;
    let order = traversal(alloc, &system, shuffled(dice));
    let priority = shuffled(dice);
    let peak = system.peak(alloc, &order)?;
    let given = Given {
        system: &system,
        order: &order,
        bound: peak.saturating_add(u64::from(below(dice, 20))),
        workers: 1 + below(dice, 3),
        priority: &priority,
    };
    let trace = compare(rt, alloc, given)?;
    assert!(rt; trace.used <= trace.booked && trace.booked <= given.bound);
    assert_eq!(rt; trace.events.len(), 18);
    Ok(())
}

#[test]
fn random_systems_run_as_the_rule_says(rt: HostRuntime) -> Result<(), Fail> {
    let mut dice = Pcg32::new(7, 11);
    for _ in 0..400u32 {
        compare_one(&rt, rt.alloc(), &mut dice, 6)?;
    }
    Ok(())
}

#[test]
fn random_systems_of_one_reader_run_as_the_rule_says(rt: HostRuntime) -> Result<(), Fail> {
    let mut dice = Pcg32::new(11, 7);
    for _ in 0..400u32 {
        compare_one(&rt, rt.alloc(), &mut dice, 1)?;
    }
    Ok(())
}
