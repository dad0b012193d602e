//! The memory that C gives for a core, and what each call does to it.

ghost use Rattle.std.specs.Prelude.{◌≡◌, ◌↔◌, ◌≤◌, IfOk, IfErr, IsTrue};
ghost use Rattle.limits.specs.Limits.{most_workers};
ghost use Rattle.mp_system.specs.System.{IsSystem};
ghost use Rattle.mp_system.specs.Given.{system_given};
ghost use Rattle.shared_systems.specs.Bounds.{IsSharedSystem};
ghost use Rattle.shared_systems.specs.Given.{shared_system_given};
ghost use Rattle.activation.specs.Machine.{IsSetting};
ghost use Rattle.activation.specs.declared.events.EventKind.TheVariants.{Start, Finish};
ghost use Rattle.trees.specs.Tree.{IsTree, system_of_nodes};
ghost use Rattle.c_calls.specs.Refusals.{IsBeginRefusal, IsSystemBeginRefusal, IsSharedBeginRefusal};
ghost use Rattle.c_calls.specs.Slots.{empty, core_setting, own_setting, core_at_start, begun, IsCoreBegun, activated, IsActivated};
ghost use Rattle.c_calls.specs.Slots.{IsNext, stepped, IsStarted, IsFinished, IsDone, used_in, booked_in};

use crate::faults::{Fault, refuse};
use crate::refusal::Refusal;
use crate::replays::system_of;
use activation::Core;
use limits::MOST_WORKERS;
use mp_system::{GivenItem, GivenTask, system_of_arrays};
use shared_systems::{GivenSharedItem, shared_system_of_arrays};
use std::alloc::Global;
use std::marker::Model;
use trees::Node;

/// Room for a core, which is empty until one begins.
#[derive(Drop)]
pub struct Slot {
    alloc: Global,
    core: Option<Core>,
}

impl Model for Slot {
    ghost use Rattle.c_calls.specs.Slots.{SlotValue};

    ghost Value = { SlotValue };

    ghost view = { λ s. record { core = s.core } };
}

/// An empty slot.
pub fn make(alloc: Global) -> Slot
    ensures { result ≡ empty }
{
    Slot { alloc, core: None }
}

/// Frees what a slot holds.
pub fn end(_slot: Slot) {}

// A yes is 1.
fn answer(yes: bool) -> u32
    ensures { (IsTrue yes ↔ (result ≡ 1)) × (result ≤ 1) }
{
    if yes { 1 } else { 0 }
}

fn core_of_tree(
    alloc: Global,
    nodes: &[Node],
    order: &[u32],
    bound: u64,
    workers: u32,
) -> Result<Core, Refusal>
    ensures core { IfOk result (λ core. core ≡ core_at_start (own_setting (system_of_nodes nodes.now) order.now bound workers)) }
    ensures tree { IfOk result (λ _. IsTree nodes.now) }
    ensures setting { IfOk result (λ core. IsSetting core.setting) }
    ensures few_workers { IfOk result (λ _. workers ≤ most_workers) }
    ensures refused { IfErr result (IsBeginRefusal nodes.now order.now bound workers) }
{
    if workers == 0 || workers > MOST_WORKERS {
        return Err(Refusal::Workers);
    }
    let system = system_of(alloc, nodes)?;
    let core = Core::of_system(alloc, &system, order, bound, workers)?;
    Ok(core)
}

/// Puts a core of a tree at its start into the slot: 0, or why there is none.
pub fn begin(
    slot: &mut Slot,
    nodes: &[Node],
    order: &[u32],
    bound: u64,
    workers: u32,
    fault: &mut Fault,
) -> u32
    ensures { (slot.new ≡ begun slot.old (own_setting (system_of_nodes nodes.now) order.now bound workers) result)
        × IsCoreBegun (IsTree nodes.now) (IsBeginRefusal nodes.now order.now bound workers)
        (own_setting (system_of_nodes nodes.now) order.now bound workers) result fault.old fault.new }
{
    match core_of_tree(slot.alloc, nodes, order, bound, workers) {
        Ok(core) => {
            slot.core = Some(core);
            0
        }
        Err(refusal) => refuse(refusal, fault),
    }
}

fn core_of_system(
    alloc: Global,
    tasks: &[GivenTask],
    items: &[GivenItem],
    order: &[u32],
    bound: u64,
    workers: u32,
) -> Result<Core, Refusal>
    ensures core { IfOk result (λ core. core ≡ core_at_start (own_setting (system_given tasks.now items.now) order.now bound workers)) }
    ensures system { IfOk result (λ _. IsSystem (system_given tasks.now items.now)) }
    ensures setting { IfOk result (λ core. IsSetting core.setting) }
    ensures few_workers { IfOk result (λ _. workers ≤ most_workers) }
    ensures refused { IfErr result (IsSystemBeginRefusal tasks.now items.now order.now bound workers) }
{
    if workers == 0 || workers > MOST_WORKERS {
        return Err(Refusal::Workers);
    }
    let system = system_of_arrays(alloc, tasks, items)?;
    let core = Core::of_system(alloc, &system, order, bound, workers)?;
    Ok(core)
}

/// Puts a core of a system at its start into the slot: 0, or why there is none.
pub fn begin_system(
    slot: &mut Slot,
    tasks: &[GivenTask],
    items: &[GivenItem],
    order: &[u32],
    bound: u64,
    workers: u32,
    fault: &mut Fault,
) -> u32
    ensures { (slot.new ≡ begun slot.old (own_setting (system_given tasks.now items.now) order.now bound workers) result)
        × IsCoreBegun (IsSystem (system_given tasks.now items.now)) (IsSystemBeginRefusal tasks.now items.now order.now bound workers)
        (own_setting (system_given tasks.now items.now) order.now bound workers) result fault.old fault.new }
{
    match core_of_system(slot.alloc, tasks, items, order, bound, workers) {
        Ok(core) => {
            slot.core = Some(core);
            0
        }
        Err(refusal) => refuse(refusal, fault),
    }
}

fn core_of_shared(
    alloc: Global,
    tasks: &[GivenTask],
    items: &[GivenSharedItem],
    readers: &[u32],
    order: &[u32],
    bound: u64,
    workers: u32,
) -> Result<Core, Refusal>
    ensures core { IfOk result (λ core.
        core ≡ core_at_start (core_setting (shared_system_given tasks.now items.now readers.now) order.now bound workers)) }
    ensures system { IfOk result (λ _. IsSharedSystem (shared_system_given tasks.now items.now readers.now)) }
    ensures setting { IfOk result (λ core. IsSetting core.setting) }
    ensures few_workers { IfOk result (λ _. workers ≤ most_workers) }
    ensures refused { IfErr result (IsSharedBeginRefusal tasks.now items.now readers.now order.now bound workers) }
{
    if workers == 0 || workers > MOST_WORKERS {
        return Err(Refusal::Workers);
    }
    let system = shared_system_of_arrays(alloc, tasks, items, readers)?;
    let core = Core::new(alloc, &system, order, bound, workers)?;
    Ok(core)
}

/// Puts a core of a system in which an item may have any number of readers at its start into the slot: 0, or why there is none.
pub fn begin_shared(
    slot: &mut Slot,
    tasks: &[GivenTask],
    items: &[GivenSharedItem],
    readers: &[u32],
    order: &[u32],
    bound: u64,
    workers: u32,
    fault: &mut Fault,
) -> u32
    ensures { (slot.new ≡ begun slot.old (core_setting (shared_system_given tasks.now items.now readers.now) order.now bound workers) result)
        × IsCoreBegun (IsSharedSystem (shared_system_given tasks.now items.now readers.now))
        (IsSharedBeginRefusal tasks.now items.now readers.now order.now bound workers)
        (core_setting (shared_system_given tasks.now items.now readers.now) order.now bound workers) result fault.old fault.new }
{
    match core_of_shared(slot.alloc, tasks, items, readers, order, bound, workers) {
        Ok(core) => {
            slot.core = Some(core);
            0
        }
        Err(refusal) => refuse(refusal, fault),
    }
}

/// Activates the next task of the order, where its need fits: its number, or 0.
pub fn activate(slot: &mut Slot) -> u32
    ensures { (slot.new ≡ activated slot.old result) × IsActivated slot.old result }
{
    match &mut slot.core {
        Some(core) => {
            core.keeps();
            core.activate().unwrap_or(0)
        }
        None => 0,
    }
}

/// Of the tasks that may start now the one that stands first in the order: its number, or 0.
pub fn next(slot: &mut Slot) -> u32
    ensures { (slot.new ≡ slot.old) × IsNext slot.old result }
{
    match &slot.core {
        Some(core) => core.next_startable().unwrap_or(0),
        None => 0,
    }
}

/// Starts a task, where it may start: 1, or 0.
pub fn start(slot: &mut Slot, task: u32) -> u32
    ensures { (slot.new ≡ stepped Start slot.old task result) × IsStarted slot.old task result }
{
    match &mut slot.core {
        Some(core) => answer(core.start(task)),
        None => 0,
    }
}

/// Ends a running task: 1, or 0.
pub fn finish(slot: &mut Slot, task: u32) -> u32
    ensures { (slot.new ≡ stepped Finish slot.old task result) × IsFinished slot.old task result }
{
    match &mut slot.core {
        Some(core) => answer(core.finish(task)),
        None => 0,
    }
}

/// Whether a task may start now: 1, or 0.
pub fn is_startable(slot: &mut Slot, task: u32) -> u32
    ensures { (slot.new ≡ slot.old) × IsStarted slot.old task result }
{
    match &slot.core {
        Some(core) => answer(core.may_start(task)),
        None => 0,
    }
}

/// Whether a task is done: 1, or 0.
pub fn is_done(slot: &mut Slot, task: u32) -> u32
    ensures { (slot.new ≡ slot.old) × IsDone slot.old task result }
{
    match &slot.core {
        Some(core) => answer(core.is_done(task)),
        None => 0,
    }
}

/// Used memory.
pub fn used(slot: &mut Slot) -> u64
    ensures { (slot.new ≡ slot.old) × (result ≡ used_in slot.old) }
{
    match &slot.core {
        Some(core) => core.used(),
        None => 0,
    }
}

/// Booked memory.
pub fn booked(slot: &mut Slot) -> u64
    ensures { (slot.new ≡ slot.old) × (result ≡ booked_in slot.old) }
{
    match &slot.core {
        Some(core) => core.booked(),
        None => 0,
    }
}
