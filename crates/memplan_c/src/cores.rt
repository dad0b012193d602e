//! The activation core for C, in memory that the caller gives.

ghost use Rattle.std.specs.Prelude.{◌≡◌};
ghost use Rattle.std.specs.Borrow.{sem, full_share};
ghost use Rattle.std.specs.Ptr.{lies_at, room_at};
ghost use Rattle.activation.specs.declared.events.EventKind.TheVariants.{Start, Finish};
ghost use Rattle.mp_system.specs.System.{IsSystem};
ghost use Rattle.mp_system.specs.Given.{system_given};
ghost use Rattle.shared_systems.specs.Bounds.{IsSharedSystem};
ghost use Rattle.shared_systems.specs.Given.{shared_system_given};
ghost use Rattle.trees.specs.Tree.{IsTree, system_of_nodes};
ghost use Rattle.c_calls.specs.Refusals.{IsBeginRefusal, IsSystemBeginRefusal, IsSharedBeginRefusal};
ghost use Rattle.c_calls.specs.Slots.{SlotValue, empty, core_setting, own_setting, begun, IsCoreBegun, activated, IsActivated};
ghost use Rattle.c_calls.specs.Slots.{IsNext, stepped, IsStarted, IsFinished, IsDone, used_in, booked_in};
ghost use Rattle.c_calls.specs.contracts.slot.Slot.{the_row};
ghost use prog.Memory.{size, capped};
ghost use denote.Param.{layout};

use c_calls::Fault;
use c_calls::slot::{
    Slot, activate, begin, begin_shared, begin_system, booked, end, finish, is_done, is_startable,
    make, next, start, used,
};
use mp_system::{GivenItem, GivenTask};
use shared_systems::GivenSharedItem;
use std::alloc::Global;
use trees::Node;

/// What C sees of a slot.
#[repr(C)]
pub struct Handle {
    kept: u8,
}

/// How many bytes of memory a core takes; they are aligned as a 64-bit number is.
#[unsafe(no_mangle)]
pub extern "C" fn memplan_core_size() -> usize
    // the bytes of one slot, for which `memplan_core_new` needs room
    ensures { result ≡ capped (size (layout the_row)) }
{
    std::mem::size_of::<Slot>()
}

/// Makes such memory ready for a core.
#[unsafe(no_mangle)]
pub unsafe extern "C" fn memplan_core_new(alloc: Global, slot: *mut Handle)
    requires* { sem 𝓛 (room_at the_row slot) }
    ensures* { sem 𝓛 (lies_at the_row full_share slot empty) }
{
    std::ptr::write(slot as *mut Slot, make(alloc))
}

/// Frees what the core holds; its memory is the caller's again.
#[unsafe(no_mangle)]
pub unsafe extern "C" fn memplan_core_end(slot: *mut Handle)
    ghost held: { SlotValue }
    requires* { sem 𝓛 (lies_at the_row full_share slot held) }
    ensures* { sem 𝓛 (room_at the_row slot) }
{
    end(std::ptr::read(slot as *const Slot))
}

/// Puts a core for a tree at its start into the memory: 0, or why there is none.
#[unsafe(no_mangle)]
pub unsafe extern "C" fn memplan_core_begin(
    slot: *mut Handle,
    nodes: &[Node],
    order: &[u32],
    bound: u64,
    workers: u32,
    fault: &mut Fault,
) -> u32
    ghost held: { SlotValue }
    requires* { sem 𝓛 (lies_at the_row full_share slot held) }
    ensures* { sem 𝓛 (lies_at the_row full_share slot (begun held (own_setting (system_of_nodes nodes.now) order.now bound workers) result))
        ∗ ⌜ IsCoreBegun (IsTree nodes.now) (IsBeginRefusal nodes.now order.now bound workers)
        (own_setting (system_of_nodes nodes.now) order.now bound workers) result fault.old fault.new ⌝ }
{
    begin(
        &mut *(slot as *mut Slot),
        nodes,
        order,
        bound,
        workers,
        fault,
    )
}

/// Puts a core for a system of tasks and data items at its start into the memory: 0, or why there is none.
#[unsafe(no_mangle)]
pub unsafe extern "C" fn memplan_core_begin_system(
    slot: *mut Handle,
    tasks: &[GivenTask],
    items: &[GivenItem],
    order: &[u32],
    bound: u64,
    workers: u32,
    fault: &mut Fault,
) -> u32
    ghost held: { SlotValue }
    requires* { sem 𝓛 (lies_at the_row full_share slot held) }
    ensures* { sem 𝓛 (lies_at the_row full_share slot
        (begun held (own_setting (system_given tasks.now items.now) order.now bound workers) result))
        ∗ ⌜ IsCoreBegun (IsSystem (system_given tasks.now items.now)) (IsSystemBeginRefusal tasks.now items.now order.now bound workers)
        (own_setting (system_given tasks.now items.now) order.now bound workers) result fault.old fault.new ⌝ }
{
    begin_system(
        &mut *(slot as *mut Slot),
        tasks,
        items,
        order,
        bound,
        workers,
        fault,
    )
}

/// Puts a core for a system in which an item may have any number of readers at its start into the memory: 0, or why there is none. The
/// readers of all items stand in one array, item by item.
#[unsafe(no_mangle)]
pub unsafe extern "C" fn memplan_core_begin_shared(
    slot: *mut Handle,
    tasks: &[GivenTask],
    items: &[GivenSharedItem],
    readers: &[u32],
    order: &[u32],
    bound: u64,
    workers: u32,
    fault: &mut Fault,
) -> u32
    ghost held: { SlotValue }
    requires* { sem 𝓛 (lies_at the_row full_share slot held) }
    ensures* { sem 𝓛 (lies_at the_row full_share slot
        (begun held (core_setting (shared_system_given tasks.now items.now readers.now) order.now bound workers) result))
        ∗ ⌜ IsCoreBegun (IsSharedSystem (shared_system_given tasks.now items.now readers.now))
        (IsSharedBeginRefusal tasks.now items.now readers.now order.now bound workers)
        (core_setting (shared_system_given tasks.now items.now readers.now) order.now bound workers) result fault.old fault.new ⌝ }
{
    begin_shared(
        &mut *(slot as *mut Slot),
        tasks,
        items,
        readers,
        order,
        bound,
        workers,
        fault,
    )
}

/// Activates the next task of the order, where its need fits under the bound: its number, or 0.
#[unsafe(no_mangle)]
pub unsafe extern "C" fn memplan_core_activate(slot: *mut Handle) -> u32
    ghost held: { SlotValue }
    requires* { sem 𝓛 (lies_at the_row full_share slot held) }
    ensures* { sem 𝓛 (lies_at the_row full_share slot (activated held result)) ∗ ⌜ IsActivated held result ⌝ }
{
    activate(&mut *(slot as *mut Slot))
}

/// Of the tasks that may start now the one that stands first in the order: its number, or 0. In constant time.
#[unsafe(no_mangle)]
pub unsafe extern "C" fn memplan_core_next(slot: *mut Handle) -> u32
    ghost held: { SlotValue }
    requires* { sem 𝓛 (lies_at the_row full_share slot held) }
    ensures* { sem 𝓛 (lies_at the_row full_share slot (held)) ∗ ⌜ IsNext held result ⌝ }
{
    next(&mut *(slot as *mut Slot))
}

/// Starts an activated task whose suppliers are done, where a worker is free: 1, or 0.
#[unsafe(no_mangle)]
pub unsafe extern "C" fn memplan_core_start(slot: *mut Handle, task: u32) -> u32
    ghost held: { SlotValue }
    requires* { sem 𝓛 (lies_at the_row full_share slot held) }
    ensures* { sem 𝓛 (lies_at the_row full_share slot (stepped Start held task result)) ∗ ⌜ IsStarted held task result ⌝ }
{
    start(&mut *(slot as *mut Slot), task)
}

/// Ends a running task: 1, or 0.
#[unsafe(no_mangle)]
pub unsafe extern "C" fn memplan_core_finish(slot: *mut Handle, task: u32) -> u32
    ghost held: { SlotValue }
    requires* { sem 𝓛 (lies_at the_row full_share slot held) }
    ensures* { sem 𝓛 (lies_at the_row full_share slot (stepped Finish held task result)) ∗ ⌜ IsFinished held task result ⌝ }
{
    finish(&mut *(slot as *mut Slot), task)
}

/// Whether a task may start now: 1, or 0.
#[unsafe(no_mangle)]
pub unsafe extern "C" fn memplan_core_is_startable(slot: *mut Handle, task: u32) -> u32
    ghost held: { SlotValue }
    requires* { sem 𝓛 (lies_at the_row full_share slot held) }
    ensures* { sem 𝓛 (lies_at the_row full_share slot (held)) ∗ ⌜ IsStarted held task result ⌝ }
{
    is_startable(&mut *(slot as *mut Slot), task)
}

/// Whether a task is done: 1, or 0.
#[unsafe(no_mangle)]
pub unsafe extern "C" fn memplan_core_is_done(slot: *mut Handle, task: u32) -> u32
    ghost held: { SlotValue }
    requires* { sem 𝓛 (lies_at the_row full_share slot held) }
    ensures* { sem 𝓛 (lies_at the_row full_share slot (held)) ∗ ⌜ IsDone held task result ⌝ }
{
    is_done(&mut *(slot as *mut Slot), task)
}

/// Used memory: the items that are present, and the needs of the running tasks.
#[unsafe(no_mangle)]
pub unsafe extern "C" fn memplan_core_used(slot: *mut Handle) -> u64
    ghost held: { SlotValue }
    requires* { sem 𝓛 (lies_at the_row full_share slot held) }
    ensures* { sem 𝓛 (lies_at the_row full_share slot (held)) ∗ ⌜ result ≡ used_in held ⌝ }
{
    used(&mut *(slot as *mut Slot))
}

/// Booked memory: the items that are present, and the needs of the activated tasks that are not done.
#[unsafe(no_mangle)]
pub unsafe extern "C" fn memplan_core_booked(slot: *mut Handle) -> u64
    ghost held: { SlotValue }
    requires* { sem 𝓛 (lies_at the_row full_share slot held) }
    ensures* { sem 𝓛 (lies_at the_row full_share slot (held)) ∗ ⌜ result ≡ booked_in held ⌝ }
{
    booked(&mut *(slot as *mut Slot))
}
