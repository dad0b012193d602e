//! What an order of tasks needs.

ghost use Rattle.std.specs.Prelude.{◌≡◌, ◌≢◌, length, IfOk, IfErr};
ghost use Rattle.trees.specs.Tree.{IsTree, system_of_nodes};
ghost use Rattle.trees.specs.Judged.{IsNodesRefusal};
ghost use Rattle.c_calls.specs.Answers.{IsReplayed, IsTreeSpilled, IsSystemReplayed, IsSharedReplayed};
ghost use Rattle.c_calls.specs.Faults.{IsRefusedFor};
ghost use Rattle.c_calls.specs.Refusals.{IsReplayRefusal, IsSpillCallRefusal, IsSystemReplayRefusal, IsSharedReplayRefusal};

use crate::faults::{Fault, refuse};
use crate::orders::check_room;
use crate::refusal::Refusal;
use mp_system::{GivenItem, GivenTask, System, replay, system_of_arrays};
use shared_systems::{GivenSharedItem, shared_system_of_arrays};
use spill_plan::{Spill, spill};
use std::alloc::Global;
use trees::{Node, NodesRefusal, system_of_tree, tree_of_nodes};

/// The system of the tree of these nodes.
pub fn system_of(alloc: Global, nodes: &[Node]) -> Result<System, NodesRefusal>
    ensures system { IfOk result (λ system. system ≡ system_of_nodes nodes.now) }
    ensures tree { IfOk result (λ _. IsTree nodes.now) }
    ensures refused { IfErr result (IsNodesRefusal nodes.now) }
{
    let tree = tree_of_nodes(alloc, nodes)?;
    let system = system_of_tree(alloc, &tree)?;
    Ok(system)
}

fn peak_of(alloc: Global, nodes: &[Node], order: &[u32]) -> Result<u64, Refusal>
    ensures replayed { IfOk result (IsReplayed nodes.now order.now) }
    ensures refused { IfErr result (IsReplayRefusal nodes.now order.now) }
{
    let system = system_of(alloc, nodes)?;
    let peak = replay(alloc, &system, order)?;
    Ok(peak)
}

/// The peak of an order of the tree of these nodes, or the first place at which it is no traversal.
pub fn replay_tree(
    alloc: Global,
    nodes: &[Node],
    order: &[u32],
    peak: &mut u64,
    fault: &mut Fault,
) -> u32
    // 0: the order is a traversal of the tree's system, with this peak
    ensures replayed { result ≡ 0 → IsReplayed nodes.now order.now peak.new }
    ensures refused { result ≢ 0 → IsRefusedFor (IsReplayRefusal nodes.now order.now) result fault.new }
    ensures unchanged { result ≢ 0 → peak.new ≡ peak.old }
    ensures no_fault { result ≡ 0 → fault.new ≡ fault.old }
{
    match peak_of(alloc, nodes, order) {
        Ok(found) => {
            *peak = found;
            0
        }
        Err(refusal) => refuse(refusal, fault),
    }
}

fn spill_of(
    alloc: Global,
    nodes: &[Node],
    order: &[u32],
    bound: u64,
    room: usize,
) -> Result<Spill, Refusal>
    ensures spilled { IfOk result (λ spill. IsTreeSpilled nodes.now order.now bound spill.amounts.items spill.volume) }
    ensures long { IfOk result (λ spill. length spill.amounts.items ≡ room) }
    ensures refused { IfErr result (IsSpillCallRefusal nodes.now order.now bound room) }
{
    check_room(nodes.len(), room)?;
    let system = system_of(alloc, nodes)?;
    let spill = spill(alloc, &system, order, bound)?;
    Ok(spill)
}

/// The least that goes to disk where an order of the tree of these nodes runs within a bound: how much of each node's block, and all
/// together. Jacquelin et al. 2011.
pub fn spill_tree(
    alloc: Global,
    nodes: &[Node],
    order: &[u32],
    bound: u64,
    amounts: &mut [u64],
    volume: &mut u64,
    fault: &mut Fault,
) -> u32
    // 0: the amounts are a spill plan of the order, and no spill plan has a lower volume
    ensures spilled { result ≡ 0 → IsTreeSpilled nodes.now order.now bound amounts.new volume.new }
    ensures refused { result ≢ 0 → IsRefusedFor (IsSpillCallRefusal nodes.now order.now bound (length amounts.old)) result fault.new }
    ensures unchanged { result ≢ 0 → (amounts.new ≡ amounts.old) × (volume.new ≡ volume.old) }
    ensures no_fault { result ≡ 0 → fault.new ≡ fault.old }
{
    match spill_of(alloc, nodes, order, bound, amounts.len()) {
        Ok(spill) => {
            amounts.copy_from_slice(&spill.amounts);
            *volume = spill.volume;
            0
        }
        Err(refusal) => refuse(refusal, fault),
    }
}

fn peak_of_system(
    alloc: Global,
    tasks: &[GivenTask],
    items: &[GivenItem],
    order: &[u32],
) -> Result<u64, Refusal>
    ensures replayed { IfOk result (IsSystemReplayed tasks.now items.now order.now) }
    ensures refused { IfErr result (IsSystemReplayRefusal tasks.now items.now order.now) }
{
    let system = system_of_arrays(alloc, tasks, items)?;
    let peak = replay(alloc, &system, order)?;
    Ok(peak)
}

/// The peak of an order of tasks that hand data items to each other, or the first place at which it is no traversal.
pub fn replay_system(
    alloc: Global,
    tasks: &[GivenTask],
    items: &[GivenItem],
    order: &[u32],
    peak: &mut u64,
    fault: &mut Fault,
) -> u32
    // 0: the order is a traversal of the system of these tasks and items, with this peak
    ensures replayed { result ≡ 0 → IsSystemReplayed tasks.now items.now order.now peak.new }
    ensures refused { result ≢ 0 → IsRefusedFor (IsSystemReplayRefusal tasks.now items.now order.now) result fault.new }
    ensures unchanged { result ≢ 0 → peak.new ≡ peak.old }
    ensures no_fault { result ≡ 0 → fault.new ≡ fault.old }
{
    match peak_of_system(alloc, tasks, items, order) {
        Ok(found) => {
            *peak = found;
            0
        }
        Err(refusal) => refuse(refusal, fault),
    }
}

fn peak_of_shared(
    alloc: Global,
    tasks: &[GivenTask],
    items: &[GivenSharedItem],
    readers: &[u32],
    order: &[u32],
) -> Result<u64, Refusal>
    ensures replayed { IfOk result (IsSharedReplayed tasks.now items.now readers.now order.now) }
    ensures refused { IfErr result (IsSharedReplayRefusal tasks.now items.now readers.now order.now) }
{
    let system = shared_system_of_arrays(alloc, tasks, items, readers)?;
    let peak = system.peak(alloc, order)?;
    Ok(peak)
}

/// The peak of an order of tasks that hand data items to each other, each to any number of readers, or the first place at which it is no
/// traversal.
pub fn replay_shared(
    alloc: Global,
    tasks: &[GivenTask],
    items: &[GivenSharedItem],
    readers: &[u32],
    order: &[u32],
    peak: &mut u64,
    fault: &mut Fault,
) -> u32
    // 0: the order is a traversal of the system of these tasks, items and readers, with this peak
    ensures replayed { result ≡ 0 → IsSharedReplayed tasks.now items.now readers.now order.now peak.new }
    ensures refused { result ≢ 0 → IsRefusedFor (IsSharedReplayRefusal tasks.now items.now readers.now order.now) result fault.new }
    ensures unchanged { result ≢ 0 → peak.new ≡ peak.old }
    ensures no_fault { result ≡ 0 → fault.new ≡ fault.old }
{
    match peak_of_shared(alloc, tasks, items, readers, order) {
        Ok(found) => {
            *peak = found;
            0
        }
        Err(refusal) => refuse(refusal, fault),
    }
}
