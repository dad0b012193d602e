//! Plans of tasks that hand data items to each other, each to any number of readers.

ghost use Rattle.std.specs.Prelude.{◌≡◌, ◌≢◌, ◌≤◌, ℕ, List, [], length, IfOk, IfErr};
ghost use Rattle.shared_systems.specs.SharedMemory.{shared_peak_of};
ghost use Rattle.shared_systems.specs.SharedTraversal.{IsSharedTraversal};
ghost use Rattle.graph_plan.specs.Planned.{IsGraphPlan, IsNoWorse};
ghost use Rattle.c_calls.specs.Answers.{IsSharedPlanned};
ghost use Rattle.c_calls.specs.Faults.{IsRefusedFor};
ghost use Rattle.c_calls.specs.Refusals.{IsStartRefusal, IsSharedPlanRefusal};

use crate::faults::{Fault, refuse};
use crate::orders::check_room;
use crate::refusal::Refusal;
use bounded_plans::BoundedPlan;
use graph_plan::{plan_from, plan_graph};
use mp_system::{GivenTask, ReplayRefusal};
use shared_systems::laws::order_law;
use shared_systems::{GivenSharedItem, SharedSystem, shared_system_of_arrays};
use std::alloc::Global;

// The plan of a system from an order of the caller's, which has to be a traversal; from the order breadth first where that has no place.
fn plan_of_system(
    alloc: Global,
    system: &SharedSystem,
    start: &[u32],
    effort: u64,
) -> Result<BoundedPlan, ReplayRefusal>
    ensures plan { IfOk result (IsGraphPlan system.now) }
    ensures below_none { IfOk result (λ plan.
        (other : List ℕ) → IsSharedTraversal system.now other → plan.bound ≤ shared_peak_of system.now other) }
    ensures no_worse { IfOk result (λ plan. start.now ≢ [] → IsNoWorse system.now start.now plan) }
    ensures refused { IfErr result (IsStartRefusal system.now start.now) }
{
    if start.is_empty() {
        let plan = plan_graph(alloc, system, effort)?;
        return Ok(plan);
    }
    let _peak = system.peak(alloc, start)?;
    let plan = plan_from(alloc, system, start, effort)?;
    Ok(plan)
}

fn plan_of(
    alloc: Global,
    tasks: &[GivenTask],
    items: &[GivenSharedItem],
    readers: &[u32],
    start: &[u32],
    effort: u64,
    room: usize,
) -> Result<BoundedPlan, Refusal>
    ensures planned { IfOk result (λ plan.
        IsSharedPlanned tasks.now items.now readers.now start.now plan.order plan.peak plan.bound) }
    ensures long { IfOk result (λ plan. length plan.order ≡ room) }
    ensures refused { IfErr result (IsSharedPlanRefusal tasks.now items.now readers.now start.now room) }
{
    order_law();
    check_room(tasks.len(), room)?;
    let system = shared_system_of_arrays(alloc, tasks, items, readers)?;
    let plan = plan_of_system(alloc, &system, start, effort)?;
    Ok(plan)
}

/// An order of tasks that hand data items to each other, each to any number of readers; its peak; and a bound that no order has a peak
/// below. Least, and the bound is the peak, where a series-parallel term of not too many arcs tells the orders of the tasks; elsewhere the
/// best order and the best bound that are found with the effort, which is counted in steps. The bound is never less than what is there at
/// the start, or what a task reads and needs. From an order of the caller's, where `start` has a place, the plan is never worse than that.
pub fn plan_shared(
    alloc: Global,
    tasks: &[GivenTask],
    items: &[GivenSharedItem],
    readers: &[u32],
    start: &[u32],
    effort: u64,
    order: &mut [u32],
    peak: &mut u64,
    bound: &mut u64,
    fault: &mut Fault,
) -> u32
    // 0: the order is a traversal of the system of these tasks, items and readers, with this peak; none has one below the bound, which is no
    // less than what any task reads and needs; and this one's is no higher than that of the start
    ensures planned { result ≡ 0 → IsSharedPlanned tasks.now items.now readers.now start.now order.new peak.new bound.new }
    // else the room is refused, or the tasks, items and readers, or the start, or memory is wanting
    ensures refused { result ≢ 0 → IsRefusedFor
        (IsSharedPlanRefusal tasks.now items.now readers.now start.now (length order.old)) result fault.new }
    ensures unchanged { result ≢ 0 → (order.new ≡ order.old) × (peak.new ≡ peak.old) × (bound.new ≡ bound.old) }
    ensures no_fault { result ≡ 0 → fault.new ≡ fault.old }
{
    match plan_of(alloc, tasks, items, readers, start, effort, order.len()) {
        Ok(plan) => {
            order.copy_from_slice(plan.order());
            *peak = plan.peak();
            *bound = plan.bound();
            0
        }
        Err(refusal) => refuse(refusal, fault),
    }
}
