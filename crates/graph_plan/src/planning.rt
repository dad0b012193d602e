ghost use Rattle.std.specs.Prelude.{◌≡◌, ◌≤◌, ℕ, List, IfOk};
ghost use Rattle.shared_systems.specs.SharedMemory.{shared_peak_of};
ghost use Rattle.shared_systems.specs.SharedTraversal.{IsSharedTraversal};
ghost use Rattle.graph_plan.specs.Planned.{IsGraphPlan, IsNoWorse};

use crate::NoMemory;
use crate::least::plan_by_term;
use crate::near::plan_near;
use bound_check::laws::accepted_law;
use bounded_plans::BoundedPlan;
use peak_bounds::laws::evidence_law;
use shared_reduce::{SharedReduceRefusal, reduce_shared};
use shared_systems::{SharedSystem, first_order};
use std::alloc::{AllocError, Global};

/// A plan of the system whose order is no worse than the one that it begins with, which is a traversal. Where `reduce_shared` finds a term,
/// the plan is least, by claims, whatever the effort; elsewhere the order and the bound are the best that are found, and the plan is least where
/// they meet. The search for the order and that for the bound each take so many steps as the effort and the number of tasks allow; then states
/// are looked at, the more the smaller the graph, which finds a better order, or shows a higher bound. `NoMemory` says nothing of the system.
/// Near linear where there is a term, as `reduce_shared` and `Problem::plan` are.
pub fn plan_from(
    alloc: Global,
    system: &SharedSystem,
    start: &[u32],
    effort: u64,
) -> Result<BoundedPlan, NoMemory>
    requires { IsSharedTraversal system.now start.now }
    ensures plan { IfOk result (IsGraphPlan system.now) }
    ensures no_worse { IfOk result (IsNoWorse system.now start.now) }
    // no order has a peak below the bound
    ensures below_none { IfOk result (λ plan.
        (other : List ℕ) → IsSharedTraversal system.now other → plan.bound ≤ shared_peak_of system.now other) }
{
    accepted_law();
    evidence_law();
    system.keeps();
    match reduce_shared(alloc, system) {
        Ok(reduced) => {
            let plan = plan_by_term(alloc, system, reduced)?;
            Ok(plan)
        }
        Err(SharedReduceRefusal::NoMemory) => Err(AllocError),
        Err(_) => plan_near(alloc, system, start, effort),
    }
}

/// A plan of the system, as [`plan_from`] makes it from the order of its tasks breadth first.
pub fn plan_graph(
    alloc: Global,
    system: &SharedSystem,
    effort: u64,
) -> Result<BoundedPlan, NoMemory>
    ensures plan { IfOk result (IsGraphPlan system.now) }
    ensures below_none { IfOk result (λ plan.
        (other : List ℕ) → IsSharedTraversal system.now other → plan.bound ≤ shared_peak_of system.now other) }
{
    let start = first_order(alloc, system)?;
    plan_from(alloc, system, &start, effort)
}
