//! The plan of a system that has no term: the best order that an effort finds, and the bound that it shows.

ghost use Rattle.std.specs.Prelude.{◌≤◌, IfOk};
ghost use Rattle.shared_systems.specs.SharedMemory.{shared_peak_of};
ghost use Rattle.shared_systems.specs.SharedTraversal.{IsSharedTraversal};
ghost use Rattle.bound_check.specs.Accepted.{IsBoundAccepted};
ghost use Rattle.graph_plan.specs.Planned.{IsNoWorse, IsPlainBound};
ghost use Rattle.graph_plan.specs.Drafts.{IsDraft};

use crate::NoMemory;
use crate::draft::Draft;
use crate::effort::{bound_effort, quick_effort, search_effort, states_effort};
use crate::peaks::peak_of;
use crate::states::look_at_states;
use bound_search::{CertifiedBound, certify_bound_below};
use bounded_plans::{BoundEvidence, BoundedPlan};
use graph_orders::find_order;
use shared_systems::SharedSystem;
use shared_systems::laws::order_law;
use state_search::most_states;
use std::alloc::Global;

// The best order that is found from a first one, and a bound by sums. The bound is looked for below the peak of an order that is found soon,
// and the search for a better one ends where it meets the bound.
fn draft_by_sums(
    alloc: Global,
    system: &SharedSystem,
    start: &[u32],
    effort: u64,
) -> Result<Draft, NoMemory>
    requires { IsSharedTraversal system.now start.now }
    ensures draft { IfOk result (IsDraft system.now) }
    ensures no_worse { IfOk result (λ draft. draft.peak ≤ shared_peak_of system.now start.now) }
{
    order_law();
    system.keeps();
    let tasks = system.tasks().len();
    let quick = find_order(alloc, system, start, 0, quick_effort(effort, tasks))?;
    let lowest = peak_of(alloc, system, &quick)?;
    let CertifiedBound { bound, evidence } = certify_bound_below(
        alloc,
        system,
        lowest,
        bound_effort(effort, tasks),
    )?;
    let order = find_order(alloc, system, &quick, bound, search_effort(effort, tasks))?;
    let peak = peak_of(alloc, system, &order)?;
    Ok(Draft {
        order,
        peak,
        bound,
        evidence: BoundEvidence::Sums(evidence),
    })
}

/// The plan along the best order that is found from a first one, by sums and by looking at states. A bound by states is taken where it is
/// higher than that by sums.
pub fn plan_near(
    alloc: Global,
    system: &SharedSystem,
    start: &[u32],
    effort: u64,
) -> Result<BoundedPlan, NoMemory>
    requires { IsSharedTraversal system.now start.now }
    ensures accepted { IfOk result (IsBoundAccepted system.now) }
    ensures plain { IfOk result (λ plan. IsPlainBound system.now plan.bound) }
    ensures no_worse { IfOk result (IsNoWorse system.now start.now) }
{
    let mut draft = draft_by_sums(alloc, system, start, effort)?;
    let most = most_states(system, states_effort(effort, system.tasks().len()));
    look_at_states(alloc, system, &mut draft, most)?;
    Ok(draft.into_plan())
}
