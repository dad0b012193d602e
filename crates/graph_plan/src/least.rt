//! The plan of a system whose orders a term tells: that of the term, in the names of the system, least by claims.

ghost use Rattle.std.specs.Prelude.{◌≡◌, IfOk};
ghost use Rattle.mp_system.specs.Renaming.{name_in};
ghost use Rattle.sp_terms.specs.Values.{term_of};
ghost use Rattle.shared_reduce.specs.SharedTerm.{IsSharedTerm, told};
ghost use Rattle.graph_plan.specs.Planned.{IsGraphPlan};
ghost use Rattle.bound_check.specs.Accepted.{IsBoundAccepted};

use crate::NoMemory;
use bound_check::laws::accepted_law;
use bounded_plans::{BoundEvidence, BoundedPlan, ClaimList};
use least_peak::Problem;
use shared_reduce::laws::told_term_law;
use shared_systems::SharedSystem;
use shared_systems::laws::order_law;
use sp_reduce::Reduced;
use std::alloc::Global;

// What a task of the term is called in the system; a number that is no task's is called 0.
fn name_in(names: &[u32], task: u32) -> u32
    ensures { result ≡ name_in names.now task }
{
    if task == 0 {
        return 0;
    }
    match names.get(task as usize - 1) {
        Some(name) => *name,
        None => 0,
    }
}

// The order of the system's tasks that an order of the term's tells. Joins have greater names than tasks.
fn told_order(
    alloc: Global,
    tasks: usize,
    names: &[u32],
    order: &[u32],
) -> Result<Vec<u32>, NoMemory>
    ensures { IfOk result (λ listed. listed.items ≡ told tasks names.now order.now) }
{
    let mut found = Vec::with_capacity(alloc, tasks)?;
    for task in order {
        let name = name_in(names, *task);
        if name as usize <= tasks {
            found.push(name)?;
        }
    }
    Ok(found)
}

/// The plan of a system whose orders this term tells.
pub fn plan_by_term(
    alloc: Global,
    system: &SharedSystem,
    reduced: Reduced,
) -> Result<BoundedPlan, NoMemory>
    requires { IsSharedTerm system.now reduced.names.items (term_of reduced.terms) }
    ensures accepted { IfOk result (IsBoundAccepted system.now) }
    ensures met { IfOk result (λ plan. plan.bound ≡ plan.peak) }
{
    told_term_law();
    order_law();
    system.keeps();
    let tasks = system.tasks().len();
    let Reduced { terms, names } = reduced;
    terms.keeps();
    let plan = Problem::of_workflow(terms).into_plan(alloc)?;
    plan.keeps();
    let order = told_order(alloc, tasks, &names, plan.order())?;
    let claims = Vec::from_slice(alloc, plan.claims())?;
    let evidence = BoundEvidence::Claims(ClaimList::new(claims));
    Ok(BoundedPlan::new(order, plan.peak(), plan.peak(), evidence))
}
