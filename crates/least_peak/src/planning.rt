//! The plan of a term. It needs no system: what is said of its order and its peak is said of every system that is that of the term.

ghost use Rattle.std.specs.Prelude.{◌≡◌, ◌<◌, [], map, IfOk};
ghost use Rattle.claim_check.specs.Accepted.{IsAccepted};
ghost use Rattle.mp_system.specs.Renaming.{name_in};
ghost use Rattle.mp_system.specs.System.{TaskSystem};
ghost use Rattle.plans.specs.Plan.{IsPlan};
ghost use Rattle.least_peak.specs.Best.{IsBestTraversal};
ghost use Rattle.least_peak.specs.Named.{IsNamedTerm, order_named};

use crate::NoMemory;
use claim_check::laws::accepted_law;
use mp_system::laws::{renaming_law, traversal_law};
use plan_claims::claims_of;
use plans::Plan;
use sp_cuts::plan_terms;
use sp_terms::TermList;
use sp_terms::laws::terms_law;
use std::alloc::Global;
use std::marker::Brand;
use std::sync::ledger::{Blank, Ledger};
use step_count::Steps;
use trees::Names;

// What a task is called; a number that is no task's is called 0.
fn name_in(names: &[u32], task: u32) -> u32
    ensures { result ≡ name_in names.now task }
{
    if task == 0 {
        return 0;
    }
    match names.get(task as usize - 1) {
        Some(name) => *name,
        None => 0,
    }
}

// The tasks, each by its name.
fn named(alloc: Global, names: &[u32], order: &[u32]) -> Result<Vec<u32>, NoMemory>
    ensures { IfOk result (λ named. named.items ≡ map (name_in names.now) order.now) }
{
    let mut named = Vec::with_capacity(alloc, order.len())?;
    for task in order {
        named.push(name_in(names, *task))?;
    }
    Ok(named)
}

// The tasks, each by its name in the system.
fn order_in_system(
    alloc: Global,
    names: Option<Names>,
    order: Vec<u32>,
) -> Result<Vec<u32>, NoMemory>
    ensures { IfOk result (λ named. named.items ≡ order_named names order.items) }
{
    match names {
        Some(names) => named(alloc, names.as_slice(), &order),
        None => Ok(order),
    }
}

// The plan, with a count of the segments that are moved.
fn plan_counted<L: Ledger>(
    alloc: Global,
    blank: Blank,
    terms: &TermList,
    names: Option<Names>,
) -> Result<Plan, NoMemory>
    requires name { blank.name ≡ L.name }
    requires parts { blank.parts ≡ L.parts }
    requires some { 0 < blank.parts }
    requires term { (system : TaskSystem) × IsNamedTerm names terms.now system }
    ensures accepted { IfOk result (λ plan. (system : TaskSystem) → IsNamedTerm names terms.now system → IsAccepted system terms.now plan) }
    ensures within { IfOk result IsPlan }
    ensures priority { IfOk result (λ plan. plan.priority ≡ []) }
{
    renaming_law();
    traversal_law();
    terms_law();
    let mut steps = Steps::<L>::new(blank);
    let plan = plan_terms(alloc, terms, &mut steps)?;
    let sp_cuts::Planned {
        order,
        peak,
        part,
        ropes,
        notes,
    } = plan;
    // the claims need no ropes, and can have their room
    drop(ropes);
    let named = order_in_system(alloc, names, order)?;
    let claims = claims_of(alloc, terms, &part, notes)?;
    Ok(Plan::new(named, peak, claims, Vec::new(alloc)))
}

/// The plan of a term, and of each system that is that of the term: what the tasks of the term are called in the system; without names
/// each has its own number.
pub fn plan_term(alloc: Global, terms: &TermList, names: Option<Names>) -> Result<Plan, NoMemory>
    requires { (system : TaskSystem) × IsNamedTerm names terms.now system }
    ensures accepted { IfOk result (λ plan. (system : TaskSystem) → IsNamedTerm names terms.now system → IsAccepted system terms.now plan) }
    ensures best { IfOk result
        (λ plan. (system : TaskSystem) → IsNamedTerm names terms.now system → IsBestTraversal system plan.order plan.peak) }
    ensures within { IfOk result IsPlan }
    ensures priority { IfOk result (λ plan. plan.priority ≡ []) }
{
    accepted_law();
    plan_counted::<Brand>(alloc, Blank::new(1), terms, names)
}
