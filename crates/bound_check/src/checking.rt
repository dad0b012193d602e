ghost use Rattle.std.specs.Prelude.{◌≤◌, IfOk, MatchOption};
ghost use Rattle.limits.specs.Limits.{most_workers};
ghost use Rattle.bound_check.specs.Shown.{IsShown};
ghost use Rattle.bound_check.specs.Objections.{IsEvidenceObjection};
ghost use Rattle.bound_check.specs.Accepted.{IsBoundVerdict, IsCertified};

use crate::NoMemory;
use crate::claims::judge_claims;
use crate::laws::accepted_law;
use crate::objection::BoundObjection;
use crate::replayed::judge_order;
use crate::states::judge_looking;
use crate::sums::judge_sums;
use crate::verdict::{BoundVerdict, verdict_of};
use bounded_plans::{BoundEvidence, BoundedPlan};
use mp_outside::Gate;
use shared_systems::SharedSystem;
use std::alloc::Global;
use std::thread::Threads;

// What is said against the evidence of a plan, if anything is.
fn judge_shown<R: Threads + Sync, G: Gate>(
    rt: &R,
    alloc: Global,
    system: &SharedSystem,
    plan: &BoundedPlan,
    workers: u32,
    gate: &G,
) -> Result<Option<BoundObjection>, NoMemory>
    requires { (1 ≤ workers) × (workers ≤ most_workers) }
    ensures { IfOk result (λ found. MatchOption found
        (IsShown system.now plan.now.evidence plan.now.bound)
        (IsEvidenceObjection system.now plan.now.evidence plan.now.bound)) }
{
    plan.keeps();
    let bound = plan.bound();
    match plan.evidence() {
        BoundEvidence::Sums(evidence) => {
            judge_sums(rt, alloc, system, evidence, bound, workers, gate)
        }
        BoundEvidence::Claims(list) => {
            judge_claims(rt, alloc, system, list.claims(), bound, workers, gate)
        }
        BoundEvidence::States(most) => judge_looking(alloc, system, *most, bound),
    }
}

/// Judges a plan with a bound for a system: least, where its peak is its bound; above, where its peak is above it; or the first objection,
/// to the order, the peak, or the evidence. Claims are judged over the term that `reduce_shared` makes of the system. The claims, or the
/// blockers of a set, are judged by up to 4,096 workers, each of which takes one chunk of them and calls the gate once, with the number of
/// its chunk from 0; states are looked at by one worker, which calls no gate. The verdict is the same for every number of workers and every
/// gate. `NoMemory` says nothing of the plan. Linear in the claims, and, for each state that is looked at, in the tasks, items and readers;
/// else as `reduce_shared` and `judge_evidence_by`.
pub fn check_bounded<R: Threads + Sync, G: Gate>(
    rt: &R,
    alloc: Global,
    system: &SharedSystem,
    plan: &BoundedPlan,
    workers: u32,
    gate: &G,
) -> Result<BoundVerdict, NoMemory>
    requires workers { (1 ≤ workers) × (workers ≤ most_workers) }
    ensures verdict { IfOk result (IsBoundVerdict system.now plan.now) }
    ensures certified { IfOk result (IsCertified system.now plan.now.order) }
{
    accepted_law();
    system.keeps();
    if let Some(objection) = judge_order(alloc, system, plan)? {
        return Ok(BoundVerdict::No(objection));
    }
    if let Some(objection) = judge_shown(rt, alloc, system, plan, workers, gate)? {
        return Ok(BoundVerdict::No(objection));
    }
    Ok(verdict_of(plan))
}
