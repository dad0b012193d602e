ghost use Rattle.std.specs.Prelude.{◌≤◌, IfOk, MatchOption};
ghost use Rattle.limits.specs.Limits.{most_workers};
ghost use Rattle.bounded_plans.specs.declared.evidence.BoundEvidence.TheVariants.{Sums};
ghost use Rattle.bound_check.specs.Shown.{IsShown};
ghost use Rattle.bound_check.specs.Objections.{IsEvidenceObjection};

use crate::NoMemory;
use crate::objection::BoundObjection;
use mp_outside::Gate;
use peak_bounds::{Evidence, judge_evidence_by};
use shared_systems::SharedSystem;
use std::alloc::Global;
use std::thread::Threads;

/// What is said against sums as evidence for a bound, if anything is.
pub fn judge_sums<R: Threads + Sync, G: Gate>(
    rt: &R,
    alloc: Global,
    system: &SharedSystem,
    evidence: &Evidence,
    bound: u64,
    workers: u32,
    gate: &G,
) -> Result<Option<BoundObjection>, NoMemory>
    requires { (1 ≤ workers) × (workers ≤ most_workers) }
    ensures { IfOk result (λ found. MatchOption found
        (IsShown system.now (Sums evidence.now) bound)
        (IsEvidenceObjection system.now (Sums evidence.now) bound)) }
{
    match judge_evidence_by(rt, alloc, system, evidence, bound, workers, gate)? {
        Some(objection) => Ok(Some(BoundObjection::Sums(objection))),
        None => Ok(None),
    }
}
