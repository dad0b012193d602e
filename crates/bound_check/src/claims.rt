ghost use Rattle.std.specs.Prelude.{◌≤◌, IfOk, MatchOption};
ghost use Rattle.limits.specs.Limits.{most_workers};
ghost use Rattle.claim_check.specs.Claimed.{AreClaims};
ghost use Rattle.bounded_plans.specs.declared.evidence.BoundEvidence.TheVariants.{Claims};
ghost use Rattle.bound_check.specs.Shown.{IsShown, ShowBound};
ghost use Rattle.bound_check.specs.Objections.{IsClaimObjection, IsEvidenceObjection};

use crate::NoMemory;
use crate::chunks::first_failing;
use crate::failing::Failing;
use crate::objection::BoundObjection;
use crate::root::has_root;
use claim_check::View;
use mp_outside::Gate;
use plans::Claim;
use shared_reduce::{SharedReduceRefusal, reduce_shared};
use shared_systems::SharedSystem;
use sp_terms::TermList;
use std::alloc::{AllocError, Global};
use std::thread::Threads;

// What is said against claims over a term as evidence for a bound, if anything is.
fn judge_over<R: Threads + Sync, G: Gate>(
    rt: &R,
    alloc: Global,
    terms: &TermList,
    claims: &[Claim],
    bound: u64,
    workers: u32,
    gate: &G,
) -> Result<Option<BoundObjection>, NoMemory>
    requires workers { 1 ≤ workers }
    requires claims { AreClaims claims.now }
    ensures { IfOk result (λ found. MatchOption found
        (ShowBound terms.now claims.now bound)
        (IsClaimObjection terms.now claims.now bound)) }
{
    let view = View::new(alloc, terms, claims)?;
    let last = view.len();
    if !has_root(claims, last, bound) {
        return Ok(Some(BoundObjection::Root { last }));
    }
    match first_failing(rt, alloc, &view, claims, workers, gate)? {
        Some(Failing { position, shape }) => Ok(Some(BoundObjection::Claim { position, shape })),
        None => Ok(None),
    }
}

/// What is said against claims as evidence for a bound, if anything is: over the term that `reduce_shared` makes of the system.
pub fn judge_claims<R: Threads + Sync, G: Gate>(
    rt: &R,
    alloc: Global,
    system: &SharedSystem,
    claims: &[Claim],
    bound: u64,
    workers: u32,
    gate: &G,
) -> Result<Option<BoundObjection>, NoMemory>
    requires workers { 1 ≤ workers }
    requires claims { AreClaims claims.now }
    ensures { IfOk result (λ found. MatchOption found
        (IsShown system.now (Claims claims.now) bound)
        (IsEvidenceObjection system.now (Claims claims.now) bound)) }
{
    let reduced = match reduce_shared(alloc, system) {
        Ok(reduced) => reduced,
        Err(SharedReduceRefusal::NoMemory) => return Err(AllocError),
        Err(_) => return Ok(Some(BoundObjection::NoTerm)),
    };
    reduced.terms.keeps();
    judge_over(rt, alloc, &reduced.terms, claims, bound, workers, gate)
}
