ghost use Rattle.std.specs.Prelude.{◌≤◌, IfOk};
ghost use Rattle.limits.specs.Limits.{most_workers};
ghost use Rattle.claim_check.specs.Verdicts.{IsVerdict};

use crate::NoMemory;
use crate::chunks::lowest;
use crate::opening::{Early, opened, verdict_by};
use crate::verdict::Verdict;
use mp_outside::Gate;
use mp_system::System;
use plans::Plan;
use sp_terms::TermList;
use std::alloc::{AllocError, Global};
use std::thread::Threads;

/// Judges a plan for a system and its term: yes with the peak, or the first objection, to the order, the peak, the claim on the whole
/// term, or the lowest claim that fails. The claims are judged by up to 4,096 workers, each of which takes one chunk of positions and
/// calls the gate once, with the number of its chunk from 0. The verdict is the same for every number of workers and every gate.
/// `NoMemory` says nothing of the plan. Linear in the system, the positions and the claims.
pub fn check<R: Threads + Sync, G: Gate>(
    rt: &R,
    alloc: Global,
    system: &System,
    terms: &TermList,
    plan: &Plan,
    workers: u32,
    gate: &G,
) -> Result<Verdict, NoMemory>
    requires workers { (1 ≤ workers) × (workers ≤ most_workers) }
    ensures verdict { IfOk result (λ verdict. IsVerdict system.now terms.now plan.now verdict) }
{
    let view = match opened(alloc, system, terms, plan) {
        Ok(view) => view,
        Err(Early::NoMemory) => return Err(AllocError),
        Err(Early::Objection(objection)) => return Ok(Verdict::No(objection)),
    };
    let lowest = lowest(rt, alloc, &view, workers, gate)?;
    Ok(verdict_by(&view, plan, lowest))
}
