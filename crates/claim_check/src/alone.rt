//! The judge in one thread, for callers that may start none.

ghost use Rattle.std.specs.Prelude.{IfOk};
ghost use Rattle.plans.specs.Plan.{claim_at};
ghost use Rattle.claim_check.specs.Lowest.{IsLowestFrom};
ghost use Rattle.claim_check.specs.Verdicts.{IsVerdict};

use crate::NoMemory;
use crate::chunks::lowest_in;
use crate::opening::{Early, opened, verdict_by};
use crate::verdict::Verdict;
use crate::view::View;
use mp_system::System;
use plans::Plan;
use sp_terms::TermList;
use std::alloc::{AllocError, Global};

// The lowest position whose claim fails: of those at the term's positions, and then of those past the last.
fn lowest_alone(view: &View<'_>) -> Option<u32>
    ensures { IsLowestFrom view.now.positions (claim_at view.now.claims) 0 result }
{
    let first = lowest_in(view, 1, view.len() + 1);
    if first.is_some() {
        return first;
    }
    view.first_outside()
}

/// Judges a plan as [`check`](crate::check) does, with the same verdict, and starts no thread. `NoMemory` says nothing of the plan.
/// Linear in the system, the positions and the claims.
pub fn check_alone(
    alloc: Global,
    system: &System,
    terms: &TermList,
    plan: &Plan,
) -> Result<Verdict, NoMemory>
    ensures verdict { IfOk result (λ verdict. IsVerdict system.now terms.now plan.now verdict) }
{
    let view = match opened(alloc, system, terms, plan) {
        Ok(view) => view,
        Err(Early::NoMemory) => return Err(AllocError),
        Err(Early::Objection(objection)) => return Ok(Verdict::No(objection)),
    };
    let lowest = lowest_alone(&view);
    Ok(verdict_by(&view, plan, lowest))
}
