ghost use Rattle.std.specs.Prelude.{IfOk, MatchOption};
ghost use Rattle.bounded_plans.specs.declared.evidence.BoundEvidence.TheVariants.{States};
ghost use Rattle.bound_check.specs.Shown.{IsShown};
ghost use Rattle.bound_check.specs.Objections.{IsEvidenceObjection};

use crate::NoMemory;
use crate::objection::BoundObjection;
use shared_systems::SharedSystem;
use state_search::judge_states;
use std::alloc::Global;

/// What is said against looking at no more states than so many as evidence for a bound, if anything is.
pub fn judge_looking(
    alloc: Global,
    system: &SharedSystem,
    most: u32,
    bound: u64,
) -> Result<Option<BoundObjection>, NoMemory>
    ensures { IfOk result (λ found. MatchOption found
        (IsShown system.now (States most) bound)
        (IsEvidenceObjection system.now (States most) bound)) }
{
    match judge_states(alloc, system, bound, most)? {
        Some(objection) => Ok(Some(BoundObjection::States(objection))),
        None => Ok(None),
    }
}
