ghost use Rattle.std.specs.Prelude.{IfOk, MatchOption};
ghost use Rattle.bound_check.specs.Objections.{IsReplayed, IsBoundObjection};

use crate::NoMemory;
use crate::objection::BoundObjection;
use bounded_plans::BoundedPlan;
use mp_system::ReplayRefusal;
use shared_systems::SharedSystem;
use std::alloc::{AllocError, Global};

/// What is said against the order and the peak of a plan, if anything is.
pub fn judge_order(
    alloc: Global,
    system: &SharedSystem,
    plan: &BoundedPlan,
) -> Result<Option<BoundObjection>, NoMemory>
    ensures { IfOk result (λ found. MatchOption found (IsReplayed system.now plan.now) (IsBoundObjection system.now plan.now)) }
{
    let replayed = match system.peak(alloc, plan.order()) {
        Ok(replayed) => replayed,
        Err(ReplayRefusal::NoMemory) => return Err(AllocError),
        Err(ReplayRefusal::Order(fault)) => return Ok(Some(BoundObjection::Order(fault))),
    };
    let printed = plan.peak();
    if replayed != printed {
        return Ok(Some(BoundObjection::Peak { replayed, printed }));
    }
    Ok(None)
}
