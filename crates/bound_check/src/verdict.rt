ghost use Rattle.std.specs.Prelude.{◌≤◌};
ghost use Rattle.shared_systems.specs.Shared.{SharedTaskSystem};
ghost use Rattle.bound_check.specs.Accepted.{IsBoundAccepted, IsBoundVerdict};

use crate::objection::BoundObjection;
use bounded_plans::BoundedPlan;

/// What is said of a plan with a bound.
#[derive(Clone, Copy, Debug, PartialEq, Eq)]
pub enum BoundVerdict {
    /// It is accepted, and has this peak, which is least.
    Least(u64),
    /// It is accepted, and its peak is above the bound: no order has a peak below the bound.
    Above {
        /// The peak.
        peak: u64,
        /// The bound.
        bound: u64,
    },
    /// It is not accepted: the first objection.
    No(BoundObjection),
}

/// What is said of a plan that is accepted.
pub fn verdict_of(plan: &BoundedPlan) -> BoundVerdict
    requires { plan.now.bound ≤ plan.now.peak }
    ensures { (system : SharedTaskSystem) → IsBoundAccepted system plan.now → IsBoundVerdict system plan.now result }
{
    let peak = plan.peak();
    let bound = plan.bound();
    if bound < peak {
        BoundVerdict::Above { peak, bound }
    } else {
        BoundVerdict::Least(peak)
    }
}
