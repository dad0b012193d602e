ghost use Rattle.std.specs.Prelude.{◌≡◌};
ghost use Rattle.bounded_plans.specs.BoundedPlan.{IsBoundedPlan};
ghost use Rattle.graph_plan.specs.Drafts.{plan_of};

use bounded_plans::{BoundEvidence, BoundedPlan};

/// A plan while it is made.
#[derive(Drop)]
pub struct Draft {
    /// The order.
    pub order: Vec<u32>,
    /// Its peak.
    pub peak: u64,
    /// What no order has a peak below.
    pub bound: u64,
    /// What shows that.
    pub evidence: BoundEvidence,
}

impl Draft {
    /// The plan that it is. It takes no memory.
    pub fn into_plan(self) -> BoundedPlan
        requires { IsBoundedPlan (plan_of self) }
        ensures { result ≡ plan_of self }
    {
        let Draft {
            order,
            peak,
            bound,
            evidence,
        } = self;
        BoundedPlan::new(order, peak, bound, evidence)
    }
}
