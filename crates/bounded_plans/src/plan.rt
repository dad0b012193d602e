ghost use Rattle.std.specs.Prelude.{◌≡◌};
ghost use Rattle.bounded_plans.specs.BoundedPlan.{BoundedPlanValue, IsBoundedPlan};

use crate::evidence::BoundEvidence;
use std::marker::Model;

/// A plan with a bound, within the limits: an order of at most 10^6 tasks; its peak and the bound, each at most 2^60; and evidence that no order
/// has a peak below the bound. Whether the peak is that of the order, and whether the evidence shows the bound, is for a system to say.
#[derive(Drop)]
pub struct BoundedPlan {
    order: Vec<u32>,
    peak: u64,
    bound: u64,
    evidence: BoundEvidence,
}

impl Model for BoundedPlan {
    ghost Value = { BoundedPlanValue };

    ghost view = { λ p. record { order = p.order.items; peak = p.peak; bound = p.bound; evidence = p.evidence } };

    ghost invariant = { λ p. IsBoundedPlan (record { order = p.order.items; peak = p.peak; bound = p.bound; evidence = p.evidence }) };
}

impl BoundedPlan {
    /// A plan of these parts. It takes no memory.
    pub fn new(order: Vec<u32>, peak: u64, bound: u64, evidence: BoundEvidence) -> BoundedPlan
        requires { IsBoundedPlan (record { order = order.items; peak = peak; bound = bound; evidence = evidence }) }
        ensures { result ≡ record { order = order.items; peak = peak; bound = bound; evidence = evidence } }
    {
        BoundedPlan {
            order,
            peak,
            bound,
            evidence,
        }
    }

    /// What every such plan keeps; a proof that needs it calls it. It does nothing.
    pub fn keeps(&self)
        ensures { IsBoundedPlan self.now }
    {
        let _ = &self.order;
    }

    /// The tasks in the order in which they run, each at most 4,294,967,295.
    pub fn order(&self) -> &[u32]
        ensures value { result.now ≡ self.now.order }
        ensures plan { IsBoundedPlan self.now }
    {
        &self.order
    }

    /// The peak that the plan states, at most 2^60.
    pub fn peak(&self) -> u64
        ensures { result ≡ self.now.peak }
    {
        self.peak
    }

    /// The bound that it states, at most 2^60.
    pub fn bound(&self) -> u64
        ensures { result ≡ self.now.bound }
    {
        self.bound
    }

    /// What is to show that no order has a peak below the bound.
    pub fn evidence(&self) -> &BoundEvidence
        ensures { result.now ≡ self.now.evidence }
    {
        &self.evidence
    }
}
