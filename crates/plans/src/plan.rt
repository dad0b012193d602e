ghost use Rattle.std.specs.Prelude.{◌≡◌, length};
ghost use Rattle.plans.specs.Plan.{PlanValue, IsPriority, IsPlan};

use crate::claim::Claim;
use std::marker::Model;

/// A plan within the limits: an order of at most 10^6 tasks, its peak of at most 2^60, at most 4,000,001 claims whose positions rise, and a
/// priority, which is empty or ranks each task of the order once.
#[derive(Drop)]
pub struct Plan {
    order: Vec<u32>,
    peak: u64,
    claims: Vec<Claim>,
    priority: Vec<u32>,
}

impl Model for Plan {
    ghost Value = { PlanValue };

    ghost view = { λ p. record { order = p.order.items; peak = p.peak; claims = p.claims.items; priority = p.priority.items } };

    ghost invariant = { λ p.
        IsPlan (record { order = p.order.items; peak = p.peak; claims = p.claims.items; priority = p.priority.items }) };
}

impl Plan {
    /// A plan of these parts. `is_plan` tells whether they make one.
    pub fn new(order: Vec<u32>, peak: u64, claims: Vec<Claim>, priority: Vec<u32>) -> Plan
        requires { IsPlan (record { order = order.items; peak = peak; claims = claims.items; priority = priority.items }) }
        ensures { result ≡ record { order = order.items; peak = peak; claims = claims.items; priority = priority.items } }
    {
        Plan {
            order,
            peak,
            claims,
            priority,
        }
    }

    /// The plan with this priority in place of its own: each task of the order once, or none.
    pub fn with_priority(self, priority: Vec<u32>) -> Plan
        requires { IsPriority (length self.order) priority.items }
        ensures { result ≡ record { order = self.order; peak = self.peak; claims = self.claims; priority = priority.items } }
    {
        let Plan {
            order,
            peak,
            claims,
            ..
        } = self;
        Plan::new(order, peak, claims, priority)
    }

    /// What every plan keeps; a proof that needs it calls it. It does nothing.
    pub fn keeps(&self)
        ensures { IsPlan self.now }
    {
        let _ = &self.order;
    }

    /// The tasks in the order in which they run, each at most 4,294,967,295.
    pub fn order(&self) -> &[u32]
        ensures value { result.now ≡ self.now.order }
        ensures plan { IsPlan self.now }
    {
        &self.order
    }

    /// The peak that the plan states, at most 2^60.
    pub fn peak(&self) -> u64
        ensures { result ≡ self.now.peak }
    {
        self.peak
    }

    /// The claims, by rising positions.
    pub fn claims(&self) -> &[Claim]
        ensures { result.now ≡ self.now.claims }
    {
        &self.claims
    }

    /// The tasks in the order in which they claim a worker: each task once, or none where the plan leaves it out.
    pub fn priority(&self) -> &[u32]
        ensures { result.now ≡ self.now.priority }
    {
        &self.priority
    }
}
