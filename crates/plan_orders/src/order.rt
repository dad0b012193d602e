ghost use Rattle.std.specs.Prelude.{◌≡◌, length};
ghost use Rattle.plans.specs.Plan.{IsPriority};
ghost use Rattle.plan_orders.specs.OrderOf.{value_of};

use bounded_plans::BoundedPlan;
use plans::Plan;

/// What the order of a plan was read from.
#[derive(Drop)]
pub enum PlannedOrder {
    /// A plan file of version 1 or 2.
    Plan(Plan),
    /// A plan file of version 3.
    Bounded(BoundedPlan),
    /// The JSON of a plan, of which the order alone is kept.
    Listed(Vec<u32>),
}

impl PlannedOrder {
    /// The tasks in the order in which they run.
    pub fn order(&self) -> &[u32]
        ensures { result.now ≡ (value_of self.now).order }
    {
        match self {
            PlannedOrder::Plan(plan) => plan.order(),
            PlannedOrder::Bounded(plan) => plan.order(),
            PlannedOrder::Listed(order) => order,
        }
    }

    /// The tasks in the order in which they claim a worker: each task of the order once, or none where the plan has no priority.
    pub fn priority(&self) -> &[u32]
        ensures value { result.now ≡ (value_of self.now).priority }
        ensures each { IsPriority (length (value_of self.now).order) result.now }
    {
        match self {
            PlannedOrder::Plan(plan) => {
                plan.keeps();
                plan.priority()
            }
            _ => &[],
        }
    }
}
