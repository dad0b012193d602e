//! Laws of the texts of plans: what holds of each, without a call.

ghost use Rattle.std.specs.Prelude.{◌≡◌, ◌⊎◌, ℕ, List, length};
ghost use Rattle.plans.specs.Plan.{IsPriority};
ghost use Rattle.mp_text.specs.declared.refusals.Refusal.{Refusal};
ghost use Rattle.plan_files.specs.declared.kind.PlanKind.{PlanKind};
ghost use Rattle.plan_orders.specs.OrderOf.{PlannedOrderValue};
ghost use Rattle.plan_orders.specs.PlanOrder.{ReadsPlanOrder, RefusesPlanOrder};

use bounded_plan_files::laws as bounded_laws;
use plan_files::laws as plan_laws;

/// A text gives an order or is refused, never both; it gives one order only, and is refused with one refusal only.
pub fn exactly_one()
    ensures some { (text : List ℕ) →
        ((order : PlannedOrderValue) × ReadsPlanOrder text order) ⊎ ((refusal : Refusal PlanKind) × RefusesPlanOrder text refusal) }
    ensures not_both { (text : List ℕ) (order : PlannedOrderValue) (refusal : Refusal PlanKind) →
        ReadsPlanOrder text order → RefusesPlanOrder text refusal → ⊥ }
    ensures one_order { (text : List ℕ) (one two : PlannedOrderValue) →
        ReadsPlanOrder text one → ReadsPlanOrder text two → one ≡ two }
    ensures one_refusal { (text : List ℕ) (one two : Refusal PlanKind) →
        RefusesPlanOrder text one → RefusesPlanOrder text two → one ≡ two }
{
    plan_laws::exactly_one();
    bounded_laws::exactly_one();
}

/// The priority of an order that is read ranks each of its tasks once, or none.
pub fn read_law()
    ensures { (text : List ℕ) (order : PlannedOrderValue) → ReadsPlanOrder text order → IsPriority (length order.order) order.priority }
{
    plan_laws::read_law();
}
