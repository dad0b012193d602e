ghost use Rattle.std.specs.Prelude.{MatchResult};
ghost use Rattle.plan_orders.specs.OrderOf.{value_of};
ghost use Rattle.plan_orders.specs.PlanOrder.{ReadsPlanOrder, IsPlanOrderRefusal};

use crate::form::{PlanForm, form_of};
use crate::json::read_json;
use crate::order::PlannedOrder;
use bounded_plan_files::read_bounded_plan;
use mp_text::Refusal;
use plan_files::{PlanKind, read_plan};
use std::alloc::Global;

/// The order of a plan of any form, or why its text is refused: what begins as an object of JSON as JSON, what says version 3 in line 1 as
/// such a file, and whatever else as a file of version 1 or 2.
pub fn read_plan_order(alloc: Global, bytes: &[u8]) -> Result<PlannedOrder, Refusal<PlanKind>>
    ensures { MatchResult result (λ order. ReadsPlanOrder bytes.now (value_of order)) (IsPlanOrderRefusal bytes.now) }
{
    match form_of(bytes) {
        PlanForm::Json => Ok(PlannedOrder::Listed(read_json(alloc, bytes)?)),
        PlanForm::Third => Ok(PlannedOrder::Bounded(read_bounded_plan(alloc, bytes)?)),
        PlanForm::Earlier => Ok(PlannedOrder::Plan(read_plan(alloc, bytes)?)),
    }
}
