//! Laws of plan files of version 3: what holds of each, without a call.

ghost use Rattle.std.specs.Prelude.{◌≡◌, ◌⊎◌, ◌≤◌, ℕ, List, length};
ghost use Rattle.limits.specs.Limits.{most_bytes};
ghost use Rattle.mp_text.specs.declared.refusals.Refusal.{Refusal};
ghost use Rattle.plan_files.specs.declared.kind.PlanKind.{PlanKind};
ghost use Rattle.bounded_plans.specs.BoundedPlan.{BoundedPlanValue, IsBoundedPlan};
ghost use Rattle.bounded_plan_files.specs.BoundedPlanFile.{ReadsBoundedPlan, RefusesBoundedPlan};
ghost use Rattle.bounded_plan_files.specs.Printed.{bounded_plan_text};

use mp_text::laws as text_laws;
use plan_files::PlanKind;

/// A file is read as a plan or refused, never both; it is read as one plan only, and refused with one refusal only.
pub fn exactly_one()
    ensures some { (bytes : List ℕ) →
        ((plan : BoundedPlanValue) × ReadsBoundedPlan bytes plan)
        ⊎ ((refusal : Refusal PlanKind) × RefusesBoundedPlan bytes refusal) }
    ensures not_both { (bytes : List ℕ) (plan : BoundedPlanValue) (refusal : Refusal PlanKind) →
        ReadsBoundedPlan bytes plan → RefusesBoundedPlan bytes refusal → ⊥ }
    ensures one_plan { (bytes : List ℕ) (one two : BoundedPlanValue) →
        ReadsBoundedPlan bytes one → ReadsBoundedPlan bytes two → one ≡ two }
    ensures one_refusal { (bytes : List ℕ) (one two : Refusal PlanKind) →
        RefusesBoundedPlan bytes one → RefusesBoundedPlan bytes two → one ≡ two }
{
    text_laws::exactly_one::<PlanKind>();
}

/// What a file is read as is a plan within the limits.
pub fn read_law()
    ensures { (bytes : List ℕ) (plan : BoundedPlanValue) → ReadsBoundedPlan bytes plan → IsBoundedPlan plan }
{}

/// The text of a plan is read as that plan.
pub fn printed_plan()
    ensures { (plan : BoundedPlanValue) → IsBoundedPlan plan → ReadsBoundedPlan (bounded_plan_text plan) plan }
{
    text_laws::printed_number();
    text_laws::printed_file();
}

/// The text of a plan is within the limit of bytes, so that a file of it can be read whole.
pub fn printed_length()
    ensures { (plan : BoundedPlanValue) → IsBoundedPlan plan → length (bounded_plan_text plan) ≤ most_bytes }
{}
