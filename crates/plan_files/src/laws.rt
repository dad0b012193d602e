//! Laws of plan files: what holds of each, without a call.

ghost use Rattle.std.specs.Prelude.{◌≡◌, ◌⊎◌, ◌≤◌, ℕ, List, length};
ghost use Rattle.limits.specs.Limits.{most_bytes};
ghost use Rattle.mp_text.specs.declared.refusals.Refusal.{Refusal};
ghost use Rattle.plan_files.specs.declared.kind.PlanKind.{PlanKind};
ghost use Rattle.plans.specs.Plan.{PlanValue, IsPlan};
ghost use Rattle.plan_files.specs.PlanFile.{ReadsPlan, RefusesPlan};
ghost use Rattle.plan_files.specs.Printed.{plan_text, plan_text_2};

use crate::kind::PlanKind;
use mp_text::laws as text_laws;

/// A file is read as a plan or refused, never both; it is read as one plan only, and refused with one refusal only.
pub fn exactly_one()
    ensures some { (bytes : List ℕ) →
        ((plan : PlanValue) × ReadsPlan bytes plan) ⊎ ((refusal : Refusal PlanKind) × RefusesPlan bytes refusal) }
    ensures not_both { (bytes : List ℕ) (plan : PlanValue) (refusal : Refusal PlanKind) →
        ReadsPlan bytes plan → RefusesPlan bytes refusal → ⊥ }
    ensures one_plan { (bytes : List ℕ) (one two : PlanValue) → ReadsPlan bytes one → ReadsPlan bytes two → one ≡ two }
    ensures one_refusal { (bytes : List ℕ) (one two : Refusal PlanKind) →
        RefusesPlan bytes one → RefusesPlan bytes two → one ≡ two }
{
    text_laws::exactly_one::<PlanKind>();
}

/// What a file is read as is a plan within the limits.
pub fn read_law()
    ensures { (bytes : List ℕ) (plan : PlanValue) → ReadsPlan bytes plan → IsPlan plan }
{}

/// The text of a plan, and its text in version 2, are read as that plan.
pub fn printed_plan()
    ensures text { (plan : PlanValue) → IsPlan plan → ReadsPlan (plan_text plan) plan }
    ensures text_2 { (plan : PlanValue) → IsPlan plan → ReadsPlan (plan_text_2 plan) plan }
{
    text_laws::printed_number();
    text_laws::printed_file();
}

/// The text of a plan, and its text in version 2, are within the limit of bytes, so that a file of it can be read whole.
pub fn printed_length()
    ensures text { (plan : PlanValue) → IsPlan plan → length (plan_text plan) ≤ most_bytes }
    ensures text_2 { (plan : PlanValue) → IsPlan plan → length (plan_text_2 plan) ≤ most_bytes }
{}
