//! Laws over the definitions: each contract is a law, and each body names the laws that it stands on.
ghost use Rattle.std.specs.Prelude.{◌≡◌, ◌⊎◌, ℕ, List};
ghost use Rattle.mp_system.specs.Renaming.{IsRenamed};
ghost use Rattle.mp_system.specs.System.{TaskSystem};
ghost use Rattle.mp_system.specs.Traversal.{IsLeast};
ghost use Rattle.sp_terms.specs.declared.position.Position.{Position};
ghost use Rattle.sp_terms.specs.SystemOfTerm.{system_of_term};
ghost use Rattle.sp_terms.specs.Values.{IsTerms, term_of};
ghost use Rattle.plans.specs.Plan.{PlanValue};
ghost use Rattle.claim_check.specs.Accepted.{IsAccepted, IsObjection};
ghost use Rattle.claim_check.specs.Verdicts.{IsVerdict};
ghost use Rattle.claim_check.specs.declared.objection.Objection.{Objection};
ghost use Rattle.claim_check.specs.declared.verdict.Verdict.{Verdict};

use claim_rules::laws::{least_law, list_law};
use mp_system::laws::{renaming_law, traversal_law};
use sp_terms::laws::position_law;

/// The peak of an accepted plan is least: no traversal has a lower one, in the term's own system, and in every system that is the same
/// up to the names of the tasks, the order of the items, and items of size 0 that no task produces.
pub fn accepted_law()
    ensures own { (ps : List Position) (plan : PlanValue) → IsTerms ps → IsAccepted (system_of_term (term_of ps)) ps plan →
        IsLeast (system_of_term (term_of ps)) plan.peak }
    ensures renamed { (names : List ℕ) (system : TaskSystem) (ps : List Position) (plan : PlanValue) → IsTerms ps →
        IsRenamed names (system_of_term (term_of ps)) system → IsAccepted system ps plan → IsLeast system plan.peak }
{
    position_law();
    list_law();
    least_law();
    renaming_law();
}

/// A plan is accepted or objected to, never both; there is one first objection to a plan that is not accepted. So it has one verdict.
pub fn accepted_or_objected()
    ensures some { (system : TaskSystem) (ps : List Position) (plan : PlanValue) →
        IsAccepted system ps plan ⊎ ((objection : Objection) × IsObjection system ps plan objection) }
    ensures not_both { (system : TaskSystem) (ps : List Position) (plan : PlanValue) (objection : Objection) →
        IsAccepted system ps plan → IsObjection system ps plan objection → ⊥ }
    ensures one_objection { (system : TaskSystem) (ps : List Position) (plan : PlanValue) (one two : Objection) →
        IsObjection system ps plan one → IsObjection system ps plan two → one ≡ two }
    ensures one_verdict { (system : TaskSystem) (ps : List Position) (plan : PlanValue) (one two : Verdict) →
        IsVerdict system ps plan one → IsVerdict system ps plan two → one ≡ two }
{
    traversal_law();
}
