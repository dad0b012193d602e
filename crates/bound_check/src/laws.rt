//! Laws over the definitions: each contract is a law, and each body names the laws that it stands on.
ghost use Rattle.std.specs.Prelude.{◌≡◌, ℕ, ◌≤◌, List};
ghost use Rattle.mp_system.specs.Memory.{peak_of};
ghost use Rattle.mp_system.specs.Traversal.{IsTraversal};
ghost use Rattle.sp_terms.specs.declared.position.Position.{Position};
ghost use Rattle.sp_terms.specs.SystemOfTerm.{system_of_term};
ghost use Rattle.sp_terms.specs.Values.{IsTerms, term_of};
ghost use Rattle.plans.specs.declared.claim.Claim.{Claim};
ghost use Rattle.shared_systems.specs.Shared.{SharedTaskSystem};
ghost use Rattle.shared_systems.specs.SharedMemory.{shared_peak_of};
ghost use Rattle.shared_systems.specs.SharedTraversal.{IsSharedTraversal, IsLeastShared};
ghost use Rattle.shared_systems.specs.Bounds.{IsSharedSystem};
ghost use Rattle.bounded_plans.specs.BoundedPlan.{BoundedPlanValue};
ghost use Rattle.bound_check.specs.Shown.{ShowBound};
ghost use Rattle.bound_check.specs.Accepted.{IsBoundAccepted};

use claim_rules::laws::list_law;
use peak_bounds::laws::evidence_law;
use shared_reduce::laws::told_term_law;
use sp_terms::laws::position_law;
use state_search::laws::states_law;

/// No order of a term has a peak below a bound that claims on its positions show.
pub fn claims_law()
    ensures { (ps : List Position) (claims : List Claim) (bound : ℕ) (order : List ℕ) →
        IsTerms ps → ShowBound ps claims bound → IsTraversal (system_of_term (term_of ps)) order →
        bound ≤ peak_of (system_of_term (term_of ps)) order }
{
    position_law();
    list_law();
}

/// No order of a system has a peak below the bound of an accepted plan; where the bound is the plan's peak, this is the least peak.
pub fn accepted_law()
    ensures bound { (system : SharedTaskSystem) (plan : BoundedPlanValue) (order : List ℕ) →
        IsSharedSystem system → IsBoundAccepted system plan → IsSharedTraversal system order → plan.bound ≤ shared_peak_of system order }
    ensures least { (system : SharedTaskSystem) (plan : BoundedPlanValue) →
        IsSharedSystem system → IsBoundAccepted system plan → plan.bound ≡ plan.peak → IsLeastShared system plan.peak }
{
    claims_law();
    told_term_law();
    evidence_law();
    states_law();
}
