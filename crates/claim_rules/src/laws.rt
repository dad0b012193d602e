//! Laws over the definitions: each contract is a law, and each body is empty or names the laws that it stands on.
ghost use Rattle.std.specs.Prelude.{◌≡◌, ℕ, ◌≤◌, ℤ, pos, ◌≤ℤ◌, ◌+ℤ◌, List, length, Option, Some};
ghost use Rattle.mp_system.specs.Memory.{peak_of};
ghost use Rattle.mp_system.specs.Traversal.{IsTraversal, IsLeast};
ghost use Rattle.sp_terms.specs.declared.position.Position.{Position};
ghost use Rattle.sp_terms.specs.Places.{term_of_position, parts_of};
ghost use Rattle.sp_terms.specs.SystemOfTerm.{system_of_term};
ghost use Rattle.sp_terms.specs.Term.{Term, IsAllowed};
ghost use Rattle.sp_terms.specs.Values.{IsTerms};
ghost use Rattle.claim_rules.specs.Claims.{Claim, IsSound, AreSound};
ghost use Rattle.claim_rules.specs.Derivations.{Derives};
ghost use Rattle.claim_rules.specs.Placed.{AllMeet};
ghost use Rattle.claim_rules.specs.Rules.{MeetsRule};

use sp_term_laws::laws::{run_law, state_law, way_law};
use sp_terms::laws::position_law;

/// A claim that meets a rule, over sound claims of its parts, is sound.
pub fn rule_law()
    ensures { (t : Term) (cs : List (Option Claim)) (c : Claim) → IsAllowed t → AreSound (parts_of t) cs → MeetsRule t cs c → IsSound t c }
{
    state_law();
    way_law();
    run_law();
}

/// So what the rules give is sound.
pub fn derivation_law()
    ensures { (t : Term) (c : Claim) → IsAllowed t → Derives t c → IsSound t c }
{
    state_law();
    way_law();
    run_law();
}

/// Where every claim of a list meets its rule, the rules give every one, and every one is sound.
pub fn list_law()
    ensures derived { (ps : List Position) (claim_at : ℕ → Option Claim) → IsTerms ps → AllMeet ps claim_at →
        (k : ℕ) (c : Claim) → 1 ≤ k → k ≤ length ps → claim_at k ≡ Some c → Derives (term_of_position ps k) c }
    ensures sound { (ps : List Position) (claim_at : ℕ → Option Claim) → IsTerms ps → AllMeet ps claim_at →
        (k : ℕ) (c : Claim) → 1 ≤ k → k ≤ length ps → claim_at k ≡ Some c → IsSound (term_of_position ps k) c }
{
    position_law();
    derivation_law();
}

/// The peak of a traversal is least where a sound claim has a bound of at least the peak less 1.
pub fn least_law()
    ensures { (t : Term) (c : Claim) (order : List ℕ) → IsTraversal (system_of_term t) order → IsSound t c →
        pos (peak_of (system_of_term t) order) ≤ℤ (c.bound +ℤ pos 1) → IsLeast (system_of_term t) (peak_of (system_of_term t) order) }
{}
