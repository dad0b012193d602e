//! Laws of terms: each contract is a law, and each body is empty or names the laws that it stands on.
ghost use Rattle.std.specs.Prelude.{◌≡◌, ℕ, ◌+◌, ◌-◌, ◌<◌, ◌≤◌, All, List, length, map, slice_index_or};
ghost use Rattle.limits.specs.Limits.{most_total};
ghost use Rattle.mp_system.specs.System.{IsSystem};
ghost use Rattle.mp_system.specs.declared.system.Task.{Task};
ghost use Rattle.sp_terms.specs.declared.position.Position.{Position};
ghost use Rattle.sp_terms.specs.Term.{Term, series, initial_of, final_of, IsAllowed};
ghost use Rattle.sp_terms.specs.Places.{term_of_position, parts_of, part_positions, IsTermAt};
ghost use Rattle.sp_terms.specs.Postfix.{Denotes, postfix};
ghost use Rattle.sp_terms.specs.SystemOfTerm.{system_of_term};
ghost use Rattle.sp_terms.specs.Values.{IsTerms, term_of};

/// Positions within the limits denote a term whose shares are allowed, and whose system is within the limits of systems. A list of
/// positions denotes a term exactly where it is its postfix form.
pub fn terms_law()
    ensures denotes { (positions : List Position) → IsTerms positions → Denotes positions (term_of positions) }
    ensures allowed { (positions : List Position) → IsTerms positions → IsAllowed (term_of positions) }
    ensures system { (positions : List Position) → IsTerms positions → IsSystem (system_of_term (term_of positions)) }
    ensures form { (t : Term) → Denotes (postfix t) t }
    ensures only { (positions : List Position) (t : Term) → Denotes positions t → positions ≡ postfix t }
{}

/// The parts of the term at a position stand at the positions that their widths say, before it. The whole term stands at the last
/// position. Each term at a position is what that position says, with shares that are allowed and a hill that is within
/// the total.
pub fn position_law()
    ensures parts { (positions : List Position) (k : ℕ) → IsTerms positions → 1 ≤ k → k ≤ length positions →
        map (term_of_position positions) (part_positions k (term_of_position positions k)) ≡ parts_of (term_of_position positions k) }
    ensures before { (positions : List Position) (k : ℕ) → IsTerms positions → 1 ≤ k → k ≤ length positions →
        All (λ j. (1 ≤ j) × (j < k)) (part_positions k (term_of_position positions k)) }
    ensures last { (positions : List Position) → IsTerms positions → term_of_position positions (length positions) ≡ term_of positions }
    ensures own { (positions : List Position) (k : ℕ) (d : Position) → IsTerms positions → 1 ≤ k → k ≤ length positions →
        IsTermAt (slice_index_or positions (k - 1) d) (term_of_position positions k) }
    ensures allowed { (positions : List Position) (k : ℕ) → IsTerms positions → 1 ≤ k → k ≤ length positions →
        IsAllowed (term_of_position positions k) }
    ensures small { (positions : List Position) (k : ℕ) (a : Term) (v : Task) (b : Term) →
        IsTerms positions → 1 ≤ k → k ≤ length positions →
        term_of_position positions k ≡ series a v b → final_of a + (v.extra + initial_of b) ≤ most_total }
{}
