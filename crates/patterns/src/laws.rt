//! Laws of patterns: what holds of each, without a call.

ghost use Rattle.std.specs.Prelude.{◌≡◌, ◌≤◌, ℕ, List, All};
ghost use Rattle.limits.specs.Limits.{most_order};
ghost use Rattle.patterns.specs.Pattern.{IsPairWithin, IsPatternOf};
ghost use Rattle.patterns.specs.Plain.{plain_rows};

/// Pairs of vertices have one pattern: that which lists, for each vertex, all that some pair names with it.
pub fn one_pattern()
    ensures some { (order : ℕ) (pairs : List (ℕ × ℕ)) → 1 ≤ order → order ≤ most_order → All (IsPairWithin order) pairs →
        IsPatternOf order pairs (plain_rows order pairs) }
    ensures one { (order : ℕ) (pairs : List (ℕ × ℕ)) (one two : List (List ℕ)) →
        IsPatternOf order pairs one → IsPatternOf order pairs two → one ≡ two }
{}
