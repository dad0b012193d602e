//! Laws of permutations: what holds of each, without a call.

ghost use Rattle.std.specs.Prelude.{◌≡◌, ◌≤◌, ℕ, List};
ghost use Rattle.permutations.specs.Perm.{IsPerm, vertex_at, place_of};

/// The vertices by place and the places by vertex are inverse to each other.
pub fn places_are_inverse()
    ensures vertex { (n : ℕ) (order : List ℕ) → IsPerm n order → (v : ℕ) → v ≤ n → vertex_at order (place_of order v) ≡ v }
    ensures place { (n : ℕ) (order : List ℕ) → IsPerm n order → (k : ℕ) → k ≤ n → place_of order (vertex_at order k) ≡ k }
{}
