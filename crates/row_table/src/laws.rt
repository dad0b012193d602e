//! Laws of numbers in rows: what holds without a call.

ghost use Rattle.std.specs.Prelude.{◌≡◌, ℕ, ◌+◌, ◌-◌, ◌<◌, ◌≤◌, ◌==◌, Bool, List, All, length, slice_index};
ghost use Rattle.std.specs.List.{filter, range_with_len};
ghost use Rattle.row_table.specs.Rows.{numbers_with};

/// The numbers with a key are those of the whole range that pass the test of having it. Each of them is in the range, and has the key.
pub fn numbers_law()
    ensures each { (keys : List ℕ) (first k : ℕ) →
        All (λ v. (first ≤ v) × (v - first < length keys) × (slice_index keys (v - first) ≡ k)) (numbers_with keys first k) }
    ensures filtered { (keys : List ℕ) (first k : ℕ) (test : ℕ → Bool) →
        ((i : ℕ) → i < length keys → test (first + i) ≡ (slice_index keys i == k)) →
        filter test (range_with_len first (length keys)) ≡ numbers_with keys first k }
{}
