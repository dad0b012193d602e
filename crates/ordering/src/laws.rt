//! Laws of the fill and of the minimum degree order: what holds of each, without a call.

ghost use Rattle.std.specs.Prelude.{◌≡◌, ◌≤◌, ℕ, Bool, List};
ghost use Rattle.ordering.specs.Fill.{IsAdjacency, graph_at, filled, parent_of, IsParent};
ghost use Rattle.ordering.specs.MinimumDegree.{IsMinimumDegreeOrder, plain_order};

/// To eliminate the columns below j leaves the pairs that are there once their later neighbours were joined: the fill has two definitions.
pub fn filling_is_elimination()
    ensures { (joined : ℕ → ℕ → Bool) (j a b : ℕ) → j ≤ a → j ≤ b → filled joined j a b ≡ graph_at joined j a b }
{}

/// To eliminate 0, which is joined to nothing, leaves every pair as it is.
pub fn nothing_of_0()
    ensures { (joined : ℕ → ℕ → Bool) (a b : ℕ) → IsAdjacency joined → 1 ≤ a → 1 ≤ b → graph_at joined 1 a b ≡ joined a b }
{}

/// The parent of a column is the first column after it in its structure, or 0 where there is none, and no other number is that.
pub fn parent_is_first()
    ensures parent { (joined : ℕ → ℕ → Bool) (n j : ℕ) → IsParent joined n j (parent_of joined n j) }
    ensures one { (joined : ℕ → ℕ → Bool) (n j p q : ℕ) → IsParent joined n j p → IsParent joined n j q → p ≡ q }
{}

/// A pattern has one minimum degree order: the one that is made the plain and slow way.
pub fn one_minimum_degree_order()
    ensures some { (joined : ℕ → ℕ → Bool) (n : ℕ) → IsMinimumDegreeOrder joined n (plain_order joined n) }
    ensures one { (joined : ℕ → ℕ → Bool) (n : ℕ) (one two : List ℕ) →
        IsMinimumDegreeOrder joined n one → IsMinimumDegreeOrder joined n two → one ≡ two }
{}
