//! Laws of the fill: what the structure of a column holds, by paths, by its children, and by rows. Laws of postorders.

ghost use Rattle.std.specs.Prelude.{◌≡◌, ◌↔◌, ◌<◌, ◌≤◌, ℕ, Bool, IsTrue, List, length, map};
ghost use Rattle.limits.specs.Limits.{most_order};
ghost use Rattle.patterns.specs.Pattern.{is_joined, IsPattern};
ghost use Rattle.permutations.specs.Perm.{IsVertex, place_of};
ghost use Rattle.ordering.specs.Fill.{structure_of, count_of, parents_of, counts_of, renumbered, IsAdjacency};
ghost use Rattle.elim_tree.specs.Paths.{Path, IsWithin, IsInherited, IsInRowSubtree};
ghost use Rattle.elim_tree.specs.Postorders.{IsPostorder};
ghost use Rattle.elim_tree.specs.Trees.{parent_at, IsForest, IsAbove};

use ordering::laws as fill_laws;
use permutations::laws as permutation_laws;

/// A later row is in the structure of a column exactly where a path through earlier vertices leads to it. Rose, Tarjan and Lueker 1976.
pub fn path_theorem()
    ensures { (joined : ℕ → ℕ → Bool) (j i : ℕ) → IsAdjacency joined → j < i → IsTrue (structure_of joined j i) ↔ Path joined j i j }
{}

/// The structure of a column holds the column itself, its later neighbours, and the structures of its children without the children.
pub fn structure_by_children()
    ensures { (joined : ℕ → ℕ → Bool) (n j i : ℕ) → IsAdjacency joined → IsWithin n joined → IsVertex n j →
        IsTrue (structure_of joined j i) ↔ IsInherited joined n j i }
{
    fill_laws::parent_is_first();
}

/// Row i is in the structures of the columns on the ways up from its earlier neighbours, as far as they are before i: its row subtree.
/// Liu 1990.
pub fn row_subtrees()
    ensures { (joined : ℕ → ℕ → Bool) (n i x : ℕ) → IsAdjacency joined → IsWithin n joined → x < i →
        IsTrue (structure_of joined x i) ↔ IsInRowSubtree joined n i x }
{
    fill_laws::parent_is_first();
}

/// The rows of a pattern join unordered pairs of different vertices, of 1 to n.
pub fn pattern_of_rows()
    ensures pattern { (rows : List (List ℕ)) → IsPattern rows → IsAdjacency (is_joined rows) }
    ensures within { (rows : List (List ℕ)) → IsPattern rows → IsWithin (length rows) (is_joined rows) }
{}

/// And so they do by columns, in whatever order the vertices are eliminated.
pub fn renumbered_pattern()
    ensures pattern { (rows : List (List ℕ)) (order : List ℕ) → IsPattern rows → IsAdjacency (renumbered (is_joined rows) order) }
    ensures within { (rows : List (List ℕ)) (order : List ℕ) → IsPattern rows
        → IsWithin (length order) (renumbered (is_joined rows) order) }
{}

/// The structure of a column holds no row before the column.
pub fn no_earlier_row()
    ensures { (joined : ℕ → ℕ → Bool) (j i : ℕ) → IsTrue (structure_of joined j i) → j ≤ i }
{}

/// The elimination tree of 1 to 10^6 columns is a forest.
pub fn tree_is_forest()
    ensures { (joined : ℕ → ℕ → Bool) (n : ℕ) → 1 ≤ n → n ≤ most_order → IsForest (parents_of joined n) }
{
    fill_laws::parent_is_first();
}

/// A forest has one postorder only.
pub fn one_postorder()
    ensures { (parents one two : List ℕ) → IsForest parents → IsPostorder parents one → IsPostorder parents two → one ≡ two }
{
    permutation_laws::places_are_inverse();
}

/// In postorder the columns of a subtree stand together: whoever stands between a column and one above it is below that one too.
pub fn subtrees_stand_together()
    ensures { (parents order : List ℕ) → IsForest parents → IsPostorder parents order → (a b x : ℕ) → IsVertex (length parents) a →
        IsVertex (length parents) b → IsAbove parents a x → place_of order a ≤ place_of order b → place_of order b ≤ place_of order x →
        IsAbove parents b x }
{}

/// Along the postorder of the elimination tree the fill stays the same: the structures are the renumbered structures, the parents that are
/// carried over are the elimination tree of the new order, and its counts are those of the old columns, along the postorder. Liu 1990.
pub fn reordering()
    ensures structure { (joined : ℕ → ℕ → Bool) (n : ℕ) (post : List ℕ) → IsAdjacency joined → IsWithin n joined →
        IsPostorder (parents_of joined n) post → (j i : ℕ) → IsVertex n j → IsVertex n i →
        structure_of joined j i ≡ structure_of (renumbered joined post) (place_of post j) (place_of post i) }
    ensures parents { (joined : ℕ → ℕ → Bool) (n : ℕ) (post : List ℕ) → IsAdjacency joined → IsWithin n joined →
        IsPostorder (parents_of joined n) post →
        parents_of (renumbered joined post) n ≡ map (λ j. place_of post (parent_at (parents_of joined n) j)) post }
    ensures counts { (joined : ℕ → ℕ → Bool) (n : ℕ) (post : List ℕ) → IsAdjacency joined → IsWithin n joined →
        IsPostorder (parents_of joined n) post → counts_of (renumbered joined post) n ≡ map (count_of joined n) post }
{
    fill_laws::parent_is_first();
    permutation_laws::places_are_inverse();
}
