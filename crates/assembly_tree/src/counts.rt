//! A test of what `supernodes` asks of counts.

ghost use Rattle.std.specs.Prelude.{◌≡◌, ◌↔◌, length, IsTrue};
ghost use Rattle.permutations.specs.Perm.{IsVertex};
ghost use Rattle.assembly_tree.specs.Supernodes.{AreColumnCounts, IsColumnCount};

use elim_tree::Parents;

/// Whether column j, of 1 to n, may have the count that it has: at least 1, of a root just 1, and of any other column at most one more
/// than its parent has.
pub fn is_count(parents: &Parents, counts: &[u32], j: u32) -> bool
    requires len { length counts.now ≡ length parents.now }
    requires column { IsVertex (length parents.now) j }
    ensures { IsTrue result ↔ IsColumnCount parents.now counts.now j }
{
    let count = counts[j as usize - 1];
    match parents.at(j) {
        0 => count == 1,
        p => count != 0 && count - 1 <= counts[p as usize - 1],
    }
}

/// Whether counts may be those of the columns of a factor with this elimination tree, as `supernodes` asks: one for each column, and
/// each passes `is_count`. Linear in the columns.
pub fn are_counts(parents: &Parents, counts: &[u32]) -> bool
    ensures { IsTrue result ↔ AreColumnCounts parents.now counts.now }
{
    let n = parents.len();
    counts.len() == n as usize && (0..n).all(|i| is_count(parents, counts, i + 1))
}
