//! The counts of all columns.

ghost use Rattle.std.specs.Prelude.{◌≡◌, length, IfOk};
ghost use Rattle.patterns.specs.Pattern.{is_joined};
ghost use Rattle.ordering.specs.Fill.{renumbered, parents_of, counts_of};
ghost use Rattle.elim_tree.specs.Postorders.{IsNumberedInPostorder};

use crate::NoMemory;
use crate::leaves::Leaves;
use crate::spans::first_descendants;
use elim_tree::Parents;
use patterns::Pattern;
use permutations::Perm;
use std::alloc::Global;

/// The counts of all columns, each from 1 to n: the sizes of their structures, of a pattern whose vertices are eliminated in this order,
/// which numbers the columns in postorder. By the leaves of the row subtrees, without marking the rows of the factor: near linear in the
/// entries of the pattern, however much fills in. Gilbert, Ng and Peyton 1994.
pub fn counts(
    alloc: Global,
    pattern: &Pattern,
    perm: &Perm,
    parents: &Parents,
) -> Result<Vec<u32>, NoMemory>
    requires len { length perm.now ≡ length pattern.now }
    requires tree { parents.now ≡ parents_of (renumbered (is_joined pattern.now) perm.now) (length perm.now) }
    requires in_postorder { IsNumberedInPostorder parents.now }
    ensures { IfOk result (λ counts. counts.items ≡ counts_of (renumbered (is_joined pattern.now) perm.now) (length perm.now)) }
{
    parents.keeps();
    let firsts = first_descendants(alloc, parents)?;
    let mut leaves = Leaves::new(alloc, parents)?;
    leaves.take_columns(&firsts, pattern, perm, parents);
    leaves.sum_up();
    leaves.counts(alloc, &firsts)
}
