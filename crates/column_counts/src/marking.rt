//! Counts by marking the rows of the factor: in row i stand i itself and the columns on the ways up from its earlier neighbours to i.

ghost use Rattle.std.specs.Prelude.{◌≡◌, ℕ, ◌+◌, ◌<◌, ◌≤◌, length, slice_index, IfOk};
ghost use Rattle.patterns.specs.Pattern.{is_joined};
ghost use Rattle.ordering.specs.Fill.{renumbered, count_of, parents_of, counts_of};
ghost use Rattle.elim_tree.specs.Postorders.{IsNumberedInPostorder};
ghost use Rattle.column_counts.specs.Marks.{Row, CanMarkUp, IsMarkedUp, CanMarkRow, IsMarkedRow};

use crate::NoMemory;
use elim_tree::Parents;
use elim_tree::laws::{no_earlier_row, renumbered_pattern, row_subtrees};
use ordering::laws::parent_is_first;
use patterns::Pattern;
use permutations::Perm;
use permutations::laws::places_are_inverse;
use std::alloc::Global;

// Marks with i and counts the columns on the way up from `start`, as far as none is marked.
fn mark_up(counts: &mut [u32], marks: &mut [u32], parents: &Parents, start: u32, i: u32)
    requires lengths { (length counts.old ≡ length parents.now + 1) × (length marks.old ≡ length parents.now + 1)
        × (i ≤ length parents.now) }
    requires row { (row : Row) × CanMarkUp row i start parents.now counts.old marks.old }
    ensures { (row : Row) → CanMarkUp row i start parents.now counts.old marks.old →
        IsMarkedUp row i start parents.now marks.old counts.new marks.new }
{
    let mut column = start;
    'way: while marks[column as usize] != i {
        marks[column as usize] = i;
        counts[column as usize] += 1;
        column = parents.at(column);
    }
}

// Marks and counts the columns of row i.
fn mark_row(
    counts: &mut [u32],
    marks: &mut [u32],
    parents: &Parents,
    row: &[u32],
    perm: &Perm,
    i: u32,
)
    requires lengths { (length counts.old ≡ length parents.now + 1) × (length marks.old ≡ length parents.now + 1)
        × (i ≤ length parents.now) }
    requires vertices { (j : ℕ) → j < length row.now → slice_index row.now j ≤ length perm.now }
    requires row { (factor : Row) × CanMarkRow factor i row.now perm.now parents.now counts.old marks.old }
    ensures { (factor : Row) → CanMarkRow factor i row.now perm.now parents.now counts.old marks.old →
        IsMarkedRow factor i row.now perm.now (length row.now) parents.now counts.new marks.new }
{
    marks[i as usize] = i;
    counts[i as usize] += 1;
    for vertex in row {
        let column = perm.place(*vertex);
        if column < i {
            mark_up(counts, marks, parents, column, i);
        }
    }
}

// Marks and counts row after row.
fn mark_rows(
    counts: &mut [u32],
    marks: &mut [u32],
    pattern: &Pattern,
    perm: &Perm,
    parents: &Parents,
)
    requires lengths { (length counts.old ≡ length perm.now + 1) × (length marks.old ≡ length perm.now + 1) }
    requires clear { (x : ℕ) → (slice_index counts.old x ≡ 0) × (slice_index marks.old x ≡ 0) }
    requires len { length perm.now ≡ length pattern.now }
    requires tree { parents.now ≡ parents_of (renumbered (is_joined pattern.now) perm.now) (length perm.now) }
    ensures len { length counts.new ≡ length counts.old }
    ensures all { (x : ℕ) → slice_index counts.new x ≡ count_of (renumbered (is_joined pattern.now) perm.now) (length perm.now) x }
{
    row_subtrees();
    renumbered_pattern();
    no_earlier_row();
    parent_is_first();
    places_are_inverse();
    perm.keeps();
    parents.keeps();
    for i in 1..pattern.rows() + 1 {
        let row = pattern.neighbours(perm.at(i));
        mark_row(counts, marks, parents, row, perm, i);
    }
}

/// The counts of all columns, the plain way: each row of the factor is marked, column by column. Time grows with the sum of the counts.
pub fn counts_by_marking(
    alloc: Global,
    pattern: &Pattern,
    perm: &Perm,
    parents: &Parents,
) -> Result<Vec<u32>, NoMemory>
    requires len { length perm.now ≡ length pattern.now }
    requires tree { parents.now ≡ parents_of (renumbered (is_joined pattern.now) perm.now) (length perm.now) }
    requires in_postorder { IsNumberedInPostorder parents.now }
    ensures { IfOk result (λ counts. counts.items ≡ counts_of (renumbered (is_joined pattern.now) perm.now) (length perm.now)) }
{
    let places = perm.len() as usize + 1;
    let mut counts = vec![in alloc; 0u32; places]?;
    let mut marks = vec![in alloc; 0u32; places]?;
    mark_rows(&mut counts, &mut marks, pattern, perm, parents);
    Vec::from_slice(alloc, &counts[1..])
}
