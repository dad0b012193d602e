ghost use Rattle.std.specs.Prelude.{◌≡◌, ℕ, ◌+◌, ◌<◌, ◌≤◌, ◌^◌, length, slice_index, IfOk};
ghost use Rattle.permutations.specs.Perm.{AreInverse, IsVertex};
ghost use Rattle.elim_tree.specs.ParentTables.{parents_in, IsParentTable};
ghost use Rattle.elim_tree.specs.Postorders.{Precedes, IsPostorder};
ghost use Rattle.elim_tree.specs.Spans.{AreSpanSizes, ArePlaces};

use crate::NoMemory;
use crate::parents::Parents;
use permutations::Perm;
use std::alloc::Global;

// Counts for each column the columns below it, and those in the subtrees of its earlier siblings.
fn count_below(parents: &[u32], below: &mut [u32], before: &mut [u32])
    requires lengths { (length below.old ≡ length parents.now) × (length before.old ≡ length parents.now) }
    requires table { IsParentTable parents.now }
    requires none { (x : ℕ) → slice_index below.old x ≡ 0 }
    ensures counted { AreSpanSizes (length parents.now) (slice_index parents.now) (slice_index below.new) (slice_index before.new) }
    ensures unused { slice_index before.new 0 ≡ slice_index before.old 0 }
{
    for j in 1..parents.len() {
        let p = parents[j] as usize;
        before[j] = below[p];
        below[p] += below[j] + 1;
    }
}

// Places the columns from the last one on, so that a parent comes before its children. The span of a column starts where its parent's
// does, past those of its earlier siblings, and the column itself ends it.
fn place_columns(parents: &[u32], below: &[u32], starts: &mut [u32], places: &mut [u32])
    requires lengths { (length below.now ≡ length parents.now) × (length starts.old ≡ length parents.now)
        × (length places.old ≡ length parents.now) }
    requires table { IsParentTable parents.now }
    requires counted { AreSpanSizes (length parents.now) (slice_index parents.now) (slice_index below.now) (slice_index starts.old) }
    requires unused { (slice_index starts.old 0 ≡ 0) × (slice_index places.old 0 ≡ 0) }
    ensures len { length places.new ≡ length places.old }
    ensures places { ArePlaces (length parents.now) (slice_index places.new) }
    ensures before { (a b : ℕ) → IsVertex (length (parents_in parents.now)) a → IsVertex (length (parents_in parents.now)) b →
        Precedes (parents_in parents.now) a b → slice_index places.new a < slice_index places.new b }
{
    for j in (1..parents.len()).rev() {
        let start = starts[parents[j] as usize] + starts[j];
        starts[j] = start;
        places[j] = start + below[j] + 1;
    }
}

// Writes each column at its place.
fn invert(places: &[u32], vertices: &mut [u32])
    requires lengths { (length vertices.old ≡ length places.now) × (0 < length places.now) × (length places.now ≤ 2 ^ 32) }
    requires places { ArePlaces (length places.now) (slice_index places.now) }
    ensures { AreInverse vertices.new places.now }
{
    for (j, place) in places.iter().enumerate() {
        vertices[*place as usize] = j as u32;
    }
}

/// The columns in postorder: each after those below it, which stand right before it; roots, and the children of a column, come by rising
/// number. Linear, by passes up and down the numbers, without a stack. Liu 1990.
pub fn postorder(alloc: Global, parents: &Parents) -> Result<Perm, NoMemory>
    ensures { IfOk result (λ order. IsPostorder parents.now order) }
{
    let table = parents.table.as_slice();
    let len = table.len();
    let mut below = vec![in alloc; 0u32; len]?;
    let mut starts = vec![in alloc; 0u32; len]?;
    count_below(table, &mut below, &mut starts);
    let mut places = vec![in alloc; 0u32; len]?;
    place_columns(table, &below, &mut starts, &mut places);
    let mut vertices = vec![in alloc; 0u32; len]?;
    invert(&places, &mut vertices);
    Ok(Perm::from_tables(vertices, places))
}
