//! The leaves of the row subtrees, and where the ways up from them meet.

ghost use Rattle.std.specs.Prelude.{◌≡◌, ℕ, Bool, ◌+◌, ◌-◌, ◌^◌, ◌<◌, ◌≤◌, length, map, IfOk, slice_index};
ghost use Rattle.std.specs.List.{range_with_len};
ghost use Rattle.limits.specs.Limits.{most_order};
ghost use Rattle.patterns.specs.Pattern.{is_joined};
ghost use Rattle.ordering.specs.Fill.{renumbered, parents_of};
ghost use Rattle.permutations.specs.Perm.{place_of};
ghost use Rattle.column_counts.specs.Leaves.{IsFirsts, AreSpans, with_entry, AreEmpty, AreReady, HoldLeaves, CanTakeColumn};
ghost use Rattle.column_counts.specs.Leaves.{AreLeavesBefore, AreAtMost, growth, AreBalanced, AreSums, HasCount};

use crate::NoMemory;
use crate::ancestors::Ancestors;
use elim_tree::Parents;
use elim_tree::laws::{no_earlier_row, renumbered_pattern, row_subtrees};
use ordering::laws::parent_is_first;
use patterns::Pattern;
use permutations::Perm;
use permutations::laws::places_are_inverse;
use std::alloc::Global;

// The leaves of the row subtrees, as columns are taken into their rows one after another.
#[derive(Drop)]
pub(crate) struct Leaves {
    pub(crate) ancestors: Ancestors,
    // the last leaf of each row, or 0, by the vertex of the row's own column: so a neighbour is looked up here, and its place only where
    // there may be a leaf
    pub(crate) last: Vec<u32>,
    // of how many rows each column is a leaf
    pub(crate) leaves: Vec<u64>,
    // how often a way up meets another one at each column
    pub(crate) meetings: Vec<u64>,
}

impl Leaves {
    // Before any column is taken.
    pub(crate) fn new(alloc: Global, parents: &Parents) -> Result<Leaves, NoMemory>
        ensures { IfOk result (AreEmpty parents.now) }
    {
        let places = parents.len() as usize + 1;
        let ancestors = Ancestors::new(alloc, parents)?;
        let last = vec![in alloc; 0u32; places]?;
        let leaves = vec![in alloc; 0u64; places]?;
        let meetings = vec![in alloc; 0u64; places]?;
        Ok(Leaves {
            ancestors,
            last,
            leaves,
            meetings,
        })
    }

    // Takes column `j` into the row of a vertex, where that is not an earlier one. Where it is a further leaf of the row subtree, its way
    // up is new as far as it meets that of the last leaf.
    fn take_leaf(&mut self, firsts: &[u32], perm: &Perm, vertex: u32, j: u32)
        requires len { length firsts.now ≡ length perm.now + 1 }
        requires places { (0 < slice_index firsts.now j) × (j < length firsts.now) × (vertex ≤ length perm.now) }
        requires small { AreAtMost (2 ^ 63) self.old }
        requires spans { AreSpans (slice_index firsts.now) }
        requires ready { AreReady firsts.now j self.old }
        requires before { 0 < slice_index self.old.last.items vertex →
            slice_index firsts.now (place_of perm.now vertex) ≤ slice_index self.old.last.items vertex }
        ensures taken { j ≤ place_of perm.now vertex → (taken : ℕ → ℕ → Bool) → HoldLeaves firsts.now perm.now j taken self.old →
            HoldLeaves firsts.now perm.now j (with_entry taken (place_of perm.now vertex) j) self.new }
        ensures left_out { place_of perm.now vertex < j → (taken : ℕ → ℕ → Bool) → HoldLeaves firsts.now perm.now j taken self.old →
            HoldLeaves firsts.now perm.now j taken self.new }
        ensures ready { AreReady firsts.now j self.new }
        ensures growth { (bound : ℕ) → AreAtMost bound self.old → AreAtMost (bound + 1) self.new }
    {
        places_are_inverse();
        perm.keeps();
        let leaf = self.last[vertex as usize];
        if firsts[j as usize] <= leaf {
            return;
        }
        let i = perm.place(vertex);
        if i < j {
            return;
        }
        self.leaves[j as usize] += 1;
        self.last[vertex as usize] = j;
        if leaf == 0 {
            return;
        }
        let meeting = self.ancestors.least_common(leaf, j);
        self.meetings[meeting as usize] += 1;
    }

    // Takes column `j` into its own row and into those of its later neighbours.
    fn take_column(&mut self, firsts: &[u32], row: &[u32], perm: &Perm, j: u32)
        requires len { length firsts.now ≡ length perm.now + 1 }
        requires places { (0 < slice_index firsts.now j) × (j < length firsts.now) × (j ≤ most_order) × (length row.now ≤ most_order) }
        requires vertices { (k : ℕ) → k < length row.now → slice_index row.now k ≤ length perm.now }
        requires small { AreAtMost (growth (j - 1)) self.old }
        requires spans { AreSpans (slice_index firsts.now) }
        requires ready { AreReady firsts.now j self.old }
        requires row { (joined : ℕ → ℕ → Bool) × CanTakeColumn joined firsts.now row.now perm.now j self.old }
        ensures taken { (joined : ℕ → ℕ → Bool) → CanTakeColumn joined firsts.now row.now perm.now j self.old →
            AreLeavesBefore joined firsts.now perm.now (j + 1) self.new }
        ensures ready { AreReady firsts.now (j + 1) self.new }
        ensures small { AreAtMost (growth j) self.new }
    {
        places_are_inverse();
        perm.keeps();
        self.take_leaf(firsts, perm, perm.at(j), j);
        for vertex in row {
            self.take_leaf(firsts, perm, *vertex, j);
        }
    }

    // Takes column after column. Over the span of a column, leaves less meetings then come to its count and one for each column below it.
    pub(crate) fn take_columns(
        &mut self,
        firsts: &[u32],
        pattern: &Pattern,
        perm: &Perm,
        parents: &Parents,
    )
        requires len { length perm.now ≡ length pattern.now }
        requires tree { parents.now ≡ parents_of (renumbered (is_joined pattern.now) perm.now) (length perm.now) }
        requires long { length firsts.now ≡ length parents.now + 1 }
        requires firsts { IsFirsts parents.now firsts.now }
        requires empty { AreEmpty parents.now self.old }
        ensures balanced { AreBalanced (renumbered (is_joined pattern.now) perm.now) (length perm.now) firsts.now self.new }
        ensures small { AreAtMost (growth most_order) self.new }
        ensures lengths { (length self.new.leaves.items ≡ length firsts.now) × (length self.new.meetings.items ≡ length firsts.now) }
    {
        row_subtrees();
        renumbered_pattern();
        no_earlier_row();
        parent_is_first();
        places_are_inverse();
        perm.keeps();
        parents.keeps();
        for j in 1..pattern.rows() + 1 {
            let row = pattern.neighbours(perm.at(j));
            self.take_column(firsts, row, perm, j);
        }
    }

    // Puts at each column the sums of leaves and of meetings over the columns up to it.
    pub(crate) fn sum_up(&mut self)
        requires len { length self.old.meetings.items ≡ length self.old.leaves.items }
        requires few { length self.old.leaves.items ≤ most_order + 1 }
        requires small { AreAtMost (growth most_order) self.old }
        ensures leaves { AreSums self.old.leaves.items self.new.leaves.items }
        ensures meetings { AreSums self.old.meetings.items self.new.meetings.items }
    {
        for x in 1..self.leaves.len() {
            self.leaves[x] += self.leaves[x - 1];
            self.meetings[x] += self.meetings[x - 1];
        }
    }

    // The counts, of the sums up to each column: over the span of a column, leaves less meetings are its count and one for each column
    // below it.
    pub(crate) fn counts(&self, alloc: Global, firsts: &[u32]) -> Result<Vec<u32>, NoMemory>
        requires lengths { (0 < length firsts.now) × (length self.now.leaves.items ≡ length firsts.now)
            × (length self.now.meetings.items ≡ length firsts.now) }
        requires counts { (count : ℕ → ℕ) × ((x : ℕ) → 0 < x → x < length firsts.now → HasCount firsts.now self.now x (count x)) }
        ensures { (count : ℕ → ℕ) → ((x : ℕ) → 0 < x → x < length firsts.now → HasCount firsts.now self.now x (count x)) →
            IfOk result (λ counts. counts.items ≡ map count (range_with_len 1 (length firsts.now - 1))) }
    {
        let mut counts = Vec::with_capacity(alloc, firsts.len() - 1)?;
        for column in 1..firsts.len() {
            let first = firsts[column] as usize;
            let leaves = self.leaves[column] - self.leaves[first - 1];
            let meetings = self.meetings[column] - self.meetings[first - 1];
            let descendants = (column - first) as u64;
            counts.push((leaves - meetings - descendants) as u32)?;
        }
        Ok(counts)
    }
}
