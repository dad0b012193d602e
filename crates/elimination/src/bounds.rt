//! Bounds of degrees, and the vertex that is eliminated next.

ghost use Rattle.std.specs.Prelude.{◌≡◌, ℕ, Bool, ◌+◌, ◌-◌, ◌<◌, ◌≤◌, IsTrue, length, slice_index, false, IfOk, OnOk};
ghost use Rattle.limits.specs.Limits.{most_order};
ghost use Rattle.elimination.specs.Elimination.{IsVertex, degree_of};
ghost use Rattle.patterns.specs.Pattern.{has};
ghost use Rattle.elimination.specs.Quotients.{Quotient, at};
ghost use Rattle.elimination.specs.Tables.{tables, AllHaveLength};
ghost use Rattle.elimination.specs.Turns.{HasMarks, IsSearch, IsChosen};

use crate::NoMemory;
use crate::search::Search;
use crate::switch::Effort;
use crate::twins::weigh;
use min_tree::MinTree;
use patterns::Pattern;
use std::alloc::Global;

// Lowers the bounds of these vertices by one.
#[inline(never)]
pub fn lower(list: &[u32], bounds: &mut MinTree)
    requires { (j : ℕ) → j < length list.now → slice_index list.now j < length bounds.old }
    ensures len { length bounds.new ≡ length bounds.old }
    ensures listed { (x : ℕ) → IsTrue (has list.now x) → at bounds.new x ≤ at bounds.old x - 1 }
    ensures others { (x : ℕ) → has list.now x ≡ false → at bounds.new x ≡ at bounds.old x }
{
    for w in list {
        let bound = bounds.at(*w as usize);
        bounds.put(*w as usize, bound.saturating_sub(1));
    }
}

impl Search {
    // The degree of v, whose neighbours are gathered.
    fn degree(&self, v: u32) -> u64
        requires lengths { AllHaveLength (length self.now.turns.items) self.now }
        requires few { length self.now.turns.items ≤ (most_order + 1) }
        requires start { (q : Quotient) × HasMarks q (tables self.now) v }
        ensures { (q : Quotient) → HasMarks q (tables self.now) v → result ≡ degree_of q.left q.order v }
    {
        let weight = u64::from(self.sizes[v as usize]) + weigh(&self.hood.near, &self.sizes);
        weight.saturating_sub(1)
    }

    // The vertex that is eliminated next. Degrees are counted only of vertices whose bound is the least: a bound that is too low is raised,
    // and a twin that is found on the way joins the vertex.
    pub fn choose(
        &mut self,
        alloc: Global,
        pattern: &Pattern,
        effort: &mut Effort,
    ) -> Result<u32, NoMemory>
        requires lengths { AllHaveLength (length pattern.now + 1) self.old }
        requires few { length pattern.now ≤ most_order }
        requires some { (w : ℕ) × IsVertex (length pattern.now) w × (at self.old.turns.items w ≡ 0) }
        requires start { (left : ℕ → ℕ → Bool) × IsSearch pattern.now left (tables self.old) }
        ensures lengths { OnOk result (AllHaveLength (length pattern.now + 1) self.new) }
        ensures turns { OnOk result (self.new.turns ≡ self.old.turns) }
        ensures chosen { IfOk result (λ v. (left : ℕ → ℕ → Bool) → IsSearch pattern.now left (tables self.old)
            → IsChosen pattern.now left (tables self.new) v) }
    {
        'search: loop {
            let vertex = self.bounds.first_least() as u32;
            self.gather(vertex, pattern.neighbours(vertex))?;
            let degree = self.degree(vertex);
            effort.note(self.hood.near.len(), degree);
            if degree <= self.bounds.at(vertex as usize) {
                self.release(vertex);
                return Ok(vertex);
            }
            let twin = self.find_twin(pattern, degree);
            self.release(vertex);
            self.bounds.put(vertex as usize, degree);
            let Some(twin) = twin else {
                continue;
            };
            self.join(alloc, vertex.min(twin), vertex.max(twin))?;
        }
    }
}
