//! One elimination after another.

ghost use Rattle.std.specs.Prelude.{◌≡◌, ◌≢◌, ℕ, Bool, List, ◌+◌, ◌<◌, ◌≤◌, length, slice_set, IfOk, OnOk};
ghost use Rattle.std.specs.List.{All};
ghost use Rattle.limits.specs.Limits.{most_order};
ghost use Rattle.patterns.specs.Pattern.{is_joined};
ghost use Rattle.elimination.specs.Elimination.{IsVertex, times, GoByLeastDegree};
ghost use Rattle.elimination.specs.Quotients.{at};
ghost use Rattle.elimination.specs.Tables.{tables, AllHaveLength};
ghost use Rattle.elimination.specs.Turns.{IsSearch, IsEliminated};
ghost use Rattle.elimination.specs.Progress.{IsBegun, IsUnderWay, IsFinishing};

use crate::NoMemory;
use crate::bounds::lower;
use crate::parts::absorb;
use crate::search::Search;
use crate::switch::Effort;
use patterns::Pattern;
use std::alloc::Global;

impl Search {
    // Eliminates the next vertex, and gives those for which it stood back to the search.
    fn eliminate_next(
        &mut self,
        alloc: Global,
        pattern: &Pattern,
        place: u32,
        effort: &mut Effort,
    ) -> Result<u32, NoMemory>
        requires lengths { AllHaveLength (length pattern.now + 1) self.old }
        requires few { length pattern.now ≤ most_order }
        requires latest { (x : ℕ) → at self.old.turns.items x < place }
        requires some { (w : ℕ) × IsVertex (length pattern.now) w × (at self.old.turns.items w ≡ 0) }
        requires start { (left : ℕ → ℕ → Bool) × IsSearch pattern.now left (tables self.old) }
        ensures lengths { OnOk result (AllHaveLength (length pattern.now + 1) self.new) }
        ensures turn { IfOk result (λ v. self.new.turns.items ≡ slice_set self.old.turns.items v place) }
        ensures eliminated { IfOk result (λ v. (left : ℕ → ℕ → Bool) → IsSearch pattern.now left (tables self.old)
            → IsEliminated pattern.now left (at self.old.turns.items) (tables self.new) v) }
    {
        let vertex = self.choose(alloc, pattern, effort)?;
        let bound = self.bounds.at(vertex as usize).saturating_sub(1);
        lower(&self.hood.near, &mut self.bounds);
        self.bounds.put(vertex as usize, u64::MAX);
        self.turns[vertex as usize] = place;
        absorb(alloc, vertex, &self.hood, &mut self.links, &mut self.rims)?;
        self.give_back(alloc, pattern, vertex, bound)?;
        Ok(vertex)
    }
}

// Lists the vertices that are left, where all of them are joined to each other: by rising number.
fn finish(n: u32, vertices: &mut Vec<u32>, turns: &[u32]) -> Result<(), NoMemory>
    requires turns { length turns.now ≡ n + 1 }
    requires some { 1 ≤ n }
    requires few { n ≤ most_order }
    ensures { OnOk result ((rows : List (List ℕ)) → length rows ≡ n → IsFinishing rows vertices.old.items (at turns.now) 1
        → IsFinishing rows vertices.new.items (at turns.now) (n + 1)) }
{
    for v in 1..=n {
        if turns[v as usize] != 0 {
            continue;
        }
        vertices.push(v)?;
    }
    Ok(())
}

// Eliminates the vertices that are left, by rows of bits.
fn eliminate_rest(
    alloc: Global,
    pattern: &Pattern,
    search: &mut Search,
    vertices: &mut Vec<u32>,
) -> Result<(), NoMemory>
    requires lengths { AllHaveLength (length pattern.now + 1) search.old }
    requires few { length pattern.now ≤ most_order }
    requires start { (place : ℕ) × IsUnderWay pattern.now vertices.old.items (tables search.old) place }
    ensures len { OnOk result (length vertices.new.items ≡ length pattern.now) }
    ensures begun { OnOk result (IsBegun (is_joined pattern.now) (length pattern.now) vertices.new.items) }
{
    let rest = search.to_dense(alloc, pattern)?;
    rest.eliminate(alloc, vertices)?;
    Ok(())
}

// Eliminates all vertices, from the first place on, and lists them.
fn eliminate_all(
    alloc: Global,
    pattern: &Pattern,
    search: &mut Search,
    vertices: &mut Vec<u32>,
) -> Result<(), NoMemory>
    requires lengths { AllHaveLength (length pattern.now + 1) search.old }
    requires start { IsUnderWay pattern.now vertices.old.items (tables search.old) 1 }
    ensures len { OnOk result (length vertices.new.items ≡ length pattern.now) }
    ensures begun { OnOk result (IsBegun (is_joined pattern.now) (length pattern.now) vertices.new.items) }
{
    let n = pattern.rows();
    let mut effort = Effort { left: n, dear: 0 };
    for place in 1..=n {
        if u64::from(n - place) <= search.bounds.least() {
            finish(n, vertices, &search.turns)?;
            return Ok(());
        }
        effort.left = n - place + 1;
        if effort.calls_for_rows() {
            eliminate_rest(alloc, pattern, search, vertices)?;
            return Ok(());
        }
        let vertex = search.eliminate_next(alloc, pattern, place, &mut effort)?;
        vertices.push(vertex)?;
    }
    Ok(())
}

/// The vertices of a pattern in the order in which they are eliminated by least degree, of several by least number. Degrees are exact.
pub fn by_least_degree(alloc: Global, pattern: &Pattern) -> Result<Vec<u32>, NoMemory>
    ensures len { IfOk result (λ order. length order.items ≡ length pattern.now) }
    ensures vertices { IfOk result (λ order. All (IsVertex (length pattern.now)) order.items) }
    ensures once { IfOk result (λ order. (v : ℕ) → times order.items v ≤ 1) }
    ensures least { IfOk result (λ order. GoByLeastDegree (is_joined pattern.now) (length pattern.now) order.items) }
{
    let mut vertices = Vec::with_capacity(alloc, pattern.rows() as usize)?;
    let mut search = Search::new(alloc, pattern)?;
    eliminate_all(alloc, pattern, &mut search, &mut vertices)?;
    Ok(vertices)
}
