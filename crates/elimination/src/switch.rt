//! From the quotient graph to rows of bits. A row has a bit for each vertex that is left and for no other: these are numbered anew, so that
//! the rows are no longer than what is left.

ghost use Rattle.std.specs.Prelude.{◌≡◌, ◌==◌, ◌≢◌, ◌⊎◌, ℕ, Bool, List, ◌+◌, ◌/◌, ◌<◌, ◌≤◌, IsTrue, length, slice_index, false, IfOk, OnOk};
ghost use Rattle.limits.specs.Limits.{most_order};
ghost use Rattle.bit_rows.specs.Bits.{bit_in};
ghost use Rattle.patterns.specs.Pattern.{has};
ghost use Rattle.elimination.specs.Elimination.{IsVertex};
ghost use Rattle.elimination.specs.Quotients.{Quotient, at, inner_at};
ghost use Rattle.elimination.specs.Hoods.{mark_at};
ghost use Rattle.elimination.specs.Tables.{tables, AllHaveLength};
ghost use Rattle.elimination.specs.Turns.{IsReleased};
ghost use Rattle.elimination.specs.Twins.{is_near};
ghost use Rattle.elimination.specs.Dense.{IsFullRow, IsFilling, IsDense, IsLeastDegreeOrder};
ghost use Rattle.elimination.specs.Switch.{most_of, stage_at, AreNumbered, AreNumbers, IsNumberIn, IsNumberInGroups, CanFill, IsRestAfter};

use crate::NoMemory;
use crate::dense::{DenseSearch, eliminate_dense, row_with};
use crate::search::Search;
use bit_rows::BitRow;
use patterns::Pattern;
use std::alloc::Global;

// The vertices that are left, numbered anew from 1 on, by rising number.
#[derive(Drop)]
struct Numbering {
    // from a new number to the vertex, and from 0 to 0
    vertices: Vec<u32>,
    // from a vertex that is left to its new number, and from all others to 0
    numbers: Vec<u32>,
}

/// The vertices that are left and what is left of the pattern, both by new numbers.
#[derive(Drop)]
pub struct Rest {
    vertices: Vec<u32>,
    search: DenseSearch,
}

// Numbers the vertices that have had no turn.
fn number_rest(alloc: Global, turns: &[u32]) -> Result<Numbering, NoMemory>
    requires some { 0 < length turns.now }
    requires few { length turns.now ≤ (most_order + 1) }
    ensures len { IfOk result (λ numbering. length numbering.numbers.items ≡ length turns.now) }
    ensures some { IfOk result (λ numbering. 0 < length numbering.vertices.items) }
    ensures few { IfOk result (λ numbering. length numbering.vertices.items ≤ length turns.now) }
    ensures numbers { IfOk result (λ numbering. (n : ℕ) → length turns.now ≡ n + 1
        → AreNumbers (at turns.now) n numbering.vertices.items numbering.numbers.items) }
{
    let mut vertices = Vec::new(alloc);
    vertices.push(0)?;
    let mut numbers = vec![in alloc; 0; turns.len()]?;
    for v in 1..turns.len() {
        if turns[v] != 0 {
            continue;
        }
        numbers[v] = vertices.len() as u32;
        vertices.push(v as u32)?;
    }
    Ok(Numbering { vertices, numbers })
}

// Adds the bits of the new numbers of a list to a row.
fn set_numbers(row: &mut BitRow, list: &[u32], numbers: &[u32])
    requires within { (j : ℕ) → j < length list.now → slice_index list.now j < length numbers.now }
    requires fit { (x : ℕ) → slice_index numbers.now x < length row.old }
    ensures len { length row.new ≡ length row.old }
    ensures kept { (y : ℕ) → IsTrue (bit_in row.old y) → IsTrue (bit_in row.new y) }
    ensures from { (y : ℕ) → IsTrue (bit_in row.new y) → IsTrue (bit_in row.old y) ⊎ IsNumberIn numbers.now list.now y }
    ensures to { (x : ℕ) → IsTrue (has list.now x) → IsTrue (bit_in row.new (slice_index numbers.now x)) }
{
    for x in list {
        row.insert(numbers[*x as usize] as usize);
    }
}

// Adds the groups of these vertices to a row.
fn set_groups(row: &mut BitRow, list: &[u32], groups: &[Vec<u32>], numbers: &[u32])
    requires within { (j : ℕ) → j < length list.now → slice_index list.now j < length groups.now }
    requires inner { (r x : ℕ) → IsTrue (has list.now r) → IsTrue (has (inner_at groups.now r) x) → x < length numbers.now }
    requires fit { (x : ℕ) → slice_index numbers.now x < length row.old }
    ensures len { length row.new ≡ length row.old }
    ensures kept { (y : ℕ) → IsTrue (bit_in row.old y) → IsTrue (bit_in row.new y) }
    ensures from { (y : ℕ) → IsTrue (bit_in row.new y)
        → IsTrue (bit_in row.old y) ⊎ IsNumberInGroups numbers.now (inner_at groups.now) list.now y }
    ensures to { (r x : ℕ) → IsTrue (has list.now r) → IsTrue (has (inner_at groups.now r) x)
        → IsTrue (bit_in row.new (slice_index numbers.now x)) }
{
    for r in list {
        set_numbers(row, &groups[*r as usize], numbers);
    }
}

impl Search {
    // Adds to a row that has v alone the neighbours of v, at which the search looked last, and those for which these and v stand.
    fn add_hood(&self, v: u32, row: &mut BitRow, numbers: &[u32])
        requires lengths { AllHaveLength (length self.now.turns.items) self.now }
        requires len { length numbers.now ≡ length self.now.turns.items }
        requires fit { (x : ℕ) → slice_index numbers.now x < length row.old }
        requires own { (y : ℕ) → bit_in row.old y ≡ (slice_index numbers.now v == y) }
        requires start { (q : Quotient) × IsReleased q (tables self.now) v }
        ensures len { length row.new ≡ length row.old }
        ensures exact { (q : Quotient) (vertices : List ℕ) → IsReleased q (tables self.now) v
            → AreNumbers (at self.now.turns.items) q.order vertices numbers.now
            → (x : ℕ) → IsVertex q.order x → at self.now.turns.items x ≡ 0
            → bit_in row.new (slice_index numbers.now x) ≡ is_near q.left v x }
    {
        set_numbers(row, &self.groups[v as usize], numbers);
        set_numbers(row, &self.hood.near, numbers);
        set_groups(row, &self.hood.near, &self.groups, numbers);
    }

    // The row of v, at which the search looked last, in a search of so many vertices.
    fn full_row(
        &self,
        alloc: Global,
        numbers: &[u32],
        order: u32,
        v: u32,
    ) -> Result<BitRow, NoMemory>
        requires lengths { AllHaveLength (length self.now.turns.items) self.now }
        requires len { length numbers.now ≡ length self.now.turns.items }
        requires few { order ≤ most_order }
        requires most { (x : ℕ) → slice_index numbers.now x ≤ order }
        requires start { (q : Quotient) × IsReleased q (tables self.now) v }
        ensures { IfOk result (λ row. (q : Quotient) (vertices : List ℕ) → IsReleased q (tables self.now) v
            → AreNumbers (at self.now.turns.items) q.order vertices numbers.now → order ≡ most_of vertices
            → IsFullRow (stage_at q.left vertices) (slice_index numbers.now v) row) }
    {
        let mut row = row_with(alloc, order, numbers[v as usize])?;
        self.add_hood(v, &mut row, numbers);
        Ok(row)
    }

    // Puts v and those for which it stands into a dense search, with this row.
    fn put_group(
        &self,
        numbers: &[u32],
        v: u32,
        row: BitRow,
        dense: &mut DenseSearch,
    ) -> Result<(), NoMemory>
        requires lengths { AllHaveLength (length self.now.turns.items) self.now }
        requires len { length numbers.now ≡ length self.now.turns.items }
        requires start { (q : Quotient) × (vertices : List ℕ) × IsReleased q (tables self.now) v
            × AreNumbers (at self.now.turns.items) q.order vertices numbers.now × IsFilling (stage_at q.left vertices) dense.old
            × IsFullRow (stage_at q.left vertices) (slice_index numbers.now v) row }
        ensures filling { OnOk result ((q : Quotient) (vertices : List ℕ) → IsReleased q (tables self.now) v
            → AreNumbers (at self.now.turns.items) q.order vertices numbers.now → IsFilling (stage_at q.left vertices) dense.old
            → IsFullRow (stage_at q.left vertices) (slice_index numbers.now v) row → IsFilling (stage_at q.left vertices) dense.new) }
        ensures order { OnOk result (dense.new.order ≡ dense.old.order) }
        ensures kept { OnOk result ((y : ℕ) → IsTrue (bit_in dense.old.alive y) → IsTrue (bit_in dense.new.alive y)) }
        ensures own { OnOk result (IsTrue (bit_in dense.new.alive (slice_index numbers.now v))) }
        ensures group { OnOk result ((x : ℕ) → IsTrue (has (inner_at self.now.groups.items v) x)
            → IsTrue (bit_in dense.new.alive (slice_index numbers.now x))) }
    {
        let bound = self.bounds.at(v as usize);
        for x in &self.groups[v as usize] {
            dense.put(numbers[*x as usize], row.copy()?, bound);
        }
        dense.put(numbers[v as usize], row, bound);
        Ok(())
    }

    // Whether v is left and stands for itself.
    fn stands(&self, v: u32) -> bool
        requires lengths { AllHaveLength (length self.now.turns.items) self.now }
        requires v { v < length self.now.turns.items }
        ensures yes { IsTrue result → (at self.now.turns.items v ≡ 0) × (mark_at self.now.seen.items v ≡ false) }
        ensures no { result ≡ false → (at self.now.turns.items v ≢ 0) ⊎ IsTrue (mark_at self.now.seen.items v) }
    {
        self.turns[v as usize] == 0 && !self.seen[v as usize]
    }

    // Puts v, which stands for itself, and those for which it stands into a dense search.
    fn put_vertex(
        &mut self,
        alloc: Global,
        pattern: &Pattern,
        numbers: &[u32],
        v: u32,
        dense: &mut DenseSearch,
    ) -> Result<(), NoMemory>
        requires lengths { AllHaveLength (length pattern.now + 1) self.old }
        requires few { length pattern.now ≤ most_order }
        requires len { length numbers.now ≡ length pattern.now + 1 }
        requires v { IsVertex (length pattern.now) v × (at self.old.turns.items v ≡ 0) × (mark_at self.old.seen.items v ≡ false) }
        requires start { (q : Quotient) × (vertices : List ℕ) × CanFill pattern.now q (tables self.old)
            × AreNumbers (at self.old.turns.items) q.order vertices numbers.now × IsFilling (stage_at q.left vertices) dense.old }
        ensures lengths { OnOk result (AllHaveLength (length pattern.now + 1) self.new) }
        ensures turns { OnOk result (self.new.turns ≡ self.old.turns) }
        ensures stands { OnOk result ((q : Quotient) → CanFill pattern.now q (tables self.old) → CanFill pattern.now q (tables self.new)) }
        ensures filling { OnOk result ((q : Quotient) (vertices : List ℕ) → CanFill pattern.now q (tables self.old)
            → AreNumbers (at self.old.turns.items) q.order vertices numbers.now → IsFilling (stage_at q.left vertices) dense.old
            → IsFilling (stage_at q.left vertices) dense.new) }
        ensures order { OnOk result (dense.new.order ≡ dense.old.order) }
        ensures kept { OnOk result ((y : ℕ) → IsTrue (bit_in dense.old.alive y) → IsTrue (bit_in dense.new.alive y)) }
        ensures put { OnOk result ((q : Quotient) → CanFill pattern.now q (tables self.old)
            → (x : ℕ) → q.rep x ≡ v → IsTrue (bit_in dense.new.alive (slice_index numbers.now x))) }
    {
        self.gather(v, pattern.neighbours(v))?;
        self.release(v);
        let row = self.full_row(alloc, numbers, dense.order(), v)?;
        self.put_group(numbers, v, row, dense)?;
        Ok(())
    }

    /// What is left, as rows of bits of new numbers.
    pub fn to_dense(&mut self, alloc: Global, pattern: &Pattern) -> Result<Rest, NoMemory>
        requires lengths { AllHaveLength (length pattern.now + 1) self.old }
        requires few { length pattern.now ≤ most_order }
        requires start { (q : Quotient) × CanFill pattern.now q (tables self.old) }
        ensures numbered { IfOk result (λ rest. AreNumbered (at self.old.turns.items) (length pattern.now) rest.vertices.items) }
        ensures dense { IfOk result (λ rest. (q : Quotient) → CanFill pattern.now q (tables self.old)
            → IsDense (stage_at q.left rest.vertices.items) rest.search) }
    {
        let Numbering { vertices, numbers } = number_rest(alloc, &self.turns)?;
        let mut search = DenseSearch::new(alloc, vertices.len() as u32 - 1)?;
        for v in 1..pattern.rows() + 1 {
            if !self.stands(v) {
                continue;
            }
            self.put_vertex(alloc, pattern, &numbers, v, &mut search)?;
        }
        Ok(Rest { vertices, search })
    }
}

impl Rest {
    /// Eliminates the vertices that are left, and lists them after those that are gone.
    pub fn eliminate(self, alloc: Global, gone: &mut Vec<u32>) -> Result<(), NoMemory>
        requires { (joined : ℕ → ℕ → Bool) × (n : ℕ) × IsRestAfter joined n gone.old.items self }
        ensures { OnOk result ((joined : ℕ → ℕ → Bool) (n : ℕ) → IsRestAfter joined n gone.old.items self
            → IsLeastDegreeOrder joined n gone.new.items) }
    {
        let Rest { vertices, search } = self;
        let mut order = Vec::new(alloc);
        eliminate_dense(alloc, &mut order, search)?;
        for k in &order {
            gone.push(vertices[*k as usize])?;
        }
        Ok(())
    }
}

/// How dear the looks of the quotient graph search are. It only decides which search goes on.
#[derive(Clone, Copy, Debug)]
pub struct Effort {
    /// How many vertices are left.
    pub left: u32,
    /// How many looks were dear.
    pub dear: u32,
}

impl Effort {
    /// Notes a look at a vertex of this degree, so many of whose neighbours stand for themselves. It was dear where these are a sixteenth
    /// of all that are left, and few stand for others.
    pub fn note(&mut self, near: usize, degree: u64) {
        let near = near as u64;
        if near >= u64::from(self.left / 16) && degree <= near.saturating_add(near / 4) {
            self.dear = self.dear.saturating_add(1);
        }
    }

    /// Whether rows of bits are worth their making, and have room: half a gigabyte at most.
    pub fn calls_for_rows(&self) -> bool {
        self.left > 64 && self.left <= 1 << 16 && self.dear >= self.left / 16
    }
}
