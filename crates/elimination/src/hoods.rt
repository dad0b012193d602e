//! The neighbours of a vertex in the pattern that is left.

ghost use Rattle.std.specs.Prelude.{◌≡◌, ℕ, ◌+◌, ◌<◌, ◌≤◌, ◌∷◌, List, [], IsTrue, length, take, slice_index, false, OnOk, IfOk};
ghost use Rattle.patterns.specs.Pattern.{has};
ghost use Rattle.elimination.specs.Hoods.{Visits, Enters, Scans, mark_at};
ghost use Rattle.elimination.specs.Quotients.{Quotient, AreLinks, at, inner_at};
ghost use Rattle.elimination.specs.Tables.{tables, AllHaveLength};
ghost use Rattle.elimination.specs.Turns.{CanGather, HasMarks, IsReleased};

use crate::NoMemory;
use crate::links::last_of;
use crate::search::Search;

/// The neighbours of a vertex in the pattern that is left that stand for their groups, each once, and the parts that the vertex touches.
#[derive(Drop)]
pub struct Hood {
    pub near: Vec<u32>,
    pub touched: Vec<u32>,
    /// Where the rim of the first part ends among the neighbours, or beyond them all. Twins touch the same parts, so they stand before it.
    pub first_end: usize,
}

// Marks and lists a vertex that is not marked.
#[inline]
fn note(b: u32, near: &mut Vec<u32>, seen: &mut [bool]) -> Result<(), NoMemory>
    requires { b < length seen.old }
    ensures { OnOk result (Visits (b ∷ []) near.old.items near.new.items seen.old seen.new) }
{
    if !seen[b as usize] {
        seen[b as usize] = true;
        near.push(b)?;
    }
    Ok(())
}

// Marks those of a list that are not marked, and writes them one after another from this place on; after the last comes the place that is
// returned. Each number is written, and counts if it was not marked, since a branch on a mark is mispredicted too often.
#[inline(never)]
fn write_unmarked(list: &[u32], from: usize, near: &mut [u32], seen: &mut [bool]) -> usize
    requires room { from + length list.now ≤ length near.old }
    requires within { (j : ℕ) → j < length list.now → slice_index list.now j < length seen.old }
    ensures len { result ≤ length near.new }
    ensures visits { Visits list.now (take from near.old) (take result near.new) seen.old seen.new }
{
    let mut count = from;
    for b in list {
        near[count] = *b;
        count += usize::from(!seen[*b as usize]);
        seen[*b as usize] = true;
    }
    count
}

// Marks and lists those of a list that are not marked.
fn visit(list: &[u32], near: &mut Vec<u32>, seen: &mut [bool]) -> Result<(), NoMemory>
    requires { (j : ℕ) → j < length list.now → slice_index list.now j < length seen.old }
    ensures { OnOk result (Visits list.now near.old.items near.new.items seen.old seen.new) }
{
    let from = near.len();
    near.extend_from_slice(list)?;
    let count = write_unmarked(list, from, near, seen);
    near.truncate(count);
    Ok(())
}

// Marks and lists a part that is not marked, and visits its rim.
fn enter(part: u32, rims: &[Vec<u32>], hood: &mut Hood, seen: &mut [bool]) -> Result<(), NoMemory>
    requires part { (part < length rims.now) × (part < length seen.old) }
    requires rim { (x : ℕ) → IsTrue (has (inner_at rims.now part) x) → x < length seen.old }
    ensures { OnOk result (Enters (inner_at rims.now) part hood.old.near.items hood.new.near.items
        hood.old.touched.items hood.new.touched.items seen.old seen.new) }
{
    if !seen[part as usize] {
        seen[part as usize] = true;
        hood.touched.push(part)?;
        visit(&rims[part as usize], &mut hood.near, seen)?;
        hood.first_end = hood.first_end.min(hood.near.len());
    }
    Ok(())
}

// Looks at each vertex of a row: lists it, or, where it was eliminated, enters its part.
fn scan(
    row: &[u32],
    turns: &[u32],
    links: &mut [u32],
    rims: &[Vec<u32>],
    hood: &mut Hood,
    seen: &mut [bool],
) -> Result<(), NoMemory>
    requires row { (j : ℕ) → j < length row.now → slice_index row.now j < length turns.now }
    requires links { length links.old ≡ length turns.now }
    requires rims { length rims.now ≡ length turns.now }
    requires seen { length seen.old ≡ length turns.now }
    requires linked { AreLinks (at turns.now) links.old }
    requires within { (p x : ℕ) → IsTrue (has (inner_at rims.now p) x) → x < length turns.now }
    ensures linked { OnOk result (AreLinks (at turns.now) links.new) }
    ensures scanned { OnOk result (Scans (at turns.now) (inner_at rims.now) row.now links.old links.new
        hood.old.near.items hood.new.near.items hood.old.touched.items hood.new.touched.items seen.old seen.new) }
{
    for b in row {
        if turns[*b as usize] == 0 {
            note(*b, &mut hood.near, seen)?;
            continue;
        }
        let part = last_of(links, turns, *b);
        enter(part, rims, hood, seen)?;
    }
    Ok(())
}

// Takes away the marks of a list.
pub fn unmark(list: &[u32], seen: &mut [bool])
    requires { (j : ℕ) → j < length list.now → slice_index list.now j < length seen.old }
    ensures gone { (x : ℕ) → IsTrue (has list.now x) → mark_at seen.new x ≡ false }
    ensures others { (x : ℕ) → has list.now x ≡ false → mark_at seen.new x ≡ mark_at seen.old x }
{
    for b in list {
        seen[*b as usize] = false;
    }
}

impl Search {
    // Gathers the neighbours of u, whose row in the file this is, and marks them.
    #[inline(never)]
    pub fn gather(&mut self, u: u32, row: &[u32]) -> Result<(), NoMemory>
        requires lengths { AllHaveLength (length self.old.turns.items) self.old }
        requires start { (q : Quotient) × CanGather q (tables self.old) u row.now }
        ensures lengths { OnOk result (AllHaveLength (length self.old.turns.items) self.new) }
        ensures turns { OnOk result (self.new.turns ≡ self.old.turns) }
        ensures bounds { OnOk result (self.new.bounds ≡ self.old.bounds) }
        ensures marked { OnOk result ((q : Quotient) → CanGather q (tables self.old) u row.now → HasMarks q (tables self.new) u) }
    {
        self.hood.near.clear();
        self.hood.touched.clear();
        self.hood.first_end = usize::MAX;
        self.seen[u as usize] = true;
        scan(
            row,
            &self.turns,
            &mut self.links,
            &self.rims,
            &mut self.hood,
            &mut self.seen,
        )?;
        Ok(())
    }

    // Takes away the marks of u, its neighbours and its parts.
    pub fn release(&mut self, u: u32)
        requires lengths { AllHaveLength (length self.old.turns.items) self.old }
        requires start { (q : Quotient) × HasMarks q (tables self.old) u }
        ensures lengths { AllHaveLength (length self.old.turns.items) self.new }
        ensures turns { self.new.turns ≡ self.old.turns }
        ensures bounds { self.new.bounds ≡ self.old.bounds }
        ensures released { (q : Quotient) → HasMarks q (tables self.old) u → IsReleased q (tables self.new) u }
    {
        unmark(&self.hood.near, &mut self.seen);
        unmark(&self.hood.touched, &mut self.seen);
        self.seen[u as usize] = false;
    }
}
