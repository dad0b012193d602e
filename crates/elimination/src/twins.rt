//! Twins: vertices that have the same neighbours. The least of each group stands for the others, which are left out of the rims.

ghost use Rattle.std.specs.Prelude.{◌≡◌, ◌≢◌, ℕ, ◌+◌, ◌<◌, ◌≤◌, ◌^◌, ◌++◌, ◌∷◌, [], IsTrue, IfSome, length, slice_index, slice_set, false};
ghost use Rattle.std.specs.Prelude.{OnOk};
ghost use Rattle.std.specs.List.{sum_by};
ghost use Rattle.limits.specs.Limits.{most_order, most_total};
ghost use Rattle.elimination.specs.Elimination.{IsVertex};
ghost use Rattle.patterns.specs.Pattern.{has, neighbours_of, is_joined};
ghost use Rattle.elimination.specs.Quotients.{AreLinks, LeadsTo, at, inner_at, Quotient};
ghost use Rattle.elimination.specs.Twins.{AreRowsMarked, IsTouched, AreTouched, IsTwinFound};
ghost use Rattle.elimination.specs.Tables.{tables, AllHaveLength};
ghost use Rattle.elimination.specs.Turns.{HasMarks, CanPair, StandForOthers, AreBack};
ghost use Rattle.min_tree.specs.Least.{greatest};

use crate::NoMemory;
use crate::hoods::unmark;
use crate::links::last_of;
use crate::search::Search;
use min_tree::MinTree;
use patterns::Pattern;
use std::alloc::Global;
use std::mem;

// How many vertices these stand for.
pub fn weigh(list: &[u32], sizes: &[u32]) -> u64
    requires within { (j : ℕ) → j < length list.now → slice_index list.now j < length sizes.now }
    requires few { length list.now ≤ most_order }
    ensures sum { result ≡ sum_by (at sizes.now) list.now }
    ensures small { result < most_total }
{
    let mut total = 0;
    for r in list {
        total += u64::from(sizes[*r as usize]);
    }
    total
}

// Where a vertex has its mark: at itself, or, if it was eliminated, at its part.
fn mark_of(links: &mut [u32], turns: &[u32], b: u32) -> u32
    requires within { (b < length turns.now) × (length links.old ≡ length turns.now) }
    requires linked { AreLinks (at turns.now) links.old }
    ensures linked { AreLinks (at turns.now) links.new }
    ensures leads { (part : ℕ → ℕ) → LeadsTo (at turns.now) part links.old → LeadsTo (at turns.now) part links.new }
    ensures own { at turns.now b ≡ 0 → result ≡ b }
    ensures part { 0 < at turns.now b → (part : ℕ → ℕ) → LeadsTo (at turns.now) part links.old → result ≡ part b }
    ensures inside { result < length links.old }
{
    if turns[b as usize] == 0 {
        return b;
    }
    last_of(links, turns, b)
}

// Whether all of a row are marked, those that were eliminated by their parts.
fn all_marked(row: &[u32], turns: &[u32], links: &mut [u32], seen: &[bool]) -> bool
    requires row { (j : ℕ) → j < length row.now → slice_index row.now j < length turns.now }
    requires links { length links.old ≡ length turns.now }
    requires seen { length seen.now ≡ length turns.now }
    requires linked { AreLinks (at turns.now) links.old }
    ensures linked { AreLinks (at turns.now) links.new }
    ensures leads { (part : ℕ → ℕ) → LeadsTo (at turns.now) part links.old → LeadsTo (at turns.now) part links.new }
    ensures marked { IsTrue result → (part : ℕ → ℕ) → LeadsTo (at turns.now) part links.old
        → AreRowsMarked (at turns.now) part row.now seen.now }
{
    for b in row {
        let here = mark_of(links, turns, *b);
        if !seen[here as usize] {
            return false;
        }
    }
    true
}

// Puts x into the rims of the parts of its row.
fn touch(
    x: u32,
    row: &[u32],
    turns: &[u32],
    links: &mut [u32],
    rims: &mut [Vec<u32>],
) -> Result<(), NoMemory>
    requires row { (j : ℕ) → j < length row.now → slice_index row.now j < length turns.now }
    requires links { length links.old ≡ length turns.now }
    requires rims { length rims.old ≡ length turns.now }
    requires linked { AreLinks (at turns.now) links.old }
    ensures linked { OnOk result (AreLinks (at turns.now) links.new) }
    ensures leads { OnOk result ((part : ℕ → ℕ) → LeadsTo (at turns.now) part links.old → LeadsTo (at turns.now) part links.new) }
    ensures touched { OnOk result ((part : ℕ → ℕ) → LeadsTo (at turns.now) part links.old →
        IsTouched (at turns.now) part x row.now (length row.now) (inner_at rims.old) (inner_at rims.new)) }
{
    for b in row {
        if turns[*b as usize] == 0 {
            continue;
        }
        let part = last_of(links, turns, *b);
        push_at(rims, part, x)?;
    }
    Ok(())
}

// Puts a number at the end of a list.
fn push_at(lists: &mut [Vec<u32>], at: u32, number: u32) -> Result<(), NoMemory>
    requires { at < length lists.old }
    ensures pushed { OnOk result (inner_at lists.new at ≡ inner_at lists.old at ++ number ∷ []) }
    ensures others { (y : ℕ) → y ≢ at → inner_at lists.new y ≡ inner_at lists.old y }
{
    lists[at as usize].push(number)?;
    Ok(())
}

// How many neighbours are tried for a twin at a look. Nearly all twins are found with 16; without a bound a pattern in which nearly all are
// joined takes cubic time.
const MOST_TRIES: u32 = 64;

// Puts numbers at the end of a list.
fn extend_at(lists: &mut [Vec<u32>], at: u32, numbers: &[u32]) -> Result<(), NoMemory>
    requires { at < length lists.old }
    ensures put { OnOk result (inner_at lists.new at ≡ inner_at lists.old at ++ numbers.now) }
    ensures others { (y : ℕ) → y ≢ at → inner_at lists.new y ≡ inner_at lists.old y }
    ensures len { length lists.new ≡ length lists.old }
{
    lists[at as usize].extend_from_slice(numbers)?;
    Ok(())
}

// Takes a list out.
pub fn take_at(alloc: Global, lists: &mut [Vec<u32>], at: u32) -> Vec<u32>
    requires { at < length lists.old }
    ensures value { result.items ≡ inner_at lists.old at }
    ensures empty { inner_at lists.new at ≡ [] }
    ensures others { (y : ℕ) → y ≢ at → inner_at lists.new y ≡ inner_at lists.old y }
{
    mem::replace(&mut lists[at as usize], Vec::new(alloc))
}

// Moves a vertex and its group to that of another.
fn join_groups(
    alloc: Global,
    groups: &mut [Vec<u32>],
    least: u32,
    other: u32,
) -> Result<(), NoMemory>
    requires within { (least < length groups.old) × (other < length groups.old) }
    requires differ { least ≢ other }
    ensures taken { OnOk result (inner_at groups.new least ≡ inner_at groups.old least ++ (other ∷ inner_at groups.old other)) }
    ensures empty { OnOk result (inner_at groups.new other ≡ []) }
    ensures others { OnOk result ((r : ℕ) → r ≢ least → r ≢ other → inner_at groups.new r ≡ inner_at groups.old r) }
{
    let members = take_at(alloc, groups, other);
    push_at(groups, least, other)?;
    extend_at(groups, least, &members)?;
    Ok(())
}

// Sets the numbers at these places to 1.
fn set_ones(list: &[u32], sizes: &mut [u32])
    requires { (j : ℕ) → j < length list.now → slice_index list.now j < length sizes.old }
    ensures ones { (x : ℕ) → IsTrue (has list.now x) → at sizes.new x ≡ 1 }
    ensures others { (x : ℕ) → has list.now x ≡ false → at sizes.new x ≡ at sizes.old x }
{
    for x in list {
        sizes[*x as usize] = 1;
    }
}

// Sets the bounds of these vertices.
fn set_bounds(list: &[u32], bound: u64, bounds: &mut MinTree)
    requires { (j : ℕ) → j < length list.now → slice_index list.now j < length bounds.old }
    ensures len { length bounds.new ≡ length bounds.old }
    ensures set { (x : ℕ) → IsTrue (has list.now x) → at bounds.new x ≡ bound }
    ensures others { (x : ℕ) → has list.now x ≡ false → at bounds.new x ≡ at bounds.old x }
{
    for x in list {
        bounds.put(*x as usize, bound);
    }
}

// Puts each of these vertices into the rims of its parts.
fn touch_all(
    pattern: &Pattern,
    list: &[u32],
    turns: &[u32],
    links: &mut [u32],
    rims: &mut [Vec<u32>],
) -> Result<(), NoMemory>
    requires list { (j : ℕ) → j < length list.now → IsVertex (length pattern.now) (slice_index list.now j) }
    requires turns { length turns.now ≡ length pattern.now + 1 }
    requires links { length links.old ≡ length turns.now }
    requires rims { length rims.old ≡ length turns.now }
    requires linked { AreLinks (at turns.now) links.old }
    ensures linked { OnOk result (AreLinks (at turns.now) links.new) }
    ensures leads { OnOk result ((part : ℕ → ℕ) → LeadsTo (at turns.now) part links.old → LeadsTo (at turns.now) part links.new) }
    ensures touched { OnOk result ((part : ℕ → ℕ) → LeadsTo (at turns.now) part links.old →
        AreTouched (is_joined pattern.now) (at turns.now) part list.now (length list.now) (inner_at rims.old) (inner_at rims.new)) }
{
    pattern.keeps();
    for x in list {
        touch(*x, pattern.neighbours(*x), turns, links, rims)?;
    }
    Ok(())
}

impl Search {
    // Of the neighbours of a vertex of this degree, which are marked, one with the same neighbours: its own are all marked, and it has no
    // fewer.
    #[inline(never)]
    pub fn find_twin(&mut self, pattern: &Pattern, degree: u64) -> Option<u32>
        requires near { (j : ℕ) → j < length self.old.hood.near.items
            → IsVertex (length pattern.now) (slice_index self.old.hood.near.items j) }
        requires lengths { AllHaveLength (length pattern.now + 1) self.old }
        requires linked { AreLinks (at self.old.turns.items) self.old.links.items }
        ensures lengths { AllHaveLength (length pattern.now + 1) self.new }
        ensures turns { self.new.turns ≡ self.old.turns }
        ensures bounds { self.new.bounds ≡ self.old.bounds }
        ensures marked { (q : Quotient) (u : ℕ) → HasMarks q (tables self.old) u → HasMarks q (tables self.new) u }
        ensures twin { IfSome result (IsTwinFound (tables self.old) pattern.now degree) }
    {
        pattern.keeps();
        let mut tries = 0;
        let end = self.hood.near.len().min(self.hood.first_end);
        for i in 0..end {
            let u = self.hood.near[i];
            if self.bounds.at(u as usize) != degree {
                continue;
            }
            if tries >= MOST_TRIES {
                return None;
            }
            tries += 1;
            let row = pattern.neighbours(u);
            if all_marked(row, &self.turns, &mut self.links, &self.seen) {
                return Some(u);
            }
        }
        None
    }

    // Lets a vertex stand for its twin and for those that the twin stands for.
    pub fn join(&mut self, alloc: Global, least: u32, other: u32) -> Result<(), NoMemory>
        requires lengths { AllHaveLength (length self.old.turns.items) self.old }
        requires can { (q : Quotient) × CanPair q (tables self.old) least other }
        ensures lengths { OnOk result (AllHaveLength (length self.old.turns.items) self.new) }
        ensures turns { OnOk result (self.new.turns ≡ self.old.turns) }
        ensures bounds { OnOk result (self.new.bounds ≡ slice_set self.old.bounds other greatest) }
        ensures joined { OnOk result ((q : Quotient) → CanPair q (tables self.old) least other → StandForOthers q (tables self.new)) }
    {
        join_groups(alloc, &mut self.groups, least, other)?;
        self.sizes[least as usize] += self.sizes[other as usize];
        self.seen[other as usize] = true;
        self.bounds.put(other as usize, u64::MAX);
        Ok(())
    }

    // Gives back to the search those for which v stood, which was eliminated.
    pub fn give_back(
        &mut self,
        alloc: Global,
        pattern: &Pattern,
        v: u32,
        bound: u64,
    ) -> Result<(), NoMemory>
        requires group { (j : ℕ) → j < length (inner_at self.old.groups.items v)
            → IsVertex (length pattern.now) (slice_index (inner_at self.old.groups.items v) j) }
        requires within { v < length pattern.now + 1 }
        requires lengths { AllHaveLength (length pattern.now + 1) self.old }
        requires linked { AreLinks (at self.old.turns.items) self.old.links.items }
        ensures lengths { OnOk result (AllHaveLength (length pattern.now + 1) self.new) }
        ensures turns { OnOk result (self.new.turns ≡ self.old.turns) }
        ensures back { OnOk result (AreBack (is_joined pattern.now) v bound (tables self.old) (tables self.new)) }
    {
        let members = take_at(alloc, &mut self.groups, v);
        touch_all(
            pattern,
            &members,
            &self.turns,
            &mut self.links,
            &mut self.rims,
        )?;
        set_ones(&members, &mut self.sizes);
        unmark(&members, &mut self.seen);
        set_bounds(&members, bound, &mut self.bounds);
        Ok(())
    }
}
