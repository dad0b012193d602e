//! Tasks by the sets of their readers: all are of one kind at first, and for each reader those that supply it part from the others of their
//! kind (the refinement of partitions of Hopcroft 1971).

ghost use Rattle.std.specs.Prelude.{◌≡◌, ℕ, ◌+◌, ◌-◌, ◌<◌, ◌≤◌, ◌^◌, ◌++◌, ◌↔◌, All, IfOk, OnOk, map, length, slice_index, replicate};
ghost use Rattle.row_table.specs.Rows.{has, row_at, numbers_with};
ghost use Rattle.joined_systems.specs.Kinds as specs;
ghost use Rattle.joined_systems.specs.Kinds.{meet, AreParts, ArePartedBy, AreFirsts, AreLeaders};

use crate::NoMemory;
use row_table::RowTable;
use shared_systems::SharedItems;
use std::alloc::Global;

// The producer of an item once more for each of its readers.
fn push_makers(makers: &mut Vec<u32>, maker: u32, count: usize) -> Result<(), NoMemory>
    ensures { OnOk result (makers.new.items ≡ makers.old.items ++ replicate count maker) }
{
    for _i in 0..count {
        makers.push(maker)?;
    }
    Ok(())
}

/// The producer of each use, 0 for none.
pub fn makers_of(alloc: Global, items: &SharedItems) -> Result<Vec<u32>, NoMemory>
    ensures { IfOk result (λ made. made.items ≡ specs.makers items.now) }
{
    let mut makers = Vec::new(alloc);
    for i in 0..items.len() {
        let maker = items.producer(i).unwrap_or(0);
        push_makers(&mut makers, maker, items.readers(i).len())?;
    }
    Ok(makers)
}

/// The reader of each use.
pub fn takers_of(alloc: Global, items: &SharedItems) -> Result<Vec<u32>, NoMemory>
    ensures { IfOk result (λ made. made.items ≡ specs.takers items.now) }
{
    let mut takers = Vec::new(alloc);
    for i in 0..items.len() {
        takers.extend_from_slice(items.readers(i))?;
    }
    Ok(takers)
}

// The part of a kind, a new one unless it has one.
fn part_of(parts: &mut Vec<usize>, kind: usize, start: usize) -> Result<usize, NoMemory>
    requires parts { AreParts start parts.old.items }
    requires kind { kind < start }
    ensures parts { OnOk result (AreParts start parts.new.items) }
    ensures kept { OnOk result ((c : ℕ) → start ≤ slice_index parts.old.items c →
        slice_index parts.new.items c ≡ slice_index parts.old.items c) }
    ensures part { IfOk result (λ part. (part ≡ slice_index parts.new.items kind) × (start ≤ part)) }
{
    if parts[kind] < start {
        let part = parts.len();
        parts[kind] = part;
        parts.push(0)?;
        return Ok(part);
    }
    Ok(parts[kind])
}

// The makers of these uses part from the others of their kind.
fn part_makers(
    kinds: &mut [usize],
    parts: &mut Vec<usize>,
    makers: &[u32],
    row: &[u32],
) -> Result<(), NoMemory>
    requires some { 1 ≤ length parts.old.items }
    requires kinds { (u : ℕ) → slice_index kinds.old u < length parts.old.items }
    requires parts { (c : ℕ) → slice_index parts.old.items c < length parts.old.items }
    requires row { All (λ p. p < length makers.now) row.now }
    requires makers { All (λ u. u < length kinds.old) makers.now }
    ensures parted { OnOk result (ArePartedBy (has (map (slice_index makers.now) row.now)) kinds.old kinds.new) }
    ensures some { OnOk result (1 ≤ length parts.new.items) }
    ensures kinds { OnOk result ((u : ℕ) → slice_index kinds.new u < length parts.new.items) }
    ensures parts { OnOk result ((c : ℕ) → slice_index parts.new.items c < length parts.new.items) }
{
    let start = parts.len();
    for p in row {
        let task = makers[*p as usize] as usize;
        let kind = kinds[task];
        if kind < start {
            kinds[task] = part_of(parts, kind, start)?;
        }
    }
    Ok(())
}

// The kind of each task, and of 0, and a number above all kinds: two are of the same kind where they supply the same tasks.
fn kinds_of(
    alloc: Global,
    count: usize,
    makers: &[u32],
    takers: &[u32],
) -> Result<(Vec<usize>, usize), NoMemory>
    requires few { count < 2 ^ 32 - 1 }
    requires uses { length makers.now < 2 ^ 32 }
    requires same { length makers.now ≡ length takers.now }
    requires makers { All (λ u. u < count + 1) makers.now }
    requires takers { All (λ u. u < count + 1) takers.now }
    ensures len { IfOk result (λ made. length made.0.items ≡ count + 1) }
    ensures small { IfOk result (λ made. (u : ℕ) → slice_index made.0.items u < made.1) }
    ensures kinds { IfOk result (λ made. (u v : ℕ) → ((slice_index made.0.items u ≡ slice_index made.0.items v)
        ↔ ((w : ℕ) → meet makers.now takers.now u w ≡ meet makers.now takers.now v w))) }
{
    let rows = RowTable::group(alloc, takers, count as u32 + 1, 0)?;
    let mut kinds: Vec<usize> = vec![in alloc; 0; count + 1]?;
    let mut parts: Vec<usize> = vec![in alloc; 0; 1]?;
    for w in 0..count as u32 + 1 {
        part_makers(&mut kinds, &mut parts, makers, rows.row(w))?;
    }
    let most = parts.len();
    Ok((kinds, most))
}

// The first task of the kind of each task.
fn leaders_by(alloc: Global, kinds: &[usize], most: usize) -> Result<Vec<u32>, NoMemory>
    requires some { 1 ≤ length kinds.now }
    requires few { length kinds.now < 2 ^ 32 }
    requires small { (u : ℕ) → slice_index kinds.now u < most }
    ensures { IfOk result (λ leaders. AreFirsts kinds.now leaders.items) }
{
    let mut firsts: Vec<u32> = vec![in alloc; 0; most]?;
    let mut leaders = Vec::new(alloc);
    for v in 1..kinds.len() {
        let kind = kinds[v];
        if firsts[kind] == 0 {
            firsts[kind] = v as u32;
        }
        leaders.push(firsts[kind])?;
    }
    Ok(leaders)
}

/// For each task the first one that has the same readers.
pub fn leaders_of(
    alloc: Global,
    count: usize,
    makers: &[u32],
    takers: &[u32],
) -> Result<Vec<u32>, NoMemory>
    requires few { count < 2 ^ 32 - 1 }
    requires uses { length makers.now < 2 ^ 32 }
    requires same { length makers.now ≡ length takers.now }
    requires makers { All (λ u. u < count + 1) makers.now }
    requires takers { All (λ u. u < count + 1) takers.now }
    ensures { IfOk result (λ leaders. AreLeaders (meet makers.now takers.now) count leaders.items) }
{
    let (kinds, most) = kinds_of(alloc, count, makers, takers)?;
    leaders_by(alloc, &kinds, most)
}
