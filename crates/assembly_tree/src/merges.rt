//! The amalgamation of supernodes with their parents.

ghost use Rattle.std.specs.Prelude.{◌≡◌, ◌<◌, ◌≤◌, ◌+◌, ◌*◌, ◌^◌, ◌↔◌, ℕ, length, map, filter, All, slice_index, IfOk, IsTrue};
ghost use Rattle.std.specs.List.{range_with_len, sum_by};
ghost use Rattle.limits.specs.Limits.{most_order};
ghost use Rattle.assembly_tree.specs.Assembly.{IsSuper, IsSuperWithin, IsAssembly, super_at, front_of, columns_in, reparented};
ghost use Rattle.assembly_tree.specs.Amalgamation.{zeros_of, merged_supers, is_left, new_number, amalgamated};
ghost use Rattle.assembly_tree.specs.MergeTables.{AreNames, AreNewNumbers, IsMerging, left_of};

use crate::NoMemory;
use crate::assembly::{Assembly, Super};
use std::alloc::Global;

// Whether merging a child into its parent puts at most so many zeros into the factor.
fn is_cheap(child: Super, parent: Super, zeros: u64) -> bool
    requires order { front_of parent ≤ 2 * most_order }
    requires rest { child.rest ≤ front_of parent }
    ensures { IsTrue result ↔ (zeros_of child parent ≤ zeros) }
{
    let added = parent.columns + parent.rest - child.rest;
    u64::from(child.columns) * u64::from(added) <= zeros
}

// Gives the columns of supernode s to p.
fn join(supers: &mut [Super], s: usize, p: usize)
    requires child { IsSuper supers.old s }
    requires parent { IsSuper supers.old p }
    requires later { s < p }
    requires room { (super_at supers.old p).columns + (super_at supers.old s).columns < 2 ^ 32 }
    ensures { supers.new ≡ merged_supers supers.old s p }
{
    supers[p - 1].columns += supers[s - 1].columns;
    supers[s - 1].columns = 0;
}

// Merges supernodes into their parents. Each keeps the parent that it has, since that comes later and still stands when it is read.
fn merge(supers: &mut [Super], zeros: u64)
    requires each { (s : ℕ) → IsSuper supers.old s → IsSuperWithin supers.old s }
    requires few { sum_by columns_in supers.old ≤ most_order }
    requires fits { (s : ℕ) → IsSuper supers.old s → front_of (super_at supers.old s) ≤ most_order }
    ensures { IsMerging zeros supers.old supers.new (length supers.old) }
{
    for i in 0..supers.len() {
        let s = i + 1;
        let child = supers[s - 1];
        let p = child.parent as usize;
        if p != 0 && is_cheap(child, supers[p - 1], zeros) {
            join(supers, s, p);
        }
    }
}

// The supernodes after all merges.
fn merged(alloc: Global, supers: &[Super], zeros: u64) -> Result<Vec<Super>, NoMemory>
    requires each { (s : ℕ) → IsSuper supers.now s → IsSuperWithin supers.now s }
    requires few { sum_by columns_in supers.now ≤ most_order }
    requires fits { (s : ℕ) → IsSuper supers.now s → front_of (super_at supers.now s) ≤ most_order }
    ensures { IfOk result (λ new. IsMerging zeros supers.now new.items (length supers.now)) }
{
    let mut new: Vec<Super> = Vec::new(alloc);
    new.extend_from_slice(supers)?;
    merge(&mut new, zeros);
    Ok(new)
}

// How many of the supernodes up to each are left, from none on.
fn count_left(alloc: Global, supers: &[Super]) -> Result<Vec<u32>, NoMemory>
    requires { length supers.now ≤ most_order }
    ensures len { IfOk result (λ numbers. length numbers.items ≡ length supers.now + 1) }
    ensures left { IfOk result (λ numbers. numbers.items ≡ map (new_number supers.now) (range_with_len 0 (length supers.now + 1))) }
{
    let mut numbers: Vec<u32> = Vec::with_capacity(alloc, supers.len() + 1)?;
    let mut left = 0;
    numbers.push(left)?;
    for supernode in supers {
        if supernode.columns != 0 {
            left += 1;
        }
        numbers.push(left)?;
    }
    Ok(numbers)
}

// Gives each merged supernode the number of its parent, the later ones first.
fn follow(numbers: &mut [u32], supers: &[Super])
    requires len { length numbers.old ≡ length supers.now + 1 }
    requires left { numbers.old ≡ map (new_number supers.now) (range_with_len 0 (length supers.now + 1)) }
    requires names { (name : ℕ → ℕ) × AreNames supers.now name }
    ensures { AreNewNumbers supers.now numbers.new }
{
    for i in 0..supers.len() {
        let s = supers.len() - i;
        if supers[s - 1].columns == 0 {
            numbers[s] = numbers[supers[s - 1].parent as usize];
        }
    }
}

// The supernodes that are left, with the numbers of their parents.
fn keep(alloc: Global, supers: &[Super], numbers: &[u32]) -> Result<Vec<Super>, NoMemory>
    requires { All (λ x. x.parent + 1 ≤ length numbers.now) supers.now }
    ensures { IfOk result (λ kept. kept.items ≡ map (reparented (slice_index numbers.now)) (filter is_left supers.now)) }
{
    let mut kept: Vec<Super> = Vec::new(alloc);
    for supernode in supers {
        if supernode.columns != 0 {
            kept.push(Super {
                parent: numbers[supernode.parent as usize],
                ..*supernode
            })?;
        }
    }
    Ok(kept)
}

fn rename(alloc: Global, nodes: &[u32], numbers: &[u32]) -> Result<Vec<u32>, NoMemory>
    requires { All (λ s. s + 1 ≤ length numbers.now) nodes.now }
    ensures { IfOk result (λ new. new.items ≡ map (slice_index numbers.now) nodes.now) }
{
    let mut new: Vec<u32> = Vec::with_capacity(alloc, nodes.len())?;
    for node in nodes {
        new.push(numbers[*node as usize])?;
    }
    Ok(new)
}

// The number of each supernode among those that are left, or of the one in which it stands.
fn numbers_of(alloc: Global, supers: &[Super]) -> Result<Vec<u32>, NoMemory>
    requires few { length supers.now ≤ most_order }
    requires names { (name : ℕ → ℕ) × AreNames supers.now name }
    ensures len { IfOk result (λ numbers. length numbers.items ≡ length supers.now + 1) }
    ensures numbers { IfOk result (λ numbers. AreNewNumbers supers.now numbers.items) }
{
    let mut numbers = count_left(alloc, supers)?;
    follow(&mut numbers, supers);
    Ok(numbers)
}

// The assembly tree of the supernodes that are left.
fn renumber(alloc: Global, supers: &[Super], nodes: &[u32]) -> Result<Assembly, NoMemory>
    requires few { length supers.now ≤ most_order }
    requires parents { All (λ x. x.parent ≤ length supers.now) supers.now }
    requires nodes { All (λ s. s ≤ length supers.now) nodes.now }
    requires assembly { (name : ℕ → ℕ) × AreNames supers.now name × IsAssembly (left_of name supers.now nodes.now) }
    ensures { IfOk result (λ assembly. (name : ℕ → ℕ) → AreNames supers.now name → assembly ≡ left_of name supers.now nodes.now) }
{
    let numbers = numbers_of(alloc, supers)?;
    let kept = keep(alloc, supers, &numbers)?;
    let nodes = rename(alloc, nodes, &numbers)?;
    Ok(Assembly::of(kept, nodes))
}

/// The assembly tree with relaxed supernodes: by rising number, each supernode is merged into its parent where that puts at most
/// `zeros` explicit zeros into the factor, and those that are left are numbered in their old order. A merge adds the columns
/// of a child to its parent, whose children those of the child become. Linear in the columns.
///
/// Duff and Reid 1983; Ashcraft and Grimes 1989.
pub fn amalgamate(alloc: Global, assembly: &Assembly, zeros: u64) -> Result<Assembly, NoMemory>
    ensures { IfOk result (λ merged. merged ≡ amalgamated zeros assembly.now) }
{
    let supers = merged(alloc, assembly.supers(), zeros)?;
    renumber(alloc, &supers, &assembly.nodes)
}
