//! The parts of eliminated vertices that hang together, and their rims.

ghost use Rattle.std.specs.Prelude.{◌≡◌, ℕ, ◌<◌, ◌≤◌, [], IsTrue, length, slice_index, false, IfOk, OnOk};
ghost use Rattle.patterns.specs.Pattern.{has};
ghost use Rattle.elimination.specs.Quotients.{at, inner_at};
ghost use Rattle.elimination.specs.Turns.{IsAbsorbed};

use crate::NoMemory;
use crate::hoods::Hood;
use std::alloc::Global;

// So many empty lists.
pub fn empty_lists(alloc: Global, count: usize) -> Result<Vec<Vec<u32>>, NoMemory>
    ensures len { IfOk result (λ lists. length lists.items ≡ count) }
    ensures empty { IfOk result (λ lists. (p : ℕ) → inner_at lists.items p ≡ []) }
{
    let mut lists = Vec::with_capacity(alloc, count)?;
    for _ in 0..count {
        lists.push(Vec::new(alloc))?;
    }
    Ok(lists)
}

// Puts these parts under v, and lets go of their rims.
fn put_under(alloc: Global, v: u32, parts: &[u32], links: &mut [u32], rims: &mut [Vec<u32>])
    requires links { (j : ℕ) → j < length parts.now → slice_index parts.now j < length links.old }
    requires rims { length rims.old ≡ length links.old }
    ensures under { (p : ℕ) → IsTrue (has parts.now p) → at links.new p ≡ v }
    ensures emptied { (p : ℕ) → IsTrue (has parts.now p) → inner_at rims.new p ≡ [] }
    ensures others { (p : ℕ) → has parts.now p ≡ false → at links.new p ≡ at links.old p }
    ensures kept { (p : ℕ) → has parts.now p ≡ false → inner_at rims.new p ≡ inner_at rims.old p }
{
    for part in parts {
        links[*part as usize] = v;
        rims[*part as usize] = Vec::new(alloc);
    }
}

// Makes one part of v and the parts that it touched; its rim is all its neighbours.
pub fn absorb(
    alloc: Global,
    v: u32,
    hood: &Hood,
    links: &mut [u32],
    rims: &mut [Vec<u32>],
) -> Result<(), NoMemory>
    requires v { v < length links.old }
    requires links { (j : ℕ) → j < length hood.now.touched.items → slice_index hood.now.touched.items j < length links.old }
    requires rims { length rims.old ≡ length links.old }
    ensures { OnOk result (IsAbsorbed v hood.now.near.items hood.now.touched.items links.old links.new
        (inner_at rims.old) (inner_at rims.new)) }
{
    put_under(alloc, v, &hood.touched, links, rims);
    links[v as usize] = v;
    rims[v as usize] = Vec::from_slice(alloc, &hood.near)?;
    Ok(())
}
