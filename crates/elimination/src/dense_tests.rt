//! The dense search alone, on orders worked by hand.

ghost use Rattle.std.specs.Prelude.{◌≡◌, ◌<◌, ◌≤◌, ◌||◌, ℕ, [], All, length, slice_index, IfOk};
ghost use Rattle.bit_rows.specs.Bits.{bit_in};
ghost use Rattle.patterns.specs.Pattern.{IsPairWithin, has, is_joined};
ghost use Rattle.elimination.specs.Dense.{IsDenseUnderWay, IsLeastDegreeOrder};

use crate::NoMemory;
use crate::dense::{DenseSearch, eliminate_dense, row_with};
use bit_rows::BitRow;
use patterns::Pattern;
use std::alloc::Global;
use std::process::Abort;
use std::test::Fail;

// Adds the bits of a list to a row.
fn set_bits(row: &mut BitRow, list: &[u32])
    requires { (j : ℕ) → j < length list.now → slice_index list.now j < length row.old }
    ensures len { length row.new ≡ length row.old }
    ensures bits { (x : ℕ) → bit_in row.new x ≡ (bit_in row.old x || has list.now x) }
{
    for x in list {
        row.insert(*x as usize);
    }
}

// The search before any vertex is gone.
fn full_search(alloc: Global, pattern: &Pattern) -> Result<DenseSearch, NoMemory>
    ensures order { IfOk result (λ search. search.order ≡ length pattern.now) }
    ensures begins { IfOk result (λ search. IsDenseUnderWay (is_joined pattern.now) [] search) }
{
    let n = pattern.rows();
    let mut search = DenseSearch::new(alloc, n)?;
    for v in 1..n + 1 {
        let mut row = row_with(alloc, n, v)?;
        set_bits(&mut row, pattern.neighbours(v));
        search.put(v, row, 0);
    }
    Ok(search)
}

fn dense_order(alloc: Global, pattern: &Pattern) -> Result<Vec<u32>, NoMemory>
    ensures { IfOk result (λ order. IsLeastDegreeOrder (is_joined pattern.now) (length pattern.now) order.items) }
{
    let search = full_search(alloc, pattern)?;
    let mut order = Vec::new(alloc);
    eliminate_dense(alloc, &mut order, search)?;
    Ok(order)
}

fn check_order(
    rt: &impl Abort,
    alloc: Global,
    pairs: Vec<(u32, u32)>,
    wanted: &[u32],
) -> Result<(), Fail>
    requires order { (1 ≤ length wanted.now) × (length wanted.now ≤ 1000) }
    requires few { length pairs.items ≤ 1000 }
    requires within { All (IsPairWithin (length wanted.now)) pairs.items }
{
    let pattern = Pattern::from_pairs(alloc, wanted.len() as u32, pairs)?;
    let order = dense_order(alloc, &pattern)?;
    assert_eq!(rt; order.as_slice(), wanted);
    Ok(())
}

#[test]
fn a_grid(rt: HostRuntime) -> Result<(), Fail> {
    let pairs = vec![in rt.alloc(); (2, 1), (3, 1), (4, 2), (4, 3)]?;
    check_order(&rt, rt.alloc(), pairs, &[1, 2, 3, 4])
}

// The middle has one neighbour left at the third turn.
#[test]
fn a_star(rt: HostRuntime) -> Result<(), Fail> {
    let pairs = vec![in rt.alloc(); (2, 1), (3, 1), (4, 1)]?;
    check_order(&rt, rt.alloc(), pairs, &[2, 3, 1, 4])
}
