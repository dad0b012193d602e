//! Random small patterns and a grid: the search beside the plain program.

ghost use Rattle.std.specs.Prelude.{◌≡◌, ◌<◌, ◌≤◌, ◌*◌, length, All, IfOk};
ghost use Rattle.patterns.specs.Pattern.{IsPairWithin};

use crate::tests::plain::plain_order;
use elimination::{NoMemory, by_least_degree};
use patterns::Pattern;
use rand_core::utils::NextWord;
use rand_pcg::Pcg32;
use std::alloc::Global;
use std::process::Abort;
use std::test::Fail;

// A number below n.
fn below(dice: &mut Pcg32, n: u32) -> u32
    requires { 0 < n }
    ensures { result < n }
{
    dice.next_word() % n
}

fn random_pair(dice: &mut Pcg32, order: u32) -> (u32, u32)
    requires { (1 ≤ order) × (order ≤ 1000) }
    ensures { IsPairWithin order result }
{
    (1 + below(dice, order), 1 + below(dice, order))
}

fn random_pairs(
    alloc: Global,
    dice: &mut Pcg32,
    order: u32,
    count: u32,
) -> Result<Vec<(u32, u32)>, NoMemory>
    requires order { (1 ≤ order) × (order ≤ 1000) }
    ensures within { IfOk result (λ pairs. All (IsPairWithin order) pairs.items) }
    ensures count { IfOk result (λ pairs. length pairs.items ≡ count) }
{
    let mut pairs = Vec::new(alloc);
    for _ in 0..count {
        pairs.push(random_pair(dice, order))?;
    }
    Ok(pairs)
}

// The pairs of the grid of 12 by 12, whose vertices are numbered row by row.
fn grid_pairs(alloc: Global) -> Result<Vec<(u32, u32)>, NoMemory>
    ensures within { IfOk result (λ pairs. All (IsPairWithin 144) pairs.items) }
    ensures few { IfOk result (λ pairs. length pairs.items ≤ 288) }
{
    let mut pairs = Vec::new(alloc);
    for v in 1..144 {
        if v % 12 != 0 {
            pairs.push((v, v + 1))?;
        }
        if v <= 132 {
            pairs.push((v, v + 12))?;
        }
    }
    Ok(pairs)
}

fn compare(rt: &impl Abort, alloc: Global, pattern: &Pattern) -> Result<(), Fail> {
    let order = by_least_degree(alloc, pattern)?;
    let wanted = plain_order(alloc, pattern)?;
    assert_eq!(rt; order, wanted);
    Ok(())
}

#[test]
fn random_patterns_go_as_plainly(rt: HostRuntime) -> Result<(), Fail> {
    let alloc = rt.alloc();
    let mut dice = Pcg32::new(5, 7);
    for _ in 0..100u32 {
        let order = 1 + below(&mut dice, 12);
        let count = below(&mut dice, 40);
        let pairs = random_pairs(alloc, &mut dice, order, count)?;
        compare(&rt, alloc, &Pattern::from_pairs(alloc, order, pairs)?)?;
    }
    Ok(())
}

#[test]
fn a_grid_goes_as_plainly(rt: HostRuntime) -> Result<(), Fail> {
    let alloc = rt.alloc();
    let pairs = grid_pairs(alloc)?;
    compare(&rt, alloc, &Pattern::from_pairs(alloc, 144, pairs)?)
}

// Its end goes by rows of bits.
#[test]
fn a_random_pattern_that_gets_dense_goes_as_plainly(rt: HostRuntime) -> Result<(), Fail> {
    let alloc = rt.alloc();
    let mut dice = Pcg32::new(11, 13);
    let pairs = random_pairs(alloc, &mut dice, 300, 900)?;
    compare(&rt, alloc, &Pattern::from_pairs(alloc, 300, pairs)?)
}
