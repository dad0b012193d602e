//! Orders worked by hand, but for the last, which a plain program gave.

ghost use Rattle.std.specs.Prelude.{◌≤◌, IsTrue, length};
ghost use Rattle.elimination.specs.Elimination.{IsVertex};

use elimination::{NoMemory, by_least_degree};
use patterns::Pattern;
use std::alloc::Global;
use std::process::Abort;
use std::test::Fail;

fn is_vertex(order: u32, v: u32) -> bool
    ensures { IsTrue result → IsVertex order v }
{
    (1..=order).contains(&v)
}

// The pattern of so many vertices that joins these pairs.
fn pattern_of(alloc: Global, order: u32, pairs: &[(u32, u32)]) -> Result<Pattern, NoMemory>
    requires order { (1 ≤ order) × (order ≤ 1000) }
    requires few { length pairs.now ≤ 1000 }
{
    let mut within = Vec::new(alloc);
    for (a, b) in pairs {
        if is_vertex(order, *a) && is_vertex(order, *b) {
            within.push((*a, *b))?;
        }
    }
    Pattern::from_pairs(alloc, order, within)
}

fn check_order(
    rt: &impl Abort,
    alloc: Global,
    pairs: &[(u32, u32)],
    wanted: &[u32],
) -> Result<(), Fail>
    requires order { (1 ≤ length wanted.now) × (length wanted.now ≤ 1000) }
    requires few { length pairs.now ≤ 1000 }
{
    let pattern = pattern_of(alloc, wanted.len() as u32, pairs)?;
    let found = by_least_degree(alloc, &pattern)?;
    assert_eq!(rt; found.as_slice(), wanted);
    Ok(())
}

#[test]
fn no_pairs(rt: HostRuntime) -> Result<(), Fail> {
    check_order(&rt, rt.alloc(), &[], &[1, 2, 3, 4])
}

// The middle has one neighbour left at the third turn.
#[test]
fn a_star(rt: HostRuntime) -> Result<(), Fail> {
    check_order(&rt, rt.alloc(), &[(2, 1), (3, 1), (4, 1)], &[2, 3, 1, 4])
}

#[test]
fn a_square(rt: HostRuntime) -> Result<(), Fail> {
    check_order(
        &rt,
        rt.alloc(),
        &[(2, 1), (3, 2), (4, 3), (4, 1)],
        &[1, 2, 3, 4],
    )
}

const ALL_JOINED: [(u32, u32); 6] = [(2, 1), (3, 1), (4, 1), (3, 2), (4, 2), (4, 3)];

#[test]
fn all_joined(rt: HostRuntime) -> Result<(), Fail> {
    check_order(&rt, rt.alloc(), &ALL_JOINED, &[1, 2, 3, 4])
}

#[test]
fn a_grid_of_2_by_2(rt: HostRuntime) -> Result<(), Fail> {
    check_order(
        &rt,
        rt.alloc(),
        &[(2, 1), (3, 1), (4, 2), (4, 3)],
        &[1, 2, 3, 4],
    )
}

#[rattlefmt::skip]
const GRID_OF_3_BY_3: [(u32, u32); 12] = [
    (2, 1), (3, 2), (4, 1), (5, 2), (5, 4), (6, 3), (6, 5), (7, 4), (8, 5), (8, 7), (9, 6), (9, 8),
];

#[test]
fn a_grid_of_3_by_3(rt: HostRuntime) -> Result<(), Fail> {
    check_order(
        &rt,
        rt.alloc(),
        &GRID_OF_3_BY_3,
        &[1, 3, 7, 9, 2, 4, 5, 6, 8],
    )
}

// 1, 2 and 3 are twins, and so are 4 and 5.
#[rattlefmt::skip]
const TWO_GROUPS: [(u32, u32); 13] = [
    (2, 1), (3, 1), (3, 2), (5, 4), (6, 4), (6, 5), (7, 1), (7, 2), (7, 3), (7, 4), (7, 5), (8, 6), (8, 7),
];

#[test]
fn two_groups_of_twins(rt: HostRuntime) -> Result<(), Fail> {
    check_order(&rt, rt.alloc(), &TWO_GROUPS, &[8, 1, 2, 3, 4, 5, 6, 7])
}

// Parts meet.
#[rattlefmt::skip]
const TWELVE: [(u32, u32); 16] = [
    (3, 1), (4, 2), (4, 3), (5, 1), (5, 2), (6, 1), (6, 5), (7, 2), (7, 4), (7, 6), (8, 2), (8, 7), (10, 3), (11, 3), (11, 4), (11, 9),
];

const WANTED: [u32; 12] = [12, 9, 10, 8, 11, 3, 1, 2, 4, 5, 6, 7];

#[test]
fn twelve_vertices(rt: HostRuntime) -> Result<(), Fail> {
    check_order(&rt, rt.alloc(), &TWELVE, &WANTED)
}
