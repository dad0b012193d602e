//! Assembly trees worked by hand.

use assembly_tree::{Assembly, Shape, amalgamate, are_counts, fronts, is_count, supernodes};
use elim_tree::{Parents, etree};
use matrix_files::{read_pattern, read_perm};
use std::alloc::Global;
use std::process::Abort;
use std::test::Fail;

const ARROW: &str = "%%MatrixMarket matrix coordinate pattern symmetric\n4 4 3\n2 1\n3 1\n4 1\n";

const GRID: &str =
    "%%MatrixMarket matrix coordinate pattern symmetric\n4 4 4\n2 1\n3 1\n4 2\n4 3\n";

const NO_ENTRIES: &str = "%%MatrixMarket matrix coordinate pattern symmetric\n4 4 0\n";

// Fronts of a shape, with in-place assembly or without: of each the parent, block, extra, share and time.
type Fronts = (Shape, bool, &'static [(u32, u64, u64, u64, u64)]);

// An assembly tree of four columns: its supernodes by columns, rest and parent, the supernode of each column, and its fronts.
struct Expected {
    supers: &'static [(u32, u32, u32)],
    nodes: [u32; 4],
    fronts: &'static [Fronts],
}

#[rattlefmt::skip]
const WHOLE: Expected = Expected { supers: &[(4, 0, 0)], nodes: [1, 1, 1, 1], fronts: &[
    (Shape::Triangle, false, &[(0, 0, 10, 0, 4)]),
    (Shape::Triangle, true, &[(0, 0, 10, 0, 4)]),
    (Shape::Square, false, &[(0, 0, 16, 0, 4)]),
    (Shape::Square, true, &[(0, 0, 16, 0, 4)]),
] };

#[rattlefmt::skip]
const TWO_LEAVES: Expected = Expected { supers: &[(1, 1, 3), (1, 1, 3), (2, 0, 0)], nodes: [1, 2, 3, 3], fronts: &[
    (Shape::Triangle, false, &[(3, 1, 2, 0, 1), (3, 1, 2, 0, 1), (0, 0, 3, 0, 2)]),
    (Shape::Triangle, true, &[(3, 1, 2, 0, 1), (3, 1, 2, 0, 1), (0, 0, 3, 1, 2)]),
    (Shape::Square, false, &[(3, 1, 3, 0, 1), (3, 1, 3, 0, 1), (0, 0, 4, 0, 2)]),
    (Shape::Square, true, &[(3, 1, 3, 0, 1), (3, 1, 3, 0, 1), (0, 0, 4, 1, 2)]),
] };

#[rattlefmt::skip]
const ONE_LEAF: Expected = Expected { supers: &[(1, 1, 2), (3, 0, 0)], nodes: [2, 1, 2, 2], fronts: &[
    (Shape::Triangle, false, &[(2, 1, 2, 0, 1), (0, 0, 6, 0, 3)]),
] };

#[rattlefmt::skip]
const OF_GRID: Expected = Expected { supers: &[(1, 2, 2), (3, 0, 0)], nodes: [1, 2, 2, 2], fronts: &[
    (Shape::Triangle, false, &[(2, 3, 3, 0, 1), (0, 0, 6, 0, 3)]),
] };

#[rattlefmt::skip]
const ALONE: Expected = Expected { supers: &[(1, 0, 0), (1, 0, 0), (1, 0, 0), (1, 0, 0)], nodes: [1, 2, 3, 4], fronts: &[
    (Shape::Triangle, true, &[(0, 0, 1, 0, 1), (0, 0, 1, 0, 1), (0, 0, 1, 0, 1), (0, 0, 1, 0, 1)]),
] };

fn tree_of(rt: &impl Abort, alloc: Global, matrix: &str, order: &str) -> Result<Parents, Fail> {
    let pattern = read_pattern(alloc, Vec::from_slice(alloc, matrix.as_bytes())?)?;
    let perm = read_perm(alloc, order.as_bytes(), pattern.rows())?;
    assert_eq!(rt; pattern.rows(), perm.len());
    Ok(etree(alloc, &pattern, &perm)?)
}

fn supernodes_of(
    rt: &impl Abort,
    alloc: Global,
    matrix: &str,
    order: &str,
    counts: [u32; 4],
) -> Result<Assembly, Fail> {
    let parents = tree_of(rt, alloc, matrix, order)?;
    assert!(rt; are_counts(&parents, &counts));
    Ok(supernodes(alloc, &parents, &counts)?)
}

fn check_fronts(
    rt: &impl Abort,
    alloc: Global,
    assembly: &Assembly,
    expected: Fronts,
) -> Result<(), Fail> {
    let (shape, inplace, nodes) = expected;
    let tree = fronts(alloc, assembly, shape, inplace)?;
    assert_eq!(rt; tree.nodes().len(), nodes.len());
    for (node, expected) in tree.nodes().iter().zip(nodes) {
        let found = (node.parent, node.out, node.extra, node.share, node.time);
        assert_eq!(rt; found, *expected);
    }
    Ok(())
}

fn check(
    rt: &impl Abort,
    alloc: Global,
    assembly: &Assembly,
    expected: &Expected,
) -> Result<(), Fail> {
    assert_eq!(rt; assembly.supers().len(), expected.supers.len());
    for (found, expected) in assembly.supers().iter().zip(expected.supers) {
        assert_eq!(rt; (found.columns, found.rest, found.parent), *expected);
    }
    assert_eq!(rt; assembly.columns(), 4);
    assert_eq!(rt; assembly.super_of(0), 0);
    let nodes = expected.nodes;
    for j in 1..=4u32 {
        assert_eq!(rt; assembly.super_of(j), nodes[j as usize - 1]);
    }
    for fronts in expected.fronts {
        check_fronts(rt, alloc, assembly, *fronts)?;
    }
    Ok(())
}

// The arrow in its natural order fills in: one supernode.
#[test]
fn the_arrow(rt: HostRuntime) -> Result<(), Fail> {
    let alloc = rt.alloc();
    let arrow = supernodes_of(&rt, alloc, ARROW, "1 2 3 4", [4, 3, 2, 1])?;
    check(&rt, alloc, &arrow, &WHOLE)?;
    check(&rt, alloc, &amalgamate(alloc, &arrow, 1)?, &WHOLE)
}

// With its centre third nothing is filled in: columns 1 and 2 have one parent, and 3 goes on with none of them.
fn turned_arrow(rt: &impl Abort, alloc: Global) -> Result<Assembly, Fail> {
    supernodes_of(rt, alloc, ARROW, "2 3 1 4", [2, 2, 2, 1])
}

#[test]
fn the_turned_arrow(rt: HostRuntime) -> Result<(), Fail> {
    let turned = turned_arrow(&rt, rt.alloc())?;
    check(&rt, rt.alloc(), &turned, &TWO_LEAVES)
}

// The first leaf costs one zero; then the second would cost two.
#[test]
fn merges_of_the_turned_arrow(rt: HostRuntime) -> Result<(), Fail> {
    let alloc = rt.alloc();
    let turned = turned_arrow(&rt, alloc)?;
    for (zeros, expected) in [(0, &TWO_LEAVES), (1, &ONE_LEAF), (2, &WHOLE)] {
        check(&rt, alloc, &amalgamate(alloc, &turned, zeros)?, expected)?;
    }
    Ok(())
}

#[test]
fn the_grid_and_no_entries(rt: HostRuntime) -> Result<(), Fail> {
    let alloc = rt.alloc();
    let grid = supernodes_of(&rt, alloc, GRID, "1 2 3 4", [3, 3, 2, 1])?;
    check(&rt, alloc, &grid, &OF_GRID)?;
    let none = supernodes_of(&rt, alloc, NO_ENTRIES, "1 2 3 4", [1, 1, 1, 1])?;
    check(&rt, alloc, &none, &ALONE)?;
    check(&rt, alloc, &amalgamate(alloc, &none, 1 << 40)?, &ALONE)
}

// Of the arrow in its natural order, a path from 1 up to 4: a count is 0, a root's is 2, a count falls by two, one is missing.
#[test]
fn counts_that_no_column_has(rt: HostRuntime) -> Result<(), Fail> {
    let alloc = rt.alloc();
    let parents = tree_of(&rt, alloc, ARROW, "1 2 3 4")?;
    assert_eq!(rt; parents.len(), 4);
    for (counts, each) in [
        ([4, 3, 2, 1], [true, true, true, true]),
        ([1, 1, 1, 1], [true, true, true, true]),
        ([1, 1, 0, 1], [true, true, false, true]),
        ([2, 3, 2, 2], [true, true, true, false]),
        ([4, 2, 2, 1], [false, true, true, true]),
    ] {
        let all = each[0] && each[1] && each[2] && each[3];
        assert_eq!(rt; are_counts(&parents, &counts), all);
        for j in 1..=4u32 {
            assert_eq!(rt; is_count(&parents, &counts, j), each[j as usize - 1]);
        }
    }
    assert!(rt; !are_counts(&parents, &[3, 2, 1]));
    Ok(())
}
