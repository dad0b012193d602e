//! Columns and vertices of fronts worked by hand, and orders along fronts.

use assembly_tree::Assembly;
use equivalent_orders::{
    FrontsRefusal, columns_along, columns_by_front, order_along, vertices_by_front,
};
use matrix_files::{read_pattern, read_perm};
use ordering::min_degree;
use patterns::Pattern;
use permutations::{Perm, PermRefusal};
use row_table::RowTable;
use std::alloc::Global;
use std::process::Abort;
use std::test::Fail;
use symbolic::{Analysis, analyse, relaxed};

// Vertex 1 is joined to all others.
const ARROW: &str = "4 4 3\n2 1\n3 1\n4 1\n";

// The grid of 2 by 2, and that of 3 by 3, row by row.
const SMALL_GRID: &str = "4 4 4\n2 1\n3 1\n4 2\n4 3\n";

const GRID: &str = "9 9 12\n2 1\n4 1\n3 2\n5 2\n6 3\n5 4\n7 4\n6 5\n8 5\n9 6\n8 7\n9 8\n";

// The middle column of the grid comes last, before it the middle rows of both sides, and first the four corners.
const CORNERS_FIRST: &str = "1 3 7 9 4 6 2 5 8\n";

// A matrix, an order of elimination, and how many zeros a merge of two fronts may add; the columns and the vertices of its fronts, after
// an empty row; an order of the fronts, and the order of elimination along it.
struct Case {
    matrix: &'static str,
    order: &'static str,
    zeros: Option<u64>,
    columns: &'static [&'static [u32]],
    vertices: &'static [&'static [u32]],
    fronts: &'static str,
    along: &'static [u32],
}

// By minimum degree: the arrow's middle goes third, in one front with the last end, and the grid's vertices go in turn.
#[rattlefmt::skip]
const BY_DEGREE: &[Case] = &[
    Case { matrix: ARROW, order: "2 3 1 4\n", zeros: None,
        columns: &[&[], &[1], &[2], &[3, 4]], vertices: &[&[], &[2], &[3], &[1, 4]],
        fronts: "2 1 3\n", along: &[3, 2, 1, 4] },
    Case { matrix: SMALL_GRID, order: "1 2 3 4\n", zeros: None,
        columns: &[&[], &[1], &[2, 3, 4]], vertices: &[&[], &[1], &[2, 3, 4]],
        fronts: "1 2\n", along: &[1, 2, 3, 4] },
];

#[rattlefmt::skip]
const CASES: &[Case] = &[
    // the grids are numbered along their postorder: of the larger one the left side comes first, then the right side
    Case { matrix: SMALL_GRID, order: "4 1 2 3\n", zeros: None,
        columns: &[&[], &[1], &[2], &[3, 4]], vertices: &[&[], &[4], &[1], &[2, 3]],
        fronts: "2 1 3\n", along: &[1, 4, 2, 3] },
    Case { matrix: GRID, order: CORNERS_FIRST, zeros: None,
        columns: &[&[], &[1], &[2], &[3], &[4], &[5], &[6], &[7, 8, 9]],
        vertices: &[&[], &[1], &[7], &[4], &[3], &[9], &[6], &[2, 5, 8]],
        fronts: "4 5 6 1 2 3 7\n", along: &[3, 9, 6, 1, 7, 4, 2, 5, 8] },
    // no entries, in another order than that of the numbers
    Case { matrix: "3 3 0\n", order: "3 1 2\n", zeros: None,
        columns: &[&[], &[1], &[2], &[3]], vertices: &[&[], &[3], &[1], &[2]],
        fronts: "2 3 1\n", along: &[1, 2, 3] },
    Case { matrix: "1 1 0\n", order: "1\n", zeros: None,
        columns: &[&[], &[1]], vertices: &[&[], &[1]], fronts: "1\n", along: &[1] },
];

// The first front goes into the last one, for one zero in the arrow and for none in the grid. The second would then take two, or one.
#[rattlefmt::skip]
const MERGED: &[Case] = &[
    Case { matrix: ARROW, order: "2 3 1 4\n", zeros: Some(1),
        columns: &[&[], &[2], &[1, 3, 4]], vertices: &[&[], &[3], &[2, 1, 4]],
        fronts: "1 2\n", along: &[3, 2, 1, 4] },
    Case { matrix: SMALL_GRID, order: "4 1 2 3\n", zeros: Some(0),
        columns: &[&[], &[2], &[1, 3, 4]], vertices: &[&[], &[1], &[4, 2, 3]],
        fronts: "1 2\n", along: &[1, 4, 2, 3] },
];

// The pattern of a size line and the entries under it.
fn pattern_of(alloc: Global, entries: &str) -> Result<Pattern, Fail> {
    let text = format!(in alloc; "%%MatrixMarket matrix coordinate pattern symmetric\n{entries}")?;
    Ok(read_pattern(alloc, text.into_bytes())?)
}

fn check_rows(rt: &impl Abort, table: &RowTable, rows: &[&[u32]]) {
    assert_eq!(rt; table.len(), rows.len());
    assert!(rt; rows.len() < 100);
    for (k, row) in rows.iter().enumerate() {
        assert!(rt; k < table.len());
        assert_eq!(rt; table.row(k as u32), *row);
    }
}

// The columns are numbered in this order.
fn check_along(
    rt: &impl Abort,
    alloc: Global,
    perm: &Perm,
    assembly: &Assembly,
    case: &Case,
) -> Result<(), Fail> {
    let count = assembly.supers().len();
    assert!(rt; count < 100);
    assert_eq!(rt; perm.len(), assembly.columns());
    let fronts = read_perm(alloc, case.fronts.as_bytes(), count as u32)?;
    assert_eq!(rt; fronts.len() as usize, count);
    let order = order_along(alloc, perm, assembly, &fronts)?;
    assert_eq!(rt; order.len() as usize, case.along.len());
    for k in 1..=order.len() {
        assert_eq!(rt; order.at(k), case.along[k as usize - 1]);
    }
    Ok(())
}

fn check_case(
    rt: &impl Abort,
    alloc: Global,
    pattern: &Pattern,
    perm: &Perm,
    case: &Case,
) -> Result<(), Fail> {
    assert_eq!(rt; perm.len(), pattern.rows());
    let Analysis { numbered, assembly } = analyse(alloc, pattern, perm)?;
    let fronts = relaxed(alloc, assembly, case.zeros)?;
    assert_eq!(rt; numbered.perm.len(), fronts.columns());
    check_rows(rt, &columns_by_front(alloc, &fronts)?, case.columns);
    check_rows(
        rt,
        &vertices_by_front(alloc, &numbered.perm, &fronts)?,
        case.vertices,
    );
    check_along(rt, alloc, &numbered.perm, &fronts, case)
}

fn check_cases(rt: &impl Abort, alloc: Global, cases: &[Case]) -> Result<(), Fail> {
    for case in cases {
        let pattern = pattern_of(alloc, case.matrix)?;
        let perm = read_perm(alloc, case.order.as_bytes(), pattern.rows())?;
        check_case(rt, alloc, &pattern, &perm, case)?;
    }
    Ok(())
}

#[test]
fn fronts_by_hand(rt: HostRuntime) -> Result<(), Fail> {
    check_cases(&rt, rt.alloc(), CASES)
}

#[test]
fn merged_fronts_by_hand(rt: HostRuntime) -> Result<(), Fail> {
    check_cases(&rt, rt.alloc(), MERGED)
}

#[test]
fn fronts_by_minimum_degree(rt: HostRuntime) -> Result<(), Fail> {
    check_cases(&rt, rt.alloc(), BY_DEGREE)?;
    for case in BY_DEGREE {
        let pattern = pattern_of(rt.alloc(), case.matrix)?;
        let perm = min_degree(rt.alloc(), &pattern)?;
        check_case(&rt, rt.alloc(), &pattern, &perm, case)?;
    }
    Ok(())
}

// Columns from 0 in the order in which they stand, the front of each by its number, the fronts in an order, and the columns along it.
#[rattlefmt::skip]
const IN_ARRAYS: &[(&[u32], &[u32], &[u32], &[u32])] = &[
    (&[1, 2, 0, 3], &[3, 1, 2, 3], &[2, 1, 3], &[2, 1, 0, 3]),
    (&[0, 2, 1, 3, 4], &[1, 3, 2, 4, 5], &[3, 4, 1, 2, 5], &[1, 3, 0, 2, 4]),
    // one front, whose columns do not rise
    (&[1, 0], &[1, 1], &[1], &[1, 0]),
    // the second front has no column
    (&[1, 0], &[1, 1], &[2, 1], &[1, 0]),
    (&[], &[], &[], &[]),
];

#[test]
fn columns_in_arrays_by_hand(rt: HostRuntime) {
    for (columns, front_of, fronts, along) in IN_ARRAYS {
        match columns_along(rt.alloc(), 0, columns, front_of, fronts) {
            Ok(order) => assert_eq!(rt; order.as_slice(), *along),
            Err(_) => assert!(rt; false),
        }
    }
}

// The columns 5, 6 and 7 in some order, their fronts, the fronts in some order, and why they are refused.
#[rattlefmt::skip]
const REFUSED: &[(&[u32], &[u32], &[u32], FrontsRefusal)] = &[
    (&[5, 6, 7], &[1, 1], &[1], FrontsRefusal::Lengths),
    (&[5, 6, 5], &[1, 1, 1], &[1], FrontsRefusal::Columns(PermRefusal::Repeated(3))),
    (&[5, 4, 7], &[1, 1, 1], &[1], FrontsRefusal::Columns(PermRefusal::Unknown(2))),
    (&[5, 6, 7], &[1, 2, 1], &[2, 2], FrontsRefusal::Fronts(PermRefusal::Repeated(2))),
    (&[5, 6, 7], &[1, 2, 1], &[0, 1], FrontsRefusal::Fronts(PermRefusal::Unknown(1))),
    (&[7, 6, 5], &[1, 0, 4], &[2, 1], FrontsRefusal::Front(2)),
    (&[7, 6, 5], &[1, 2, 3], &[2, 1], FrontsRefusal::Front(3)),
];

#[test]
fn arrays_that_are_refused(rt: HostRuntime) {
    for (columns, front_of, fronts, refusal) in REFUSED {
        match columns_along(rt.alloc(), 5, columns, front_of, fronts) {
            Ok(_) => assert!(rt; false),
            Err(found) => assert_eq!(rt; found, *refusal),
        }
    }
}
