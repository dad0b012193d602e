//! Columns of fronts, worked by hand: two chains that meet in the last of five columns, which the postorder takes one after the other.

use super::no_fault;
use c_calls::{Fault, GivenOptions, front_columns, matrix_analysis};
use std::alloc::Global;
use std::process::Abort;
use trees::Node;

const TRIANGLE: GivenOptions = GivenOptions {
    shape: 0,
    in_place: 0,
    merge: 0,
    zeros: 0,
};

const EMPTY: Node = Node {
    parent: 9,
    out: 9,
    extra: 9,
    share: 9,
    time: 9,
};

// The fronts of the two chains, eliminated in an order; the status, the fronts of the columns, and the columns.
fn of_chains(alloc: Global, order: &[u32]) -> (u32, [u32; 5], [u32; 5]) {
    let mut nodes = [EMPTY; 5];
    let mut count = 9;
    let mut front_of = [9u32; 5];
    let mut columns = [9u32; 5];
    let status = matrix_analysis(
        alloc,
        0,
        &[0, 1, 2, 3, 4, 4],
        &[2, 3, 4, 4],
        order,
        &TRIANGLE,
        &mut nodes,
        &mut count,
        &mut front_of,
        &mut columns,
        &mut no_fault(),
    );
    (status, front_of, columns)
}

#[test]
fn analysis_of_two_chains(rt: HostRuntime) {
    let (status, front_of, columns) = of_chains(rt.alloc(), &[0, 1, 2, 3, 4]);
    assert_eq!(rt; status, 0);
    assert_eq!(rt; front_of, [1, 3, 2, 4, 5]);
    assert_eq!(rt; columns, [0, 2, 1, 3, 4]);
}

#[test]
fn other_chain_first(rt: HostRuntime) {
    let (status, front_of, columns) = of_chains(rt.alloc(), &[1, 3, 0, 2, 4]);
    assert_eq!(rt; status, 0);
    assert_eq!(rt; front_of, [3, 1, 4, 2, 5]);
    assert_eq!(rt; columns, [1, 3, 0, 2, 4]);
}

// What the columns of the two chains are along their fronts, the status, and the fault.
fn along(
    alloc: Global,
    columns: &[u32],
    front_of: &[u32],
    fronts: &[u32],
) -> (u32, [u32; 5], Fault) {
    let mut new_columns = [9u32; 5];
    let mut fault = no_fault();
    let status = front_columns(
        alloc,
        0,
        columns,
        front_of,
        fronts,
        &mut new_columns,
        &mut fault,
    );
    (status, new_columns, fault)
}

#[test]
fn columns_front_by_front(rt: HostRuntime) {
    let (status, new_columns, _) = along(
        rt.alloc(),
        &[0, 2, 1, 3, 4],
        &[1, 3, 2, 4, 5],
        &[3, 4, 1, 2, 5],
    );
    assert_eq!(rt; status, 0);
    assert_eq!(rt; new_columns, [1, 3, 0, 2, 4]);
}

// Columns, the front of each, an order of the fronts; the status, the kind and the place of the fault.
#[rattlefmt::skip]
const REFUSED: &[(&[u32], &[u32], &[u32], u32, u32, u64)] = &[
    (&[0, 2, 1, 3], &[1, 3, 2, 4], &[1, 2, 3, 4], 2, 2, 0),
    (&[0, 2, 1, 3, 4], &[1, 3, 2, 4], &[1, 2, 3, 4], 2, 73, 0),
    (&[0, 2, 1, 3, 2], &[1, 3, 2, 4, 5], &[3, 4, 1, 2, 5], 3, 69, 5),
    (&[0, 2, 5, 3, 4], &[1, 3, 2, 4, 5], &[3, 4, 1, 2, 5], 3, 68, 3),
    (&[0, 2, 1, 3, 4], &[1, 3, 2, 4, 5], &[3, 4, 1, 6, 5], 1, 20, 4),
    (&[0, 2, 1, 3, 4], &[1, 3, 2, 4, 5], &[3, 4, 3, 2, 5], 1, 21, 3),
    (&[0, 2, 1, 3, 4], &[1, 3, 2, 4, 5], &[3, 4, 1, 2], 3, 74, 5),
];

#[test]
fn refused_columns(rt: HostRuntime) {
    for (columns, front_of, fronts, status, kind, at) in REFUSED {
        let (found, new_columns, fault) = along(rt.alloc(), columns, front_of, fronts);
        assert_eq!(rt; (found, fault.kind, fault.at), (*status, *kind, *at));
        assert_eq!(rt; new_columns, [9, 9, 9, 9, 9]);
    }
}
