//! Trees of fronts worked by hand.

use assembly_tree::Shape;
use matrix_files::{read_pattern, read_perm};
use std::alloc::Global;
use std::process::Abort;
use std::test::Fail;
use symbolic::{FrontOptions, front_tree};

// Vertex 1 is joined to all others.
const ARROW: &str = "%%MatrixMarket matrix coordinate pattern symmetric\n4 4 3\n2 1\n3 1\n4 1\n";

// Vertex 1 is joined to 3, and 2 to 4.
const PAIRS: &str = "%%MatrixMarket matrix coordinate pattern symmetric\n4 4 2\n3 1\n4 2\n";

const IN_TURN: &str = "1 2 3 4\n";

// Two ends of the arrow, then its middle and the third end.
const ENDS_FIRST: &str = "2 3 1 4\n";

const PLAIN: FrontOptions = FrontOptions {
    shape: Shape::Triangle,
    zeros: None,
    inplace: false,
};

// A matrix of four columns, an order of them, and its fronts: of each the parent, block, extra, share and time.
struct Case {
    matrix: &'static str,
    order: &'static str,
    options: FrontOptions,
    fronts: &'static [(u32, u64, u64, u64, u64)],
}

#[rattlefmt::skip]
const CASES: &[Case] = &[
    Case { matrix: ARROW, order: IN_TURN, options: PLAIN, fronts: &[(0, 0, 10, 0, 4)] },
    Case { matrix: PAIRS, order: IN_TURN, options: PLAIN, fronts: &[(0, 0, 3, 0, 2), (0, 0, 3, 0, 2)] },
    Case { matrix: ARROW, order: ENDS_FIRST, options: PLAIN,
        fronts: &[(3, 1, 2, 0, 1), (3, 1, 2, 0, 1), (0, 0, 3, 0, 2)] },
    Case { matrix: ARROW, order: ENDS_FIRST, options: FrontOptions { shape: Shape::Square, ..PLAIN },
        fronts: &[(3, 1, 3, 0, 1), (3, 1, 3, 0, 1), (0, 0, 4, 0, 2)] },
    Case { matrix: ARROW, order: ENDS_FIRST, options: FrontOptions { zeros: Some(1), ..PLAIN },
        fronts: &[(2, 1, 2, 0, 1), (0, 0, 6, 0, 3)] },
    Case { matrix: ARROW, order: ENDS_FIRST, options: FrontOptions { inplace: true, ..PLAIN },
        fronts: &[(3, 1, 2, 0, 1), (3, 1, 2, 0, 1), (0, 0, 3, 1, 2)] },
];

fn check_fronts(rt: &impl Abort, alloc: Global, case: &Case) -> Result<(), Fail> {
    let pattern = read_pattern(alloc, Vec::from_slice(alloc, case.matrix.as_bytes())?)?;
    let perm = read_perm(alloc, case.order.as_bytes(), pattern.rows())?;
    assert_eq!(rt; perm.len(), pattern.rows());
    let tree = front_tree(alloc, &pattern, &perm, case.options)?;
    assert_eq!(rt; tree.nodes().len(), case.fronts.len());
    for (node, front) in tree.nodes().iter().zip(case.fronts) {
        let found = (node.parent, node.out, node.extra, node.share, node.time);
        assert_eq!(rt; found, *front);
    }
    Ok(())
}

#[test]
fn fronts_by_hand(rt: HostRuntime) -> Result<(), Fail> {
    for case in CASES {
        check_fronts(&rt, rt.alloc(), case)?;
    }
    Ok(())
}
