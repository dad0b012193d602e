//! Fronts of the arrow, worked by hand: column 1 is joined to all others. Eliminated third, it leaves
//! two fronts of one column, and one of two.

ghost use Rattle.std.specs.Prelude.{◌<◌};

use c_calls::{Fault, GivenOptions, matrix_fronts};
use std::alloc::Global;
use std::process::Abort;
use trees::Node;

const TRIANGLE: GivenOptions = GivenOptions {
    shape: 0,
    in_place: 0,
    merge: 0,
    zeros: 0,
};

const EMPTY: Node = Node {
    parent: 9,
    out: 9,
    extra: 9,
    share: 9,
    time: 9,
};

// What a call wrote, and what it answered.
#[derive(Drop)]
struct Written {
    status: u32,
    nodes: [Node; 4],
    count: u64,
    front_of: [u32; 4],
    fault: Fault,
}

fn call(
    alloc: Global,
    base: u32,
    starts: &[u32],
    rows: &[u32],
    order: &[u32],
    options: GivenOptions,
) -> Written {
    let mut nodes = [EMPTY; 4];
    let mut count = 9;
    let mut front_of = [9u32; 4];
    let mut fault = Fault {
        kind: 9,
        at: 9,
        value: 9,
    };
    let status = matrix_fronts(
        alloc,
        base,
        starts,
        rows,
        order,
        &options,
        &mut nodes,
        &mut count,
        &mut front_of,
        &mut fault,
    );
    Written {
        status,
        nodes,
        count,
        front_of,
        fault,
    }
}

fn numbers(node: Node) -> (u32, u64, u64, u64, u64) {
    (node.parent, node.out, node.extra, node.share, node.time)
}

// The arrow's fronts in an order of elimination, or by minimum degree.
fn of_arrow(alloc: Global, order: &[u32], options: GivenOptions) -> Written {
    call(alloc, 1, &[1, 4, 4, 4, 4], &[2, 3, 4], order, options)
}

fn check_front<R: Abort>(rt: &R, made: &Written, i: usize, front: (u32, u64, u64, u64, u64))
    requires { i < 4 }
{
    assert_eq!(rt; numbers(made.nodes[i]), front);
}

#[test]
fn three_fronts(rt: HostRuntime) {
    for order in [[2, 3, 1, 4].as_slice(), [].as_slice()] {
        let made = of_arrow(rt.alloc(), order, TRIANGLE);
        assert_eq!(rt; (made.status, made.count), (0, 3));
        check_front(&rt, &made, 0, (3, 1, 2, 0, 1));
        check_front(&rt, &made, 1, (3, 1, 2, 0, 1));
        check_front(&rt, &made, 2, (0, 0, 3, 0, 2));
        check_front(&rt, &made, 3, (9, 9, 9, 9, 9));
        assert_eq!(rt; made.front_of, [3, 1, 2, 3]);
        assert_eq!(rt; made.fault.kind, 9);
    }
}

// Column 2 goes into the last front, which then has a zero.
#[test]
fn two_fronts(rt: HostRuntime) {
    let merged = GivenOptions {
        merge: 1,
        zeros: 1,
        ..TRIANGLE
    };
    let made = of_arrow(rt.alloc(), &[2, 3, 1, 4], merged);
    assert_eq!(rt; (made.status, made.count), (0, 2));
    check_front(&rt, &made, 0, (2, 1, 2, 0, 1));
    check_front(&rt, &made, 1, (0, 0, 6, 0, 3));
    assert_eq!(rt; made.front_of, [2, 2, 1, 2]);
}

#[test]
fn squares_in_place(rt: HostRuntime) {
    let options = GivenOptions {
        shape: 1,
        in_place: 7,
        ..TRIANGLE
    };
    let made = call(
        rt.alloc(),
        0,
        &[0, 3, 3, 3, 3],
        &[1, 2, 3],
        &[1, 2, 0, 3],
        options,
    );
    assert_eq!(rt; (made.status, made.count), (0, 3));
    check_front(&rt, &made, 0, (3, 1, 3, 0, 1));
    check_front(&rt, &made, 2, (0, 0, 4, 1, 2));
}

fn refused<R: Abort>(rt: &R, made: &Written, status: u32, kind: u32, at: u64, value: u64) {
    assert_eq!(rt; made.status, status);
    assert_eq!(rt;
        (made.fault.kind, made.fault.at, made.fault.value),
        (kind, at, value)
    );
    assert_eq!(rt; (made.count, made.front_of), (9, [9, 9, 9, 9]));
    check_front(rt, made, 0, (9, 9, 9, 9, 9));
}

#[test]
fn refused_matrices(rt: HostRuntime) {
    let alloc = rt.alloc();
    let made = call(alloc, 1, &[1, 4, 4, 4, 4], &[2, 3, 5], &[], TRIANGLE);
    refused(&rt, &made, 3, 66, 3, 0);
    let made = call(alloc, 1, &[1, 4, 4, 4], &[2, 3, 4], &[], TRIANGLE);
    refused(&rt, &made, 2, 2, 0, 3);
    let made = of_arrow(alloc, &[2, 3, 2, 4], TRIANGLE);
    refused(&rt, &made, 3, 69, 3, 0);
    let hexagon = GivenOptions {
        shape: 6,
        ..TRIANGLE
    };
    refused(&rt, &of_arrow(alloc, &[], hexagon), 2, 71, 0, 0);
}
