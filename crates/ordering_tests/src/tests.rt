//! Minimum degree orders worked by hand, and the most vertices that are ordered.

use matrix_files::read_pattern;
use ordering::{MindegRefusal, min_degree};
use patterns::Pattern;
use permutations::Perm;
use std::alloc::Global;
use std::process::Abort;
use std::test::Fail;

// The order has these vertices by place, and these places by vertex.
fn check_perm(rt: &impl Abort, perm: &Perm, vertices: &[u32], places: &[u32], said: &str) {
    assert_eq!(rt; perm.len() as usize, vertices.len(), "{said}");
    assert_eq!(rt; places.len(), vertices.len(), "{said}");
    assert_eq!(rt; (perm.at(0), perm.place(0)), (0, 0), "{said}");
    for k in 1..=perm.len() {
        assert_eq!(rt; perm.at(k), vertices[k as usize - 1], "{said}");
        assert_eq!(rt; perm.place(k), places[k as usize - 1], "{said}");
    }
}

// The pattern of a size line and the entries under it.
fn pattern_of(alloc: Global, entries: &str) -> Result<Pattern, Fail> {
    let text = format!(in alloc; "%%MatrixMarket matrix coordinate pattern symmetric\n{entries}")?;
    Ok(read_pattern(alloc, text.into_bytes())?)
}

// The arrow, the grid of 2 by 2, and no pairs: the vertices by place, and the places.
const ORDERS: &[(&str, &[u32], &[u32])] = &[
    ("4 4 3\n2 1\n3 1\n4 1\n", &[2, 3, 1, 4], &[3, 1, 2, 4]),
    ("4 4 4\n2 1\n3 1\n4 2\n4 3\n", &[1, 2, 3, 4], &[1, 2, 3, 4]),
    ("4 4 0\n", &[1, 2, 3, 4], &[1, 2, 3, 4]),
];

#[test]
fn minimum_degree_orders(rt: HostRuntime) -> Result<(), Fail> {
    for (entries, vertices, places) in ORDERS {
        let pattern = pattern_of(rt.alloc(), entries)?;
        let order = min_degree(rt.alloc(), &pattern)?;
        check_perm(&rt, &order, vertices, places, entries);
    }
    Ok(())
}

#[test]
fn the_most_vertices_are_ordered(rt: HostRuntime) -> Result<(), Fail> {
    let most = pattern_of(rt.alloc(), "50000 50000 0\n")?;
    let order = min_degree(rt.alloc(), &most)?;
    assert_eq!(rt; order.len(), 50_000);
    Ok(())
}

#[test]
fn more_vertices_are_not_ordered(rt: HostRuntime) -> Result<(), Fail> {
    let more = pattern_of(rt.alloc(), "50001 50001 0\n")?;
    let refusal = min_degree(rt.alloc(), &more).err();
    assert_eq!(rt; refusal, Some(MindegRefusal::Limit));
    Ok(())
}
