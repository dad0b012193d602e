//! Patterns of pairs and of compressed columns, worked by hand, a plain search beside the lists, and what columns are refused with.

ghost use Rattle.std.specs.Prelude.{◌≡◌};
ghost use Rattle.std.specs.List.{list_any};
ghost use Rattle.patterns.specs.Pattern.{names, are_named};

use patterns::{ColumnsRefusal, Pattern, pattern_of_columns};
use std::alloc::Global;
use std::process::Abort;
use std::test::Fail;

fn check_rows(rt: &impl Abort, pattern: &Pattern, rows: &[&[u32]]) {
    assert_eq!(rt; pattern.rows() as usize, rows.len());
    for (i, row) in rows.iter().enumerate() {
        assert_eq!(rt; pattern.neighbours(i as u32 + 1), *row);
    }
}

// Whether a pair names these two, in one order or the other.
fn names(pair: (u32, u32), a: u32, b: u32) -> bool
    ensures { result ≡ names a b pair }
{
    (pair.0 == a && pair.1 == b) || (pair.0 == b && pair.1 == a)
}

// Whether some pair does: a search through all of them.
fn is_listed(pairs: &[(u32, u32)], a: u32, b: u32) -> bool
    ensures { result ≡ list_any (names a b) pairs.now }
{
    pairs.iter().any(|pair| names(*pair, a, b))
}

// Whether two that differ are named by a pair.
fn are_named(pairs: &[(u32, u32)], a: u32, b: u32) -> bool
    ensures { result ≡ are_named pairs.now a b }
{
    a != b && is_listed(pairs, a, b)
}

#[test]
fn joins_pairs(rt: HostRuntime) -> Result<(), Fail> {
    let alloc = rt.alloc();
    let pairs = [
        (3, 1),
        (5, 2),
        (1, 3),
        (2, 2),
        (4, 3),
        (3, 1),
        (2, 4),
        (1, 5),
    ];
    let pattern = Pattern::from_pairs(alloc, 6, Vec::from_slice(alloc, &pairs)?)?;
    check_rows(
        &rt,
        &pattern,
        &[&[3, 5], &[4, 5], &[1, 4], &[2, 3], &[1, 2], &[]],
    );
    for a in 1..7 {
        for b in 1..7 {
            assert_eq!(rt;
                pattern.neighbours(a).contains(&b),
                are_named(&pairs, a, b),
                "{a} {b}"
            );
        }
    }
    Ok(())
}

// Column 2 is joined to 1 and 3; 4 stands alone. Entries of the lower triangle, of both, from 0 and from 1, in no order and repeated.
#[test]
fn a_pattern_from_columns(rt: HostRuntime) -> Result<(), ColumnsRefusal> {
    let rows: [&[u32]; 4] = [&[2], &[1, 3], &[2], &[]];
    let alloc = rt.alloc();
    let lower = pattern_of_columns(alloc, 0, &[0, 2, 4, 4, 4], &[0, 1, 2, 1])?;
    check_rows(&rt, &lower, &rows);
    let both = pattern_of_columns(alloc, 1, &[1, 2, 5, 6, 7], &[2, 3, 1, 3, 2, 4])?;
    check_rows(&rt, &both, &rows);
    Ok(())
}

fn refused_columns<R: Abort>(
    rt: &R,
    alloc: Global,
    base: u32,
    starts: &[u32],
    rows: &[u32],
    refusal: ColumnsRefusal,
) {
    match pattern_of_columns(alloc, base, starts, rows) {
        Ok(_) => assert!(rt; false),
        Err(found) => assert_eq!(rt; found, refusal),
    }
}

#[test]
fn refused_arrays(rt: HostRuntime) {
    let refused = |base, starts: &[u32], rows: &[u32], refusal| {
        refused_columns(&rt, rt.alloc(), base, starts, rows, refusal);
    };
    refused(2, &[2, 3], &[2], ColumnsRefusal::Base);
    refused(0, &[0], &[], ColumnsRefusal::NoColumn);
    refused(1, &[0, 1], &[1], ColumnsRefusal::Start(1));
    refused(0, &[0, 2, 1, 2], &[0, 1], ColumnsRefusal::Start(3));
    refused(1, &[1, 2, 4], &[1, 2], ColumnsRefusal::Entries(3));
    refused(0, &[0, 1, 2], &[1, 2], ColumnsRefusal::Row(2));
    refused(1, &[1, 2, 3], &[0, 3], ColumnsRefusal::Row(1));
}
