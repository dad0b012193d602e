//! Files of the inverse of an order, as METIS and as Scotch write them, worked by hand.

use crate::tests::orders::check_perm;
use matrix_files::read_inverse;
use std::test::Fail;

// The text, and what it reads as: the vertices by place, and the places by vertex.
const INVERSES: &[(&str, &[u32], &[u32])] = &[
    // from 0
    ("2\n0\n1\n3\n", &[2, 3, 1, 4], &[3, 1, 2, 4]),
    ("3\n2\n1\n0", &[4, 3, 2, 1], &[4, 3, 2, 1]),
    // from 1
    ("3\n1\n2\n4\n", &[2, 3, 1, 4], &[3, 1, 2, 4]),
    (
        "# by hand\r\n2 4\r\n\r\n% more, and 0\n  03\t1",
        &[4, 1, 3, 2],
        &[2, 4, 3, 1],
    ),
    // one vertex, or none
    ("0", &[1], &[1]),
    ("1\n", &[1], &[1]),
    ("% none\n", &[], &[]),
];

#[test]
fn inverse_files(rt: HostRuntime) -> Result<(), Fail> {
    for (text, vertices, places) in INVERSES {
        let order = read_inverse(rt.alloc(), text.as_bytes(), vertices.len() as u32)?;
        check_perm(&rt, &order, vertices, places, text);
    }
    Ok(())
}

// As the places of 4 vertices.
const REFUSED_INVERSES: &[(&str, &str)] = &[
    ("2\n0\nx\n3\n", "number at line 3"),
    ("0 1 2 4\n", "range at line 1"),
    ("4\n3\n2\n1\n0\n", "range at line 1"),
    ("1 2 3\n5\n", "range at line 2"),
    ("18446744073709551615 1 2 3", "range at line 1"),
    ("2\n0\n1\n2\n", "repeated at line 4"),
    ("1\n4\n1\n2\n", "repeated at line 3"),
    ("0 1 2 3\n2\n", "count at line 2"),
    ("4 3 2 1 1\n", "count at line 1"),
    ("0\n1\n2\n", "count at line 4"),
    ("1 2 3", "count at line 2"),
    ("1 2 3 # 0", "number at line 1"),
    ("", "count at line 1"),
];

#[test]
fn refused_inverse_files(rt: HostRuntime) -> Result<(), Fail> {
    let alloc = rt.alloc();
    for (text, said) in REFUSED_INVERSES {
        let refusal = read_inverse(alloc, text.as_bytes(), 4).err().ok_or(*text)?;
        assert_eq!(rt; format!(in alloc; "{refusal}")?.as_str(), *said, "{text}");
    }
    Ok(())
}

// Listings as Scotch writes them; what each reads as.
const LISTINGS: &[(&str, &[u32], &[u32])] = &[
    // from 0, and from 1
    ("4\n0\t2\n1\t0\n2\t1\n3\t3\n", &[2, 3, 1, 4], &[3, 1, 2, 4]),
    ("4\n1\t3\n2\t1\n3\t2\n4\t4\n", &[2, 3, 1, 4], &[3, 1, 2, 4]),
    ("2\n0 1\n1 0", &[2, 1], &[2, 1]),
    ("2\n1 2\n2 1", &[2, 1], &[2, 1]),
    ("1\n0 0\n", &[1], &[1]),
    ("1\n1 1\n", &[1], &[1]),
    // lines broken elsewhere, comments between them
    (
        "# by hand, 9\r\n4 1\r\n2 2 4\r\n\r\n% 0\n  3 1\t4\n3",
        &[3, 1, 4, 2],
        &[2, 4, 1, 3],
    ),
    ("2 0 0 1 1", &[1, 2], &[1, 2]),
    // no vertex
    ("0\n", &[], &[]),
];

#[test]
fn listings(rt: HostRuntime) -> Result<(), Fail> {
    for (text, vertices, places) in LISTINGS {
        let order = read_inverse(rt.alloc(), text.as_bytes(), vertices.len() as u32)?;
        check_perm(&rt, &order, vertices, places, text);
    }
    Ok(())
}

// As the places of so many vertices; all but the last have 2n + 1 tokens.
const REFUSED_LISTINGS: &[(u32, &str, &str)] = &[
    // another number of vertices, or none
    (2, "3\n1 1\n2 2\n", "count at line 1"),
    (1, "0\n0 0\n", "count at line 1"),
    (2, "two\n1 1\n2 2\n", "count at line 1"),
    // another vertex than the next one, or none
    (2, "2\n2 1\n1 2\n", "range at line 2"),
    (2, "2\n0 0\n2 1\n", "range at line 3"),
    (2, "2\n1 1\n1 2\n", "range at line 3"),
    (2, "2\n0 1\n0 0\n", "range at line 3"),
    (2, "2\n3 1\n4 2\n", "range at line 2"),
    (2, "2\n1 1\n- 2\n", "number at line 3"),
    (2, "2\nx 0\n1 1\n", "number at line 2"),
    // no place, or one of another base
    (2, "2\n1 3\n2 1\n", "range at line 2"),
    (2, "2\n1 0\n2 1\n", "range at line 2"),
    (2, "2\n0 1\n1 2\n", "range at line 3"),
    (2, "2\n1 1\n2 x\n", "number at line 3"),
    (1, "1 1 18446744073709551616\n", "number at line 1"),
    // a place twice
    (2, "2\n1 2\n2 2\n", "repeated at line 3"),
    (3, "3\n0 1\n1 1\n2 0\n", "repeated at line 3"),
    // a token too few or too many: places alone
    (2, "2\n1 2\n2\n", "count at line 2"),
    (3, "3\n1 2\n2 1\n3\n", "count at line 3"),
    (2, "2\n1 2\n2 1\n3\n", "count at line 2"),
    (1, "1\n1 1\n1\n", "count at line 2"),
];

#[test]
fn refused_listings(rt: HostRuntime) -> Result<(), Fail> {
    let alloc = rt.alloc();
    for (n, text, said) in REFUSED_LISTINGS {
        let refusal = read_inverse(alloc, text.as_bytes(), *n).err().ok_or(*text)?;
        assert_eq!(rt; format!(in alloc; "{refusal}")?.as_str(), *said, "{text}");
    }
    Ok(())
}
