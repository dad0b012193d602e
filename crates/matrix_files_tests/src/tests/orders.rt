//! Order files and permutation files worked by hand, and what they are refused with.

use matrix_files::{read_order, read_perm};
use permutations::Perm;
use std::process::Abort;
use std::test::Fail;

const ORDERS: &[(&str, &[u32])] = &[
    ("", &[]),
    ("1 3 2 4 5\n", &[1, 3, 2, 4, 5]),
    ("# tasks\r\n1\t3\r\n\n% more\n 002", &[1, 3, 2]),
    ("0 4294967295", &[0, 4_294_967_295]),
    // a report, as `post` prints it
    ("peak 9\norder 3\n1\n3\n2\nend\n", &[1, 3, 2]),
    (
        "# peaks\npeak 18446744073709551615\r\n order\t03\n1 3\n\n2\n% the end\nend",
        &[1, 3, 2],
    ),
    ("peak 0\norder 0\nend\n", &[]),
];

#[test]
fn order_files(rt: HostRuntime) -> Result<(), Fail> {
    for (text, wanted) in ORDERS {
        let numbers = read_order(rt.alloc(), text.as_bytes())?;
        assert_eq!(rt; numbers.as_slice(), *wanted, "{text}");
    }
    Ok(())
}

const REFUSED_ORDERS: &[(&str, &str)] = &[
    ("1\n4294967296\n", "number at line 2"),
    ("1 18446744073709551616\n", "number at line 1"),
    ("1\n\n2 x\n", "number at line 3"),
    ("1 # 2\n", "number at line 1"),
    ("-1\n", "number at line 1"),
    ("1\npeak 9\n", "number at line 2"),
    // a report
    ("peak\n", "header at line 1"),
    ("peak 9 order 1\n", "header at line 1"),
    (
        "peak 18446744073709551616\norder 0\nend\n",
        "header at line 1",
    ),
    ("peak 9\n1\n", "header at line 2"),
    ("peak 9\norder x\n", "header at line 2"),
    ("peak 9\norder 1000001\n", "limit tasks"),
    ("peak 9\norder 2\n1\nx\n", "number at line 4"),
    ("peak 9\norder 2\n1 4294967296\n", "number at line 3"),
    ("peak 9\norder 2\n1\n2 end\n", "count at line 4"),
    ("peak 9\norder 2\n1\nend\n", "count at line 4"),
    ("peak 9\norder 2\n1 2 3\nend\n", "count at line 3"),
    ("peak 9\norder 1\n1\nend\n2\n", "count at line 5"),
    ("peak 9\norder 1\n1\nend\nend\n", "count at line 5"),
    ("peak 9\n", "no-end at line 2"),
    ("peak 9\norder 1\n1\n", "no-end at line 4"),
];

#[test]
fn refused_order_files(rt: HostRuntime) -> Result<(), Fail> {
    let alloc = rt.alloc();
    for (text, said) in REFUSED_ORDERS {
        let refusal = read_order(alloc, text.as_bytes()).err().ok_or(*text)?;
        assert_eq!(rt; format!(in alloc; "{refusal}")?.as_str(), *said, "{text}");
    }
    Ok(())
}

// The order has these vertices by place, and these places by vertex.
pub fn check_perm(rt: &impl Abort, perm: &Perm, vertices: &[u32], places: &[u32], said: &str) {
    assert_eq!(rt; perm.len() as usize, vertices.len(), "{said}");
    assert_eq!(rt; places.len(), vertices.len(), "{said}");
    assert_eq!(rt; (perm.at(0), perm.place(0)), (0, 0), "{said}");
    for k in 1..=perm.len() {
        assert_eq!(rt; perm.at(k), vertices[k as usize - 1], "{said}");
        assert_eq!(rt; perm.place(k), places[k as usize - 1], "{said}");
    }
}

// The text, the vertices by place, and the places by vertex.
const PERMS: &[(&str, &[u32], &[u32])] = &[
    ("2 3 1 4\n", &[2, 3, 1, 4], &[3, 1, 2, 4]),
    ("1 2 3 4", &[1, 2, 3, 4], &[1, 2, 3, 4]),
    (
        "# by hand\r\n4 1\r\n\r\n% more\n  03\t2",
        &[4, 1, 3, 2],
        &[2, 4, 3, 1],
    ),
    ("4\n3\n2\n1\n", &[4, 3, 2, 1], &[4, 3, 2, 1]),
];

#[test]
fn permutation_files(rt: HostRuntime) -> Result<(), Fail> {
    for (text, vertices, places) in PERMS {
        let perm = read_perm(rt.alloc(), text.as_bytes(), 4)?;
        check_perm(&rt, &perm, vertices, places, text);
    }
    Ok(())
}

// As orders of 4 vertices.
const REFUSED_PERMS: &[(&str, &str)] = &[
    ("2 2 1 4\n", "repeated at line 1"),
    ("5 1 2 3\n", "range at line 1"),
    ("x\n", "number at line 1"),
    ("1 2 3 4 5\n", "count at line 1"),
    ("2 3 1\n", "count at line 2"),
    ("", "count at line 1"),
    ("# none\n\n", "count at line 3"),
    ("0 1 2 3", "range at line 1"),
    ("1 2\n3\n2\n", "repeated at line 3"),
    ("1 2\r\n3 5\r\n", "range at line 2"),
    ("1 2 3 4\n1\n", "count at line 2"),
    ("1 2 3 4\nx\n", "number at line 2"),
    ("18446744073709551617 1 2 3", "number at line 1"),
    ("4294967297 1 2 3", "range at line 1"),
    ("1 2 3 # 4", "number at line 1"),
    ("-1 2 3 4", "number at line 1"),
];

#[test]
fn refused_permutation_files(rt: HostRuntime) -> Result<(), Fail> {
    let alloc = rt.alloc();
    for (text, said) in REFUSED_PERMS {
        let refusal = read_perm(alloc, text.as_bytes(), 4).err().ok_or(*text)?;
        assert_eq!(rt; format!(in alloc; "{refusal}")?.as_str(), *said, "{text}");
    }
    Ok(())
}
