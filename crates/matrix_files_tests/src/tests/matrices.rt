//! Matrix files worked by hand, and what they are refused with.

use matrix_files::read_pattern;
use patterns::Pattern;
use std::process::Abort;
use std::test::Fail;

const STAR: [&[u32]; 4] = [&[2, 3, 4], &[1], &[1], &[1]];

fn check_rows(rt: &impl Abort, pattern: &Pattern, rows: &[&[u32]]) {
    assert_eq!(rt; pattern.rows() as usize, rows.len());
    for (i, row) in rows.iter().enumerate() {
        assert_eq!(rt; pattern.neighbours(i as u32 + 1), *row);
    }
}

const READ: &[(&str, &[&[u32]])] = &[
    (
        "%%MatrixMarket matrix coordinate pattern symmetric\n4 4 3\n2 1\n3 1\n4 1\n",
        &STAR,
    ),
    // the same as a general matrix: comments, blank lines, diagonal entries, repeats, both triangles, values that are no numbers
    (
        "%%MatrixMarket MATRIX Coordinate Real General\r\n% arrow\r\n\r\n4 4 8\r\n1 1 1e400\r\n1 2 1.0\r\n\
        2 1 1.0\r\n1 3 x\r\n3 3 -2\r\n 4\t1 7\r\n1 2 5.5\r\n4 4 0",
        &STAR,
    ),
    (
        "%%MatrixMarket matrix coordinate pattern skew-symmetric\n1 1 1\n1 1\n",
        &[&[]],
    ),
    (
        "%%MatrixMarket matrix coordinate pattern general\n2 2 0\n",
        &[&[], &[]],
    ),
    (
        "%%matrixmarket Matrix COORDINATE Complex Hermitian of 1996\n%\n3 3 2\n3 1 0 -1\n\n% x\n1 2 i j\n\n",
        &[&[2, 3], &[1], &[1]],
    ),
    (
        "%%MatrixMarket matrix coordinate unsigned-integer general\n002 2 1\n1 2 #",
        &[&[2], &[1]],
    ),
];

#[test]
fn reads(rt: HostRuntime) -> Result<(), Fail> {
    let alloc = rt.alloc();
    for (text, wanted) in READ {
        let bytes = Vec::from_slice(alloc, text.as_bytes())?;
        check_rows(&rt, &read_pattern(alloc, bytes)?, wanted);
    }
    Ok(())
}

// How a text begins, how it goes on, and the words of its refusal.
const REFUSED: [(&str, &[(&str, &str)]); 5] = [
    (
        "",
        &[
            ("", "banner at line 1"),
            (
                "\n%%MatrixMarket matrix coordinate pattern general\n1 1 0\n",
                "banner at line 1",
            ),
            (
                "% a\n%%MatrixMarket matrix coordinate pattern general\n1 1 0\n",
                "banner at line 1",
            ),
            (
                "%MatrixMarket matrix coordinate pattern general\n1 1 0\n",
                "banner at line 1",
            ),
            (
                "%%MatrixMarket vector array real general\n",
                "not-matrix at line 1",
            ),
        ],
    ),
    (
        "%%MatrixMarket matrix ",
        &[
            ("elemental pattern general\n1 1 0\n", "banner at line 1"),
            ("array real general\n", "array-format at line 1"),
        ],
    ),
    (
        "%%MatrixMarket matrix coordinate ",
        &[
            ("pattern\n1 1 0\n", "banner at line 1"),
            ("quaternion general\n", "field at line 1"),
            ("pattern Symmetrical\n", "symmetry at line 1"),
            ("pattern symmetric", "size-line at line 2"),
            ("complex symmetric\n4 4 3\n2 1 1\n", "entry at line 3"),
            ("real symmetric\n4 4 3\n2 -1 1\n", "entry at line 3"),
        ],
    ),
    (
        "%%MatrixMarket matrix coordinate pattern symmetric\n",
        &[
            ("", "size-line at line 2"),
            ("% a\n4 4\n", "size-line at line 3"),
            ("4 4 3 1\n", "size-line at line 2"),
            ("4 4 x\n", "size-line at line 2"),
            ("# 4 4 3\n", "size-line at line 2"),
            ("0 0 0\n", "size-line at line 2"),
            ("1000001 4 10000001\n", "not-square at line 2"),
            ("4 4 3\n2\n", "entry at line 3"),
            ("4 4 3\n2 1 1\n", "entry at line 3"),
            ("4 4 3\n0 1\n", "index at line 3"),
            ("4 4 3\n1 5\n", "index at line 3"),
            ("4 4 3\n", "too-few at line 3"),
            ("4 4 3\n2 1\n", "too-few at line 4"),
            ("4 4 3\n2 1\n3 1\n", "too-few at line 5"),
            ("4 4 4\n2 1\n3 1\n4 1\n", "too-few at line 6"),
            ("4 4 1\n2 1\n\nx\n", "too-many at line 5"),
            ("4 4 0\n2 1\n", "too-many at line 3"),
        ],
    ),
    (
        "%%MatrixMarket matrix coordinate pattern general\n",
        &[
            ("1 2 0\n", "not-square at line 2"),
            ("2 2 1\n", "too-few at line 3"),
            ("1000001 1000001 0\n", "limit order"),
            ("1000001 1000001 10000001\n", "limit order"),
            ("1000000 1000000 10000001\n", "limit entries"),
        ],
    ),
];

#[test]
fn refuses(rt: HostRuntime) -> Result<(), Fail> {
    let alloc = rt.alloc();
    for (start, rows) in REFUSED {
        for (rest, said) in rows {
            let text = format!(in alloc; "{start}{rest}")?;
            let bytes = Vec::from_slice(alloc, text.as_bytes())?;
            let refusal = read_pattern(alloc, bytes).err().ok_or(*rest)?;
            assert_eq!(rt; format!(in alloc; "{refusal}")?.as_str(), *said, "{text}");
        }
    }
    Ok(())
}
