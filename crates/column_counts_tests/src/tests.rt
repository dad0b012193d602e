//! Counts worked by hand, and a plain elimination beside them.

ghost use Rattle.std.specs.Prelude.{◌≡◌, length, IfOk};

use column_counts::{counts, counts_by_marking};
use elim_tree::{Numbered, postordered_etree};
use matrix_files::{read_pattern, read_perm};
use mp_text::Report;
use patterns::Pattern;
use permutations::Perm;
use std::alloc::Global;
use std::collections::BTreeSet;
use std::process::Abort;
use std::test::Fail;

const BANNER: &str = "%%MatrixMarket matrix coordinate pattern symmetric";

fn line_of(alloc: Global, counts: &[u32]) -> Result<Report, Fail> {
    let mut line = Report::new(alloc);
    for count in counts {
        line.num(u64::from(*count))?;
    }
    Ok(line)
}

// The pairs that a pattern joins, both ways.
fn pairs_of(alloc: Global, pattern: &Pattern) -> Result<BTreeSet<(u32, u32)>, Fail> {
    let mut joined = BTreeSet::new(alloc);
    for vertex in 1..=pattern.rows() {
        for neighbour in pattern.neighbours(vertex) {
            joined.insert((vertex, *neighbour))?;
        }
    }
    Ok(joined)
}

// A vertex, and those after it that it is joined to.
fn structure_of(
    alloc: Global,
    joined: &BTreeSet<(u32, u32)>,
    vertex: u32,
    later: &[u32],
) -> Result<Vec<u32>, Fail> {
    let mut structure = vec![in alloc; vertex]?;
    for other in later {
        if joined.contains(&(vertex, *other)) {
            structure.push(*other)?;
        }
    }
    Ok(structure)
}

fn join_all(joined: &mut BTreeSet<(u32, u32)>, vertices: &[u32]) -> Result<(), Fail> {
    for a in vertices {
        for b in vertices {
            if a != b {
                joined.insert((*a, *b))?;
            }
        }
    }
    Ok(())
}

// The counts as a line, the plain way: one vertex after another joins those after it that it is joined to, and counts them and itself.
fn counts_by_elimination(alloc: Global, pattern: &Pattern, perm: &Perm) -> Result<Report, Fail> {
    let order: Vec<u32> = (0..perm.len()).map(|k| perm.at(k + 1)).collect(alloc)?;
    let mut joined = pairs_of(alloc, pattern)?;
    let mut line = Report::new(alloc);
    for (j, vertex) in order.iter().enumerate() {
        let structure = structure_of(alloc, &joined, *vertex, &order[j + 1..])?;
        join_all(&mut joined, &structure)?;
        line.num(structure.len() as u64)?;
    }
    Ok(line)
}

// A pattern and an order of its vertices. The matrix is what stands below the banner.
fn read(rt: &impl Abort, alloc: Global, matrix: &str, order: &str) -> Result<(Pattern, Perm), Fail>
    ensures { IfOk result (λ r. length r.1 ≡ length r.0) }
{
    let file = format!(in alloc; "{BANNER}\n{matrix}")?;
    let pattern = read_pattern(alloc, file.into_bytes())?;
    let perm = read_perm(alloc, order.as_bytes(), pattern.rows())?;
    assert_eq!(rt; perm.len(), pattern.rows());
    Ok((pattern, perm))
}

// The order along the postorder, and the counts by it, both ways, which agree.
fn counts_both_ways(
    rt: &impl Abort,
    alloc: Global,
    pattern: &Pattern,
    perm: &Perm,
) -> Result<(Perm, Vec<u32>), Fail>
    requires { length perm.now ≡ length pattern.now }
{
    let Numbered { perm, parents } = postordered_etree(alloc, pattern, perm)?;
    let found = counts(alloc, pattern, &perm, &parents)?;
    let marked = counts_by_marking(alloc, pattern, &perm, &parents)?;
    assert_eq!(rt; found.as_slice(), marked.as_slice());
    Ok((perm, found))
}

// The counts along the postorder, as a line, which is that of the plain elimination.
fn counts_of(rt: &impl Abort, alloc: Global, matrix: &str, order: &str) -> Result<Report, Fail> {
    let (pattern, perm) = read(rt, alloc, matrix, order)?;
    let (perm, found) = counts_both_ways(rt, alloc, &pattern, &perm)?;
    let line = line_of(alloc, &found)?;
    let plain = counts_by_elimination(alloc, &pattern, &perm)?;
    assert_eq!(rt; line.bytes(), plain.bytes());
    Ok(line)
}

// The size and the entries of a matrix, an order, and the counts along the postorder.
#[rattlefmt::skip]
const ROWS: [(&str, &str, &str); 8] = [
    // the arrow, two pairs twice, the grid of 2 by 2, and no pairs
    ("4 4 3\n2 1\n3 1\n4 1", "1 2 3 4", "4 3 2 1"),
    ("4 4 3\n2 1\n3 1\n4 1", "2 3 1 4", "2 2 2 1"),
    ("4 4 2\n2 1\n4 3", "1 2 3 4", "2 1 2 1"),
    ("4 4 2\n3 1\n4 2", "1 2 3 4", "2 1 2 1"),
    ("4 4 4\n2 1\n3 1\n4 2\n4 3", "1 2 3 4", "3 3 2 1"),
    ("4 4 0", "1 2 3 4", "1 1 1 1"),
    // the ways up from 1 and 2 meet in 3, below row 5; those from 4 go through it
    ("5 5 6\n3 1\n3 2\n4 3\n5 1\n5 2\n5 4", "1 2 3 4 5", "3 3 3 2 1"),
    // row 6 has the leaves 1, 2 and 4, whose ways up meet in 3 and in 5; its entry 3 is no leaf
    ("6 6 8\n3 1\n3 2\n5 3\n5 4\n6 1\n6 2\n6 3\n6 4", "1 2 3 4 5 6", "3 3 3 3 2 1"),
];

#[test]
fn worked_counts(rt: HostRuntime) -> Result<(), Fail> {
    for (matrix, order, wanted) in ROWS {
        let found = counts_of(&rt, rt.alloc(), matrix, order)?;
        assert_eq!(rt; found.bytes(), wanted.as_bytes(), "at {matrix:?}");
    }
    Ok(())
}

#[test]
fn counts_of_all_patterns_of_five_vertices(rt: HostRuntime) -> Result<(), Fail> {
    let alloc = rt.alloc();
    for pattern in 0..1024u32 {
        let mut matrix = format!(in alloc; "5 5 {}", pattern.count_ones())?;
        let mut rest = pattern;
        for column in 1..=5u32 {
            for row in column + 1..=5 {
                if rest % 2 == 1 {
                    matrix.push_str(format!(in alloc; "\n{row} {column}")?.as_str())?;
                }
                rest /= 2;
            }
        }
        counts_of(&rt, alloc, &matrix, "1 2 3 4 5")?;
    }
    Ok(())
}
