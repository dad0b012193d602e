//! Trees and postorders worked by hand, and a plain elimination beside them.

ghost use Rattle.std.specs.Prelude.{◌≡◌, length, IfOk};

use elim_tree::{Numbered, Parents, etree, postorder, postordered_etree, renumber};
use matrix_files::{read_pattern, read_perm};
use mp_text::{Report, Token};
use patterns::Pattern;
use permutations::Perm;
use std::alloc::Global;
use std::collections::BTreeSet;
use std::process::Abort;
use std::test::Fail;

// A pattern of four vertices, by its pairs, and an order of them; the parents of the columns, their postorder, the order along it, and the
// parents in that order.
#[derive(Clone, Copy)]
struct Row {
    pairs: &'static [(u32, u32)],
    order: [u32; 4],
    parents: [u32; 4],
    post: [u32; 4],
    perm: [u32; 4],
    carried: [u32; 4],
}

// Pairs, an order, and the parents of the columns, which are numbered in postorder already.
const IN_POSTORDER: [(&[(u32, u32)], [u32; 4], [u32; 4]); 6] = [
    // the arrow, whose tree is a chain; and with its middle third
    (&[(1, 2), (1, 3), (1, 4)], [1, 2, 3, 4], [2, 3, 4, 0]),
    (&[(1, 2), (1, 3), (1, 4)], [2, 3, 1, 4], [3, 3, 4, 0]),
    // two pairs that stand together
    (&[(1, 2), (3, 4)], [1, 2, 3, 4], [2, 0, 4, 0]),
    // column 4 has the children 1 and 3
    (&[(1, 4), (2, 3), (3, 4)], [1, 2, 3, 4], [4, 3, 4, 0]),
    // the grid of 2 by 2
    (
        &[(1, 2), (1, 3), (2, 4), (3, 4)],
        [1, 2, 3, 4],
        [2, 3, 4, 0],
    ),
    // roots alone
    (&[], [4, 3, 2, 1], [0, 0, 0, 0]),
];

// Two pairs that come to stand together, and two by falling numbers.
const RENUMBERED: [Row; 2] = [
    Row {
        pairs: &[(1, 3), (2, 4)],
        order: [1, 2, 3, 4],
        parents: [3, 4, 0, 0],
        post: [1, 3, 2, 4],
        perm: [1, 3, 2, 4],
        carried: [2, 0, 4, 0],
    },
    Row {
        pairs: &[(1, 4), (2, 3)],
        order: [4, 3, 2, 1],
        parents: [4, 3, 0, 0],
        post: [2, 3, 1, 4],
        perm: [3, 2, 4, 1],
        carried: [2, 0, 4, 0],
    },
];

const BANNER: [&str; 5] = [
    "%%MatrixMarket",
    "matrix",
    "coordinate",
    "pattern",
    "symmetric",
];

// The pattern of four vertices that joins these pairs.
fn pattern_of(alloc: Global, pairs: &[(u32, u32)]) -> Result<Pattern, Fail> {
    let mut text = Report::new(alloc);
    text.line(&BANNER.map(Token::Word))?;
    text.line(&[
        Token::Number(4),
        Token::Number(4),
        Token::Number(pairs.len() as u64),
    ])?;
    for (a, b) in pairs {
        text.line(&[Token::Number((*b).into()), Token::Number((*a).into())])?;
    }
    Ok(read_pattern(alloc, Vec::from_slice(alloc, text.bytes())?)?)
}

fn order_of(alloc: Global, order: [u32; 4]) -> Result<Perm, Fail> {
    let mut text = Report::new(alloc);
    text.line(&order.map(|vertex| Token::Number(vertex.into())))?;
    Ok(read_perm(alloc, text.bytes(), 4)?)
}

// The parents, the plain way: one vertex after another joins those after it that it is joined to, and the first of them is its parent.
fn parents_by_elimination(
    alloc: Global,
    pairs: &[(u32, u32)],
    order: [u32; 4],
) -> Result<[u32; 4], Fail> {
    let mut joined = BTreeSet::new(alloc);
    for (a, b) in pairs {
        joined.insert((*a, *b))?;
        joined.insert((*b, *a))?;
    }
    let mut parents = [0; 4];
    for j in 0..4usize {
        for i in (j + 1..4).rev() {
            if !joined.contains(&(order[j], order[i])) {
                continue;
            }
            parents[j] = i as u32 + 1;
            for k in j + 1..4 {
                if k != i && joined.contains(&(order[j], order[k])) {
                    joined.insert((order[i], order[k]))?;
                }
            }
        }
    }
    Ok(parents)
}

// The four vertices, in their order.
fn vertices(perm: &Perm) -> [u32; 4]
    requires { length perm.now ≡ 4 }
{
    [perm.at(1), perm.at(2), perm.at(3), perm.at(4)]
}

fn parents_in(tree: &Parents) -> [u32; 4]
    requires { length tree.now ≡ 4 }
{
    [tree.at(1), tree.at(2), tree.at(3), tree.at(4)]
}

// The order, and the elimination tree along it, which is that of the plain elimination.
fn tree_of(
    rt: &impl Abort,
    alloc: Global,
    pairs: &[(u32, u32)],
    order: [u32; 4],
) -> Result<(Perm, Parents), Fail>
    ensures { IfOk result (λ r. (length r.0 ≡ 4) × (length r.1 ≡ 4)) }
{
    let pattern = pattern_of(alloc, pairs)?;
    let perm = order_of(alloc, order)?;
    assert_eq!(rt; pattern.rows(), 4);
    assert_eq!(rt; perm.len(), 4);
    let tree = etree(alloc, &pattern, &perm)?;
    assert_eq!(rt; tree.len(), 4);
    assert_eq!(rt; tree.at(0), 0);
    let plain = parents_by_elimination(alloc, pairs, order)?;
    assert_eq!(rt; parents_in(&tree), plain);
    Ok((perm, tree))
}

#[test]
fn parents_of_all_patterns_of_four_vertices(rt: HostRuntime) -> Result<(), Fail> {
    let alloc = rt.alloc();
    for order in [[1, 2, 3, 4], [2, 3, 1, 4]] {
        for pattern in 0..64u32 {
            let mut rest = pattern;
            let mut pairs = Vec::new(alloc);
            for pair in [(1, 2), (1, 3), (1, 4), (2, 3), (2, 4), (3, 4)] {
                if rest % 2 == 1 {
                    pairs.push(pair)?;
                }
                rest /= 2;
            }
            tree_of(&rt, alloc, &pairs, order)?;
        }
    }
    Ok(())
}

fn check_row(rt: &impl Abort, alloc: Global, row: Row) -> Result<(), Fail> {
    let (perm, tree) = tree_of(rt, alloc, row.pairs, row.order)?;
    assert_eq!(rt; parents_in(&tree), row.parents);
    let post = postorder(alloc, &tree)?;
    assert_eq!(rt; post.len(), 4);
    assert_eq!(rt; vertices(&post), row.post);
    let numbered = renumber(alloc, &perm, &tree, &post)?;
    assert_eq!(rt; numbered.perm.len(), 4);
    assert_eq!(rt; vertices(&numbered.perm), row.perm);
    assert_eq!(rt; numbered.parents.len(), 4);
    assert_eq!(rt; parents_in(&numbered.parents), row.carried);
    Ok(())
}

#[test]
fn trees_by_hand_and_their_postorders(rt: HostRuntime) -> Result<(), Fail> {
    for row in RENUMBERED {
        check_row(&rt, rt.alloc(), row)?;
    }
    for (pairs, order, parents) in IN_POSTORDER {
        let row = Row {
            pairs,
            order,
            parents,
            post: [1, 2, 3, 4],
            perm: order,
            carried: parents,
        };
        check_row(&rt, rt.alloc(), row)?;
    }
    Ok(())
}

// Column 4 has the children 2 and 3, and 3 the child 1, which comes after 2.
#[test]
fn an_order_along_the_postorder(rt: HostRuntime) -> Result<(), Fail> {
    let alloc = rt.alloc();
    let pattern = pattern_of(alloc, &[(1, 2), (1, 3), (2, 4)])?;
    let perm = order_of(alloc, [4, 3, 2, 1])?;
    assert_eq!(rt; perm.len(), pattern.rows());
    let Numbered { perm, parents } = postordered_etree(alloc, &pattern, &perm)?;
    assert_eq!(rt; perm.len(), 4);
    assert_eq!(rt; vertices(&perm), [3, 4, 2, 1]);
    assert_eq!(rt; parents.len(), 4);
    assert_eq!(rt; parents_in(&parents), [4, 3, 4, 0]);
    Ok(())
}
