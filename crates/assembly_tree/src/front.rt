//! The tree of fronts of an assembly tree.

ghost use Rattle.std.specs.Prelude.{◌≡◌, ◌≤◌, ◌+◌, ◌*◌, ℕ, All, length, map, slice_index, if◌then◌else◌, IfOk};
ghost use Rattle.std.specs.List.{range_with_len};
ghost use Rattle.limits.specs.Limits.{most_order};
ghost use Rattle.assembly_tree.specs.Assembly.{super_at, front_of};
ghost use Rattle.assembly_tree.specs.Fronts.{kept_entries, share_of, front_node, nodes_of_fronts};

use crate::NoMemory;
use crate::assembly::{Assembly, Super};
use std::alloc::Global;
use trees::{Node, Tree};

/// Which entries of a front and of a contribution block are kept.
#[derive(Clone, Copy, Debug, PartialEq, Eq)]
pub enum Shape {
    /// Those of the lower triangle, of a symmetric matrix.
    Triangle,
    /// All of them.
    Square,
}

// How many entries a matrix of an order has.
fn size(shape: Shape, order: u32) -> u64
    requires { order ≤ most_order }
    ensures value { result ≡ kept_entries shape order }
    ensures small { result ≤ most_order * order }
{
    let order = u64::from(order);
    match shape {
        Shape::Triangle => order * (order + 1) / 2,
        Shape::Square => order * order,
    }
}

// Raises the share of each parent to the greatest block of its children.
fn raise_shares(shares: &mut [u64], supers: &[Super], shape: Shape)
    requires len { length shares.old ≡ length supers.now + 1 }
    requires none { (s : ℕ) → slice_index shares.old s ≡ 0 }
    requires parents { All (λ x. x.parent ≤ length supers.now) supers.now }
    requires fits { All (λ x. front_of x ≤ most_order) supers.now }
    ensures { (s : ℕ) → s ≤ length supers.now → slice_index shares.new s ≡ share_of shape supers.now s }
{
    for supernode in supers {
        let p = supernode.parent as usize;
        shares[p] = shares[p].max(size(shape, supernode.rest));
    }
}

// The share of each front, with a place for 0.
fn shares_of(
    alloc: Global,
    supers: &[Super],
    shape: Shape,
    inplace: bool,
) -> Result<Vec<u64>, NoMemory>
    requires few { length supers.now ≤ most_order }
    requires parents { All (λ x. x.parent ≤ length supers.now) supers.now }
    requires fits { All (λ x. front_of x ≤ most_order) supers.now }
    ensures len { IfOk result (λ shares. length shares.items ≡ length supers.now + 1) }
    ensures shares { IfOk result (λ shares. (s : ℕ) → s ≤ length supers.now →
        slice_index shares.items s ≡ (if inplace then share_of shape supers.now s else 0)) }
{
    let mut shares: Vec<u64> = vec![in alloc; 0; supers.len() + 1]?;
    if inplace {
        raise_shares(&mut shares, supers, shape);
    }
    Ok(shares)
}

// The front of a supernode, and its contribution block.
fn node(supernode: Super, shape: Shape, share: u64) -> Node
    requires { front_of supernode ≤ most_order }
    ensures { result ≡ front_node shape share supernode }
{
    let out = size(shape, supernode.rest);
    Node {
        parent: supernode.parent,
        out,
        extra: size(shape, supernode.columns + supernode.rest) - out,
        share,
        time: u64::from(supernode.columns),
    }
}

fn nodes_of(
    alloc: Global,
    supers: &[Super],
    shape: Shape,
    shares: &[u64],
) -> Result<Vec<Node>, NoMemory>
    requires len { length shares.now ≡ length supers.now + 1 }
    requires fits { All (λ x. front_of x ≤ most_order) supers.now }
    ensures { IfOk result (λ nodes. nodes.items ≡
        map (λ s. front_node shape (slice_index shares.now s) (super_at supers.now s)) (range_with_len 1 (length supers.now))) }
{
    let mut nodes: Vec<Node> = Vec::with_capacity(alloc, supers.len())?;
    for i in 0..supers.len() {
        nodes.push(node(supers[i], shape, shares[i + 1]))?;
    }
    Ok(nodes)
}

/// The tree of the fronts of an assembly tree. The out of a front is its contribution block, its extra the rest of the front, and its
/// time the number of columns that it eliminates. With in-place assembly a front is built over the greatest block of its children,
/// which is its share; without, no front has a share.
///
/// Sizes are numbers of entries: of the order r, r (r + 1) / 2 in a triangle and r × r in a square. Liu 1992; Duff and Reid 1983.
pub fn fronts(
    alloc: Global,
    assembly: &Assembly,
    shape: Shape,
    inplace: bool,
) -> Result<Tree, NoMemory>
    ensures { IfOk result (λ tree. tree ≡ nodes_of_fronts shape inplace assembly.now.supers) }
{
    let supers = assembly.supers();
    let shares = shares_of(alloc, supers, shape, inplace)?;
    let nodes = nodes_of(alloc, supers, shape, &shares)?;
    Ok(Tree::new(nodes))
}
