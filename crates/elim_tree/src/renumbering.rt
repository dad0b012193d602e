ghost use Rattle.std.specs.Prelude.{◌≡◌, ℕ, ◌+◌, ◌≤◌, Bool, length, map, IfOk};
ghost use Rattle.std.specs.List.{range_with_len};
ghost use Rattle.limits.specs.Limits.{most_order};
ghost use Rattle.patterns.specs.Pattern.{is_joined};
ghost use Rattle.ordering.specs.Fill.{IsAdjacency, parents_of, renumbered};
ghost use Rattle.permutations.specs.Perm.{vertex_at, place_of};
ghost use Rattle.elim_tree.specs.Paths.{IsWithin};
ghost use Rattle.elim_tree.specs.Postorders.{IsPostorder, IsPostordered, IsNumberedInPostorder};
ghost use Rattle.elim_tree.specs.Trees.{parent_at};

use crate::NoMemory;
use crate::laws::reordering;
use crate::parents::Parents;
use crate::postordering::postorder;
use crate::tree::etree;
use patterns::Pattern;
use permutations::Perm;
use permutations::laws::places_are_inverse;
use std::alloc::Global;

/// An order of elimination, and the elimination tree of its columns.
#[derive(Drop)]
pub struct Numbered {
    /// The vertices, in the order in which they are eliminated.
    pub perm: Perm,
    /// The parents of the columns in this order.
    pub parents: Parents,
}

// The vertices by their new places.
fn vertices_along(alloc: Global, perm: &Perm, post: &Perm) -> Result<Vec<u32>, NoMemory>
    requires len { length perm.now ≡ length post.now }
    requires few { length post.now ≤ most_order }
    ensures { IfOk result
        (λ table. table.items ≡ map (λ k. vertex_at perm.now (vertex_at post.now k)) (range_with_len 0 (length post.now + 1))) }
{
    (0..post.len() + 1)
        .map(|k| perm.at(post.at(k)))
        .collect(alloc)
}

// The new places of the vertices.
fn places_along(alloc: Global, perm: &Perm, post: &Perm) -> Result<Vec<u32>, NoMemory>
    requires len { length perm.now ≡ length post.now }
    requires few { length post.now ≤ most_order }
    ensures { IfOk result
        (λ table. table.items ≡ map (λ v. place_of post.now (place_of perm.now v)) (range_with_len 0 (length post.now + 1))) }
{
    (0..post.len() + 1)
        .map(|v| post.place(perm.place(v)))
        .collect(alloc)
}

// The parents by the new numbers.
fn parents_along(alloc: Global, parents: &Parents, post: &Perm) -> Result<Vec<u32>, NoMemory>
    requires { length parents.now ≡ length post.now }
    ensures { IfOk result
        (λ table. table.items
        ≡ map (λ k. place_of post.now (parent_at parents.now (vertex_at post.now k))) (range_with_len 0 (length post.now + 1))) }
{
    (0..parents.len() + 1)
        .map(|k| post.place(parents.at(post.at(k))))
        .collect(alloc)
}

// The order along another order of its columns.
fn order_along(alloc: Global, perm: &Perm, post: &Perm) -> Result<Perm, NoMemory>
    requires len { length perm.now ≡ length post.now }
    requires few { length post.now ≤ most_order }
    ensures { IfOk result (λ order. order ≡ map (vertex_at perm.now) post.now) }
{
    places_are_inverse();
    perm.keeps();
    post.keeps();
    let vertices = vertices_along(alloc, perm, post)?;
    let places = places_along(alloc, perm, post)?;
    Ok(Perm::from_tables(vertices, places))
}

// The elimination tree along the postorder of its columns.
fn tree_along(alloc: Global, parents: &Parents, post: &Perm) -> Result<Parents, NoMemory>
    requires { IsPostorder parents.now post.now }
    ensures parents { IfOk result (λ tree. tree ≡ map (λ j. place_of post.now (parent_at parents.now j)) post.now) }
    ensures in_postorder { IfOk result IsNumberedInPostorder }
{
    places_are_inverse();
    parents.keeps();
    let table = parents_along(alloc, parents, post)?;
    Ok(Parents { table })
}

/// The order of elimination along the postorder of its elimination tree, with the parents carried over. These are numbered in postorder,
/// and they are the elimination tree of the new order, for each pattern whose tree in the old order the given ones are. Linear. Liu 1990.
pub fn renumber(
    alloc: Global,
    perm: &Perm,
    parents: &Parents,
    post: &Perm,
) -> Result<Numbered, NoMemory>
    requires len { length perm.now ≡ length parents.now }
    requires post { IsPostorder parents.now post.now }
    ensures order { IfOk result (λ numbered. numbered.perm ≡ map (vertex_at perm.now) post.now) }
    ensures parents { IfOk result (λ numbered. numbered.parents ≡ map (λ j. place_of post.now (parent_at parents.now j)) post.now) }
    ensures in_postorder { IfOk result (λ numbered. IsNumberedInPostorder numbered.parents) }
    // the parents are the elimination tree of the new order
    ensures tree { IfOk result (λ numbered. (joined : ℕ → ℕ → Bool) → IsAdjacency joined → IsWithin (length parents.now) joined →
        parents.now ≡ parents_of (renumbered joined perm.now) (length parents.now) →
        numbered.parents ≡ parents_of (renumbered joined numbered.perm) (length parents.now)) }
{
    reordering();
    parents.keeps();
    let perm = order_along(alloc, perm, post)?;
    let parents = tree_along(alloc, parents, post)?;
    Ok(Numbered { perm, parents })
}

/// The order of elimination along the postorder of its elimination tree, and the elimination tree of this new order, numbered in postorder.
/// Nothing else fills in than in the old order (`laws::reordering`). Near linear in the entries: `etree`, `postorder`, `renumber`.
/// Liu 1990.
pub fn postordered_etree(
    alloc: Global,
    pattern: &Pattern,
    perm: &Perm,
) -> Result<Numbered, NoMemory>
    requires { length perm.now ≡ length pattern.now }
    ensures len { IfOk result (λ numbered. length numbered.perm ≡ length pattern.now) }
    ensures order { IfOk result (λ numbered. IsPostordered (is_joined pattern.now) perm.now numbered.perm) }
    ensures tree { IfOk result (λ numbered.
        numbered.parents ≡ parents_of (renumbered (is_joined pattern.now) numbered.perm) (length numbered.perm)) }
    ensures in_postorder { IfOk result (λ numbered. IsNumberedInPostorder numbered.parents) }
{
    pattern.keeps();
    let parents = etree(alloc, pattern, perm)?;
    let post = postorder(alloc, &parents)?;
    renumber(alloc, perm, &parents, &post)
}
