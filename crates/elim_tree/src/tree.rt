//! The elimination tree, by compressed ways to the roots.

ghost use Rattle.std.specs.Prelude.{◌≡◌, ℕ, ◌+◌, ◌<◌, ◌≤◌, true, List, length, slice_index, IfOk};
ghost use Rattle.std.specs.List.Sorted.{IsStrictlyIncreasing};
ghost use Rattle.limits.specs.Limits.{most_order};
ghost use Rattle.patterns.specs.Pattern.{is_joined};
ghost use Rattle.ordering.specs.Fill.{renumbered, parents_of};
ghost use Rattle.permutations.specs.Perm.{place_of};
ghost use Rattle.elim_tree.specs.Forests.{Rooted, CanLink, IsLinked, CanTake, IsTaken, IsInTurn};
ghost use Rattle.elim_tree.specs.Reaches.{IsFirstReached};

use crate::NoMemory;
use crate::parents::Parents;
use ordering::laws::parent_is_first;
use patterns::Pattern;
use permutations::Perm;
use permutations::laws::places_are_inverse;
use std::alloc::Global;

// Goes from `start` to the root of its tree, and puts that root under k. Whoever is passed gets k for its ancestor, so that later ways
// are short.
fn link(parents: &mut [u32], ancestors: &mut [u32], start: u32, k: u32)
    requires room { (k < length parents.old) × (length ancestors.old ≡ length parents.old) }
    requires start { (forest : Rooted) × CanLink forest k start parents.old ancestors.old }
    ensures { (forest : Rooted) → CanLink forest k start parents.old ancestors.old → IsLinked forest k start parents.new ancestors.new }
{
    let mut column = start;
    'way: loop {
        let next = ancestors[column as usize];
        if next == k {
            return;
        }
        ancestors[column as usize] = k;
        if next == 0 {
            parents[column as usize] = k;
            return;
        }
        column = next;
    }
}

// Puts the trees of the earlier columns of a row under k.
fn take_row(parents: &mut [u32], ancestors: &mut [u32], row: &[u32], perm: &Perm, k: u32)
    requires room { (k < length parents.old) × (length ancestors.old ≡ length parents.old) }
    requires vertices { (j : ℕ) → j < length row.now → slice_index row.now j ≤ length perm.now }
    requires start { (forest : Rooted) × CanTake forest k row.now perm.now parents.old ancestors.old }
    ensures { (forest : Rooted) → CanTake forest k row.now perm.now parents.old ancestors.old →
        IsTaken forest k row.now perm.now (length row.now) parents.new ancestors.new }
{
    for vertex in row {
        let column = perm.place(*vertex);
        if column < k {
            link(parents, ancestors, column, k);
        }
    }
}

// The same where each vertex is its own column: then the earlier columns are the head of the row, and no place is looked up.
fn take_head(parents: &mut [u32], ancestors: &mut [u32], row: &[u32], k: u32)
    requires room { (k < length parents.old) × (length ancestors.old ≡ length parents.old) }
    requires rising { IsStrictlyIncreasing row.now }
    requires start { (forest : Rooted) × (order : List ℕ) × IsInTurn row.now order
        × CanTake forest k row.now order parents.old ancestors.old }
    ensures { (forest : Rooted) → (order : List ℕ) → IsInTurn row.now order → CanTake forest k row.now order parents.old ancestors.old →
        IsTaken forest k row.now order (length row.now) parents.new ancestors.new }
{
    for column in row {
        if k <= *column {
            return;
        }
        link(parents, ancestors, *column, k);
    }
}

// Whether each vertex is its own column: then the order is 1, 2, .., n.
fn is_in_turn(perm: &Perm) -> bool
    requires { length perm.now ≤ most_order }
    ensures { result ≡ true → (v : ℕ) → v ≤ length perm.now → place_of perm.now v ≡ v }
{
    for v in 0..perm.len() + 1 {
        if perm.place(v) != v {
            return false;
        }
    }
    true
}

// Lets each column in turn take its children.
fn grow(parents: &mut [u32], ancestors: &mut [u32], pattern: &Pattern, perm: &Perm)
    requires room { (length parents.old ≡ length perm.now + 1) × (length ancestors.old ≡ length perm.now + 1) }
    requires clear { (x : ℕ) → (slice_index parents.old x ≡ 0) × (slice_index ancestors.old x ≡ 0) }
    requires len { length perm.now ≡ length pattern.now }
    ensures len { length parents.new ≡ length parents.old }
    ensures firsts { (j : ℕ) → j ≤ length perm.now
        → IsFirstReached (renumbered (is_joined pattern.now) perm.now) j (slice_index parents.new j) }
{
    places_are_inverse();
    perm.keeps();
    pattern.keeps();
    let in_turn = is_in_turn(perm);
    for k in 1..pattern.rows() + 1 {
        let row = pattern.neighbours(perm.at(k));
        if in_turn {
            take_head(parents, ancestors, row, k);
        } else {
            take_row(parents, ancestors, row, perm, k);
        }
    }
}

/// The elimination tree of a pattern whose vertices are eliminated in this order: the parents of all columns. Liu 1986 and 1990, by
/// compressed ways to the roots: near linear in the entries. In the order 1, 2, .., n no place of a vertex is looked up.
pub fn etree(alloc: Global, pattern: &Pattern, perm: &Perm) -> Result<Parents, NoMemory>
    requires { length perm.now ≡ length pattern.now }
    ensures { IfOk result (λ parents. parents ≡ parents_of (renumbered (is_joined pattern.now) perm.now) (length perm.now)) }
{
    parent_is_first();
    let places = pattern.rows() as usize + 1;
    let mut table = vec![in alloc; 0u32; places]?;
    let mut ancestors = vec![in alloc; 0u32; places]?;
    grow(&mut table, &mut ancestors, pattern, perm);
    Ok(Parents { table })
}
