//! The fundamental supernodes of an elimination tree.

ghost use Rattle.std.specs.Prelude.{◌≡◌, ◌≤◌, ◌<◌, ◌+◌, ◌↔◌, length, map, All, IfOk, IsTrue};
ghost use Rattle.permutations.specs.Perm.{IsVertex};
ghost use Rattle.elim_tree.specs.Trees.{IsForest};
ghost use Rattle.assembly_tree.specs.Assembly.{super_of, reparented};
ghost use Rattle.assembly_tree.specs.Supernodes.{count_at, AreColumnCounts, AreSupernodes, Continues};
ghost use Rattle.assembly_tree.specs.RunTables.{AreFirstChildren, AreRuns};

use crate::NoMemory;
use crate::assembly::{Assembly, Super, super_in};
use elim_tree::Parents;
use std::alloc::Global;

// The least child of each column. Children are written from the greatest on, so that the least stays.
fn first_children(alloc: Global, parents: &Parents) -> Result<Vec<u32>, NoMemory>
    ensures forest { IsForest parents.now }
    ensures least { IfOk result (λ children. AreFirstChildren parents.now children.items 0) }
{
    let n = parents.len();
    let mut children: Vec<u32> = vec![in alloc; 0; n as usize + 1]?;
    for i in 0..n {
        let child = n - i;
        children[parents.at(child) as usize] = child;
    }
    Ok(children)
}

// Whether column j has one row more than the column after it.
fn has_one_row_more(counts: &[u32], j: u32) -> bool
    requires { (1 ≤ j) × (j < length counts.now) }
    ensures { IsTrue result ↔ (count_at counts.now j ≡ count_at counts.now (j + 1) + 1) }
{
    u64::from(counts[j as usize - 1]) == u64::from(counts[j as usize]) + 1
}

// Whether the column after j goes on with the supernode of j.
fn goes_on(parents: &Parents, counts: &[u32], children: &[u32], j: u32) -> bool
    requires forest { IsForest parents.now }
    requires counts { AreColumnCounts parents.now counts.now }
    requires children { AreFirstChildren parents.now children.now 0 }
    requires column { IsVertex (length parents.now) j }
    ensures { IsTrue result ↔ Continues parents.now counts.now j }
{
    let next = parents.at(j);
    next == j + 1 && children[next as usize] == j && has_one_row_more(counts, j)
}

// The supernodes with the columns of their parents, and the supernode of each column.
#[derive(Drop)]
struct Runs {
    supers: Vec<Super>,
    nodes: Vec<u32>,
}

fn cut(alloc: Global, parents: &Parents, counts: &[u32], children: &[u32]) -> Result<Runs, NoMemory>
    requires forest { IsForest parents.now }
    requires counts { AreColumnCounts parents.now counts.now }
    requires children { AreFirstChildren parents.now children.now 0 }
    ensures { IfOk result (λ runs. AreRuns parents.now counts.now runs.supers.items runs.nodes.items 0 (length parents.now)) }
{
    let mut supers: Vec<Super> = Vec::new(alloc);
    let mut nodes: Vec<u32> = Vec::with_capacity(alloc, counts.len())?;
    let mut columns = 0;
    for i in 0..counts.len() {
        let j = i as u32 + 1;
        columns += 1;
        nodes.push(supers.len() as u32 + 1)?;
        if !goes_on(parents, counts, children, j) {
            supers.push(Super {
                columns,
                rest: counts[i] - 1,
                parent: parents.at(j),
            })?;
            columns = 0;
        }
    }
    Ok(Runs { supers, nodes })
}

// Puts the number of each parent in place of its column.
fn name_parents(supers: &mut [Super], nodes: &[u32])
    requires { All (λ x. x.parent ≤ length nodes.now) supers.old }
    ensures { supers.new ≡ map (reparented (super_of nodes.now)) supers.old }
{
    for supernode in supers.iter_mut() {
        supernode.parent = super_in(nodes, supernode.parent);
    }
}

/// The fundamental supernodes of a factor, by its elimination tree and the counts of its columns: the longest runs of columns in which
/// each column but the first has the one before it as its only child, and one row less. Linear in the columns.
///
/// A caller tests by `are_counts` what this asks of counts; those of a fill meet it (`laws::counts_of_fill`). Meant for columns that are
/// numbered in postorder, where no supernode can be longer. Liu, Ng and Peyton 1993.
pub fn supernodes(alloc: Global, parents: &Parents, counts: &[u32]) -> Result<Assembly, NoMemory>
    requires { AreColumnCounts parents.now counts.now }
    ensures { IfOk result (λ assembly. AreSupernodes parents.now counts.now assembly) }
{
    let children = first_children(alloc, parents)?;
    let Runs { mut supers, nodes } = cut(alloc, parents, counts, &children)?;
    name_parents(&mut supers, &nodes);
    Ok(Assembly::of(supers, nodes))
}
