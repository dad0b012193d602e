//! The term of a tree.

ghost use Rattle.std.specs.Prelude.{◌≡◌, ◌≤◌, ◌<◌, ◌++◌, ◌^◌, All, IfOk, OnOk, length};
ghost use Rattle.limits.specs.Limits.{most_tasks};
ghost use Rattle.mp_system.specs.Renaming.{IsRenamed};
ghost use Rattle.sp_terms.specs.SystemOfTerm.{system_of_term};
ghost use Rattle.sp_terms.specs.Values.{term_of};
ghost use Rattle.trees.specs.Tree.{IsNode, system_of_nodes};
ghost use Rattle.trees.specs.Forest.{AreChildren, Forest, IsForestOf, all_numbers, children_of};
ghost use Rattle.trees.specs.TreeTerm.{forest_positions, beside_positions};
ghost use Rattle.trees.specs.Children.{positions_of};

use crate::children::child_rows;
use crate::node::Node;
use crate::postorder::postorder;
use crate::tree::Tree;
use crate::{NoMemory, laws};
use row_table::{NumberList, RowTable};
use sp_terms::{Position, TermList};
use std::alloc::Global;

/// Numbers of nodes: the first is what task 1 is called, and so on.
pub type Names = NumberList;

/// The term of a tree, and which node each of its tasks is.
#[derive(Drop)]
pub struct Named {
    pub terms: TermList,
    /// The node that task 1 is, then the one that task 2 is, and so on.
    pub names: Names,
}

// Sets so many terms side by side.
fn push_beside(found: &mut Vec<Position>, count: usize) -> Result<(), NoMemory>
    requires { count < 2 ^ 32 }
    ensures { OnOk result (found.new.items ≡ found.old.items ++ beside_positions count) }
{
    if count == 0 {
        found.push(Position::Hold(0))?;
    } else if count > 1 {
        found.push(Position::Par(count as u32))?;
    }
    Ok(())
}

// The positions of the nodes in postorder.
fn positions(
    alloc: Global,
    nodes: &[Node],
    names: &[u32],
    children: &RowTable,
) -> Result<Vec<Position>, NoMemory>
    requires few { length nodes.now ≤ most_tasks }
    requires names { All (IsNode nodes.now) names.now }
    requires children { AreChildren nodes.now children.now }
    ensures { IfOk result (λ found. found.items ≡
        positions_of nodes.now names.now ++ beside_positions (length (children_of nodes.now 0))) }
{
    let mut found: Vec<Position> = Vec::new(alloc);
    for v in names {
        let node = nodes[*v as usize - 1];
        push_beside(&mut found, children.row(*v).len())?;
        found.push(Position::Hold(node.out))?;
        found.push(Position::Task {
            extra: node.extra,
            share: node.share,
            time: node.time,
        })?;
    }
    push_beside(&mut found, children.row(0).len())?;
    Ok(found)
}

/// The term of a tree: its nodes in postorder, roots and children in rising number. Each node is the terms of its children side by side,
/// or `data 0` where it has none, then its block as `data`, then its task; several roots stand side by side at the end. Linear.
pub fn terms_of_tree(alloc: Global, tree: &Tree) -> Result<Named, NoMemory>
    // the positions and the names are those of the tree's forest
    ensures positions { IfOk result (λ named. (f : Forest) → IsForestOf tree.now f →
        (named.terms ≡ forest_positions tree.now f) × (named.names ≡ all_numbers f)) }
    // the term's system, with its tasks renamed, is the tree's
    ensures system { IfOk result (λ named.
        IsRenamed named.names (system_of_term (term_of named.terms)) (system_of_nodes tree.now)) }
{
    laws::forest_law();
    laws::tree_term();
    let nodes = tree.nodes();
    let children = child_rows(alloc, nodes)?;
    let names = postorder(alloc, &children)?;
    let positions = positions(alloc, nodes, &names, &children)?;
    Ok(Named {
        terms: TermList::new(positions),
        names: Names::new(names),
    })
}
