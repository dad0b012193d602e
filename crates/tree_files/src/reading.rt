ghost use Rattle.std.specs.Prelude.{◌≡◌, IfOk, IfErr, OnOk, MatchResult};
ghost use Rattle.mp_text.specs.declared.layout.Layout.TheVariants.{Commented};
ghost use Rattle.mp_text.specs.Ahead.{rows_of_bytes};
ghost use Rattle.trees.specs.Tree.{IsTree};
ghost use Rattle.tree_files.specs.TreeFile.{ReadsTree, IsTreeRefusal};
ghost use Rattle.tree_files.specs.Stated.{AreStated};
ghost use Rattle.file_frame.specs.Frame.{line_stating};

use crate::kind::TreeKind;
use crate::reader::TreeReader;
use mp_text::{Layout, Lines, Refusal, fault, read_with};
use std::alloc::Global;
use trees::{Node, Tree, TreeFault, first_fault};

fn read_nodes(alloc: Global, bytes: &[u8]) -> Result<Vec<Node>, Refusal<TreeKind>>
    ensures stated { IfOk result (λ nodes. AreStated bytes.now nodes.items) }
    ensures refused { IfErr result (IsTreeRefusal bytes.now) }
{
    let reader = read_with(bytes, Layout::Commented, TreeReader::new(alloc))?;
    let TreeReader { nodes, .. } = reader;
    Ok(nodes)
}

// The number of the line that states a node. It goes over the lines again, which only a refusal needs.
fn line_of(bytes: &[u8], node: u32) -> u64
    ensures { result ≡ line_stating (rows_of_bytes Commented bytes.now) node }
{
    let mut lines = Lines::new(bytes, Layout::Commented);
    // the header, the line with the count, and the nodes before this one
    for _before in 0..u64::from(node) + 1 {
        let _ = lines.next_line();
    }
    match lines.next_line() {
        Some(line) => line.number,
        None => 0,
    }
}

// Judges the nodes that the lines state; the fault names the line that states the node.
fn judge(alloc: Global, bytes: &[u8], nodes: &[Node]) -> Result<(), Refusal<TreeKind>>
    requires { AreStated bytes.now nodes.now }
    ensures tree { OnOk result (IsTree nodes.now) }
    ensures refused { IfErr result (IsTreeRefusal bytes.now) }
{
    match first_fault(alloc, nodes)? {
        Some(TreeFault::Cycle(node)) => Err(fault(line_of(bytes, node), TreeKind::Cycle)),
        Some(TreeFault::Share(node)) => Err(fault(line_of(bytes, node), TreeKind::Share)),
        None => Ok(()),
    }
}

/// The tree that a file of version 1 or 2 states, or why it is refused: the first test that fails in the first line that fails;
/// after all lines, the lowest node whose parents lead to no root, then the lowest whose share does not fit.
pub fn read_tree(alloc: Global, bytes: &[u8]) -> Result<Tree, Refusal<TreeKind>>
    ensures { MatchResult result (λ tree. ReadsTree bytes.now tree) (IsTreeRefusal bytes.now) }
{
    let nodes = read_nodes(alloc, bytes)?;
    judge(alloc, bytes, &nodes)?;
    Ok(Tree::new(nodes))
}
