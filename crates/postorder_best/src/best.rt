ghost use Rattle.std.specs.Prelude.{◌≡◌, ◌≤◌, ℕ, List, IfOk, OnOk};
ghost use Rattle.mp_system.specs.Memory.{peak_of};
ghost use Rattle.trees.specs.Tree.{IsTree, system_of_nodes};
ghost use Rattle.postorder_best.specs.Postorder.{IsTreePostorder};
ghost use Rattle.postorder_best.specs.BestPostorder.{IsBestPostorder, ListedAll};
ghost use Rattle.row_table.specs.Rows.{row_at};
ghost use Rattle.postorder_best.specs.Rows.{AreRows, IsBest};

use crate::NoMemory;
use crate::peaks::fill_peaks;
use crate::tables::{needs_table, outs_table};
use crate::walking::listing;
use row_table::RowTable;
use std::alloc::Global;
use trees::{Node, Tree, child_rows, laws};

/// A postorder of a tree: the numbers of its nodes, from 1, and the peak of their replay.
#[derive(Drop)]
pub struct Post {
    pub order: Vec<u32>,
    pub peak: u64,
}

// Puts each row of children in the best order, and gives the peak of the whole. A row is sorted once those of its children are: their
// peaks are known then.
fn sort_rows(alloc: Global, nodes: &[Node], rows: &mut RowTable) -> Result<u64, NoMemory>
    requires tree { IsTree nodes.now }
    requires rows { AreRows nodes.now rows.old }
    ensures rows { OnOk result (AreRows nodes.now rows.new) }
    ensures best { IfOk result (λ peak. (order : List ℕ) → ListedAll (row_at rows.new) (row_at rows.new 0) order →
        IsBest nodes.now order peak) }
{
    laws::tree_system();
    let outs = outs_table(alloc, nodes)?;
    let needs = needs_table(alloc, nodes)?;
    let mut upward = listing(alloc, rows)?;
    upward.push(0)?;
    let mut peaks: Vec<u64> = vec![in alloc; 0; rows.len()]?;
    fill_peaks(alloc, rows, &upward, &mut peaks, &outs, &needs)?;
    Ok(peaks[0])
}

/// The best postorder of a tree: children and roots by falling subtree peak minus subtree out, a tie to the lower number. Liu 1986.
/// Near linear: each row of children is sorted once.
pub fn best_postorder(alloc: Global, tree: &Tree) -> Result<Post, NoMemory>
    // the order is the best postorder of the definition
    ensures best { IfOk result (λ post. IsBestPostorder tree.now post.order.items) }
    // it is a traversal of the tree's system in which the tasks of every subtree stand together
    ensures postorder { IfOk result (λ post. IsTreePostorder tree.now post.order.items) }
    // its peak is that of its replay
    ensures peak { IfOk result (λ post. post.peak ≡ peak_of (system_of_nodes tree.now) post.order.items) }
    // no postorder has a lower one
    ensures least { IfOk result (λ post. (other : List ℕ) → IsTreePostorder tree.now other →
        post.peak ≤ peak_of (system_of_nodes tree.now) other) }
{
    let nodes = tree.nodes();
    let mut rows = child_rows(alloc, nodes)?;
    let peak = sort_rows(alloc, nodes, &mut rows)?;
    let order = listing(alloc, &rows)?;
    Ok(Post { order, peak })
}
