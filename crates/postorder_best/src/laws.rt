//! Laws of postorders: what holds of each, without a call.

ghost use Rattle.std.specs.Prelude.{◌≡◌, ◌≤◌, ℕ, List, length};
ghost use Rattle.mp_system.specs.Memory.{peak_of};
ghost use Rattle.trees.specs.declared.node.Node.{Node};
ghost use Rattle.trees.specs.Tree.{IsNode, IsTree, system_of_nodes};
ghost use Rattle.postorder_best.specs.Postorder.{IsTreePostorder};
ghost use Rattle.postorder_best.specs.BestPostorder.{IsBestAt, IsBestPostorder, Listed};

use trees::laws as tree_laws;

/// A tree has one best postorder at most.
pub fn one_best_postorder()
    ensures { (nodes : List Node) (one two : List ℕ) → IsTree nodes → IsBestPostorder nodes one → IsBestPostorder nodes two → one ≡ two }
{}

/// The peak of a subtree in the best rows is the peak of its replay where it runs alone, as the rows list it.
pub fn subtree_alone()
    ensures { (nodes : List Node) (peak : ℕ → ℕ) (row : ℕ → List ℕ) (x : ℕ) (order : List ℕ) → IsTree nodes →
        ((v : ℕ) → v ≤ length nodes → IsBestAt nodes peak row v) → IsNode nodes x → Listed row x order →
        peak x ≡ peak_of (system_of_nodes nodes) order }
{
    tree_laws::tree_system();
}

/// The best postorder of a tree is one of its postorders, and none has a lower peak. Liu 1986.
pub fn best_is_least()
    ensures postorder { (nodes : List Node) (order : List ℕ) → IsTree nodes → IsBestPostorder nodes order → IsTreePostorder nodes order }
    ensures least { (nodes : List Node) (order other : List ℕ) → IsTree nodes → IsBestPostorder nodes order → IsTreePostorder nodes other →
        peak_of (system_of_nodes nodes) order ≤ peak_of (system_of_nodes nodes) other }
{
    tree_laws::tree_system();
}
