//! Laws of front trees: what holds of each, without a call.

ghost use Rattle.std.specs.Prelude.{◌≡◌, ℕ, List, length};
ghost use Rattle.patterns.specs.Pattern.{IsPattern};
ghost use Rattle.trees.specs.declared.node.Node.{Node};
ghost use Rattle.trees.specs.Tree.{IsTree};
ghost use Rattle.assembly_tree.specs.Assembly.{AssemblyTree, IsAssembly};
ghost use Rattle.symbolic.specs.FrontTree.{IsAnalysis, IsFrontTree};
ghost use Rattle.symbolic.specs.declared.options.FrontOptions.{FrontOptions};

use assembly_tree::laws as assembly_laws;
use elim_tree::laws as tree_laws;

/// A matrix that is eliminated in an order has one analysis, whose supernodes are an assembly tree.
pub fn one_analysis()
    ensures order { (rows : List (List ℕ)) (order one two : List ℕ) (first second : AssemblyTree) → IsPattern rows →
        length order ≡ length rows → IsAnalysis rows order one first → IsAnalysis rows order two second → one ≡ two }
    ensures supernodes { (rows : List (List ℕ)) (order one two : List ℕ) (first second : AssemblyTree) → IsPattern rows →
        length order ≡ length rows → IsAnalysis rows order one first → IsAnalysis rows order two second → first ≡ second }
    ensures len { (rows : List (List ℕ)) (order perm : List ℕ) (assembly : AssemblyTree) →
        length order ≡ length rows → IsAnalysis rows order perm assembly → length perm ≡ length rows }
    ensures tree { (rows : List (List ℕ)) (order perm : List ℕ) (assembly : AssemblyTree) → IsPattern rows →
        length order ≡ length rows → IsAnalysis rows order perm assembly → IsAssembly assembly }
{
    tree_laws::tree_is_forest();
    tree_laws::one_postorder();
    tree_laws::renumbered_pattern();
    assembly_laws::counts_of_fill();
    assembly_laws::one_list_of_supernodes();
    assembly_laws::supernodes_are_assembly();
}

/// A matrix that is eliminated in an order has one tree of fronts.
pub fn one_front_tree()
    ensures { (options : FrontOptions) (rows : List (List ℕ)) (order : List ℕ) (one two : List Node) → IsPattern rows →
        length order ≡ length rows → IsFrontTree options rows order one → IsFrontTree options rows order two → one ≡ two }
{
    tree_laws::tree_is_forest();
    tree_laws::one_postorder();
    assembly_laws::one_list_of_supernodes();
}

/// A tree of fronts is a tree within the limits, with shares that fit.
pub fn front_tree_is_tree()
    ensures { (options : FrontOptions) (rows : List (List ℕ)) (order : List ℕ) (nodes : List Node) → IsPattern rows →
        length order ≡ length rows → IsFrontTree options rows order nodes → IsTree nodes }
{
    tree_laws::tree_is_forest();
    tree_laws::renumbered_pattern();
    assembly_laws::counts_of_fill();
    assembly_laws::supernodes_are_assembly();
    assembly_laws::amalgamation_is_assembly();
    assembly_laws::fronts_are_tree();
}
