//! Laws of assembly trees: what holds of each, without a call.

ghost use Rattle.std.specs.Prelude.{◌≡◌, ℕ, Bool, List};
ghost use Rattle.ordering.specs.Fill.{IsAdjacency, parents_of, counts_of};
ghost use Rattle.trees.specs.Tree.{IsTree};
ghost use Rattle.elim_tree.specs.Paths.{IsWithin};
ghost use Rattle.elim_tree.specs.Trees.{IsForest};
ghost use Rattle.assembly_tree.specs.declared.front.Shape.{Shape};
ghost use Rattle.assembly_tree.specs.Assembly.{AssemblyTree, IsAssembly};
ghost use Rattle.assembly_tree.specs.Supernodes.{AreColumnCounts, AreSupernodes};
ghost use Rattle.assembly_tree.specs.Amalgamation.{amalgamated};
ghost use Rattle.assembly_tree.specs.Relaxation.{IsRelaxed};
ghost use Rattle.assembly_tree.specs.Fronts.{nodes_of_fronts};

use elim_tree::laws as tree_laws;
use ordering::laws as fill_laws;

/// The counts of the fill meet what supernodes ask of counts.
pub fn counts_of_fill()
    ensures { (joined : ℕ → ℕ → Bool) (n : ℕ) → IsAdjacency joined → IsWithin n joined →
        AreColumnCounts (parents_of joined n) (counts_of joined n) }
{
    fill_laws::parent_is_first();
    tree_laws::structure_by_children();
    tree_laws::no_earlier_row();
}

/// There is one list of fundamental supernodes.
pub fn one_list_of_supernodes()
    ensures { (parents counts : List ℕ) (one two : AssemblyTree) → AreSupernodes parents counts one →
        AreSupernodes parents counts two → one ≡ two }
{}

/// The fundamental supernodes are an assembly tree.
pub fn supernodes_are_assembly()
    ensures { (parents counts : List ℕ) (assembly : AssemblyTree) → IsForest parents → AreColumnCounts parents counts →
        AreSupernodes parents counts assembly → IsAssembly assembly }
{}

/// An amalgamated assembly tree is one.
pub fn amalgamation_is_assembly()
    ensures { (zeros : ℕ) (assembly : AssemblyTree) → IsAssembly assembly → IsAssembly (amalgamated zeros assembly) }
{}

/// What amalgamation yields, without its visits: each supernode goes into its parent or stays, by what both have with those that went into
/// them before; those that stay are numbered in their old order, and each column is in the one in which its supernode stands in the end.
pub fn amalgamation_is_relaxed()
    ensures { (zeros : ℕ) (assembly : AssemblyTree) → IsAssembly assembly → IsRelaxed zeros assembly (amalgamated zeros assembly) }
{}

/// The fronts of an assembly tree are a tree within the limits, with shares that fit.
pub fn fronts_are_tree()
    ensures { (shape : Shape) (inplace : Bool) (assembly : AssemblyTree) → IsAssembly assembly →
        IsTree (nodes_of_fronts shape inplace assembly.supers) }
{}
