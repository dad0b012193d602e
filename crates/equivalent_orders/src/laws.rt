//! Laws of orders of elimination: which of them have the same fill and the same elimination tree.

ghost use Rattle.std.specs.Prelude.{◌≡◌, ◌↔◌, ℕ, Bool, List, Option, All, length, map};
ghost use Rattle.std.specs.List.{range_with_len};
ghost use Rattle.mp_system.specs.Traversal.{IsTraversal};
ghost use Rattle.patterns.specs.Pattern.{IsPattern, is_joined};
ghost use Rattle.permutations.specs.Order.{order_given};
ghost use Rattle.permutations.specs.Perm.{IsPerm, IsVertex, place_of};
ghost use Rattle.ordering.specs.Fill.{IsAdjacency};
ghost use Rattle.elim_tree.specs.Paths.{IsWithin};
ghost use Rattle.elim_tree.specs.Postorders.{IsPostordered};
ghost use Rattle.trees.specs.Tree.{system_of_nodes};
ghost use Rattle.assembly_tree.specs.declared.assembly.Super.{Super};
ghost use Rattle.assembly_tree.specs.declared.front.Shape.{Shape};
ghost use Rattle.assembly_tree.specs.Assembly.{AssemblyTree, IsAssembly, IsSuper};
ghost use Rattle.assembly_tree.specs.Fronts.{nodes_of_fronts};
ghost use Rattle.symbolic.specs.FrontTree.{IsAnalysis, relaxed};
ghost use Rattle.equivalent_orders.specs.Arrays.{columns_along, number_from};
ghost use Rattle.equivalent_orders.specs.Orders.{IsTopological, is_in_column, parent_vertex, column_count};
ghost use Rattle.equivalent_orders.specs.Fronts.{IsFrontOrder, front_of_vertex, vertices_along};
ghost use Rattle.equivalent_orders.specs.FrontPostorders.{IsFrontPostorder, StandTogether, fronts_along};

use assembly_tree::laws as assembly_laws;
use elim_tree::laws as tree_laws;
use symbolic::laws as front_laws;

/// Vertices that are eliminated in another order, each of them before its parent in the elimination tree, give the same factor: the column
/// of each vertex has the same rows, and so as many, and its parent is the same. Liu 1990.
pub fn topological_orders()
    ensures columns { (joined : ℕ → ℕ → Bool) (old new : List ℕ) → IsAdjacency joined → IsWithin (length old) joined →
        IsPerm (length old) old → IsTopological joined old new → (u v : ℕ) → IsVertex (length old) u → IsVertex (length old) v →
        is_in_column joined new u v ≡ is_in_column joined old u v }
    ensures parents { (joined : ℕ → ℕ → Bool) (old new : List ℕ) → IsAdjacency joined → IsWithin (length old) joined →
        IsPerm (length old) old → IsTopological joined old new → (v : ℕ) → IsVertex (length old) v →
        parent_vertex joined new v ≡ parent_vertex joined old v }
    ensures counts { (joined : ℕ → ℕ → Bool) (old new : List ℕ) → IsAdjacency joined → IsWithin (length old) joined →
        IsPerm (length old) old → IsTopological joined old new → (v : ℕ) → IsVertex (length old) v →
        column_count joined new v ≡ column_count joined old v }
{}

/// Such orders are those of their own trees: one such order has the same ones as the other. A postorder of the tree gives one.
pub fn topological_order_of_another()
    ensures on { (joined : ℕ → ℕ → Bool) (old mid new : List ℕ) → IsAdjacency joined → IsWithin (length old) joined →
        IsPerm (length old) old → IsTopological joined old mid → IsTopological joined mid new → IsTopological joined old new }
    ensures postorder { (joined : ℕ → ℕ → Bool) (old new : List ℕ) → IsAdjacency joined → IsWithin (length old) joined →
        IsPerm (length old) old → IsPostordered joined old new → IsTopological joined old new }
{}

/// The columns of the fronts of a matrix, one front after another, in whatever order of the fronts has each before its parent, are an order
/// in which each vertex comes before its parent: they have the fill of the order of elimination that the fronts come from. Liu 1992.
pub fn columns_of_fronts()
    ensures { (rows : List (List ℕ)) (order perm fronts : List ℕ) (assembly : AssemblyTree) (zeros : Option ℕ) → IsPattern rows →
        IsPerm (length rows) order → IsAnalysis rows order perm assembly → IsFrontOrder (relaxed zeros assembly).supers fronts →
        IsTopological (is_joined rows) order (vertices_along perm (relaxed zeros assembly) fronts) }
{
    tree_laws::pattern_of_rows();
    front_laws::one_analysis();
    assembly_laws::amalgamation_is_assembly();
    assembly_laws::amalgamation_is_relaxed();
}

/// Such an order has the same fundamental supernodes, and so the same fronts: two vertices share one in the analysis of the new order
/// exactly where they do in that of the old one. Merged supernodes may differ, since what is merged depends on the order of siblings.
/// Liu, Ng and Peyton 1993.
pub fn same_fronts()
    ensures { (rows : List (List ℕ)) (old new one two : List ℕ) (first second : AssemblyTree) → IsPattern rows →
        IsPerm (length rows) old → IsTopological (is_joined rows) old new → IsAnalysis rows old one first → IsAnalysis rows new two second →
        (u v : ℕ) → IsVertex (length rows) u → IsVertex (length rows) v →
        (front_of_vertex one first u ≡ front_of_vertex one first v) ↔ (front_of_vertex two second u ≡ front_of_vertex two second v) }
{
    tree_laws::pattern_of_rows();
    tree_laws::tree_is_forest();
    front_laws::one_analysis();
}

/// Fronts in a postorder of their tree, none merged, give an order of elimination that is its own natural postorder: a solver that
/// postorders the elimination tree of this order, children by rising number, keeps it. Its analysis has the same fronts, each with as many
/// columns and rows, and with the same parent, numbered in that postorder: so the solver makes them in just that order. Liu 1986, 1990.
pub fn fronts_in_postorder()
    ensures kept { (rows : List (List ℕ)) (order perm fronts : List ℕ) (assembly : AssemblyTree) → IsPattern rows →
        IsPerm (length rows) order → IsAnalysis rows order perm assembly → IsFrontPostorder assembly.supers fronts →
        IsPostordered (is_joined rows) (vertices_along perm assembly fronts) (vertices_along perm assembly fronts) }
    ensures own { (rows : List (List ℕ)) (order perm fronts : List ℕ) (assembly : AssemblyTree) → IsPattern rows →
        IsPerm (length rows) order → IsAnalysis rows order perm assembly → IsFrontPostorder assembly.supers fronts →
        IsAnalysis rows (vertices_along perm assembly fronts) (vertices_along perm assembly fronts) (fronts_along assembly fronts) }
    ensures in_turn { (rows : List (List ℕ)) (order perm fronts : List ℕ) (assembly : AssemblyTree) → IsPattern rows →
        IsPerm (length rows) order → IsAnalysis rows order perm assembly → IsFrontPostorder assembly.supers fronts →
        (v : ℕ) → IsVertex (length rows) v →
        front_of_vertex (vertices_along perm assembly fronts) (fronts_along assembly fronts) v
        ≡ place_of fronts (front_of_vertex perm assembly v) }
{
    tree_laws::pattern_of_rows();
    tree_laws::tree_is_forest();
    front_laws::one_analysis();
}

/// An order of the fronts with each before its parent is such a postorder where the fronts of each subtree are some of it in a row.
pub fn subtrees_in_a_row()
    ensures { (supers : List Super) (fronts : List ℕ) → IsFrontOrder supers fronts →
        ((s : ℕ) → IsSuper supers s → StandTogether supers fronts s) → IsFrontPostorder supers fronts }
{}

/// The order along the postorder of an elimination tree is its own: its analysis is the same, with the same supernodes by the same numbers.
pub fn own_analysis()
    ensures { (rows : List (List ℕ)) (order perm : List ℕ) (assembly : AssemblyTree) → IsPattern rows → length order ≡ length rows →
        IsAnalysis rows order perm assembly → IsAnalysis rows perm perm assembly }
{
    tree_laws::pattern_of_rows();
    tree_laws::tree_is_forest();
    front_laws::one_analysis();
}

/// The traversals of the fronts of an assembly tree, taken as tasks, are the orders in which each front comes before its parent.
pub fn front_orders()
    ensures { (shape : Shape) (inplace : Bool) (assembly : AssemblyTree) (fronts : List ℕ) → IsAssembly assembly →
        IsTraversal (system_of_nodes (nodes_of_fronts shape inplace assembly.supers)) fronts ↔ IsFrontOrder assembly.supers fronts }
{}

/// The fronts by rising number are such an order, and without merged fronts their columns are the order of elimination that the analysis
/// numbers them in.
pub fn own_fronts()
    ensures order { (assembly : AssemblyTree) → IsAssembly assembly →
        IsFrontOrder assembly.supers (range_with_len 1 (length assembly.supers)) }
    ensures columns { (rows : List (List ℕ)) (order perm : List ℕ) (assembly : AssemblyTree) → IsPattern rows →
        length order ≡ length rows → IsAnalysis rows order perm assembly →
        vertices_along perm assembly (range_with_len 1 (length assembly.supers)) ≡ perm }
{}

/// Arrays of the columns of an assembly tree and of their fronts, where the columns count from a base, tell the order along the fronts.
pub fn columns_in_arrays()
    ensures along { (base : ℕ) (perm fronts : List ℕ) (assembly : AssemblyTree) → IsPerm (length perm) perm →
        length perm ≡ length assembly.nodes →
        columns_along base (map (number_from base) perm) (map (front_of_vertex perm assembly) (range_with_len 1 (length perm))) fronts
        ≡ map (number_from base) (vertices_along perm assembly fronts) }
    // numbers that count from a base are those of the vertices
    ensures counted { (base n : ℕ) (vertices : List ℕ) → All (IsVertex n) vertices →
        order_given base (map (number_from base) vertices) ≡ vertices }
{}
