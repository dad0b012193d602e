//! Laws of trees: what holds of each, without a call.

ghost use Rattle.std.specs.Prelude.{◌≡◌, ◌+◌, ◌-◌, ◌≤◌, ℕ, All, List, length, IsPermutation};
ghost use Rattle.std.specs.List.{range_with_len};
ghost use Rattle.mp_system.specs.System.{IsSystem, inputs_of, outputs_of, need_of};
ghost use Rattle.mp_system.specs.Renaming.{IsRenamed};
ghost use Rattle.sp_terms.specs.SystemOfTerm.{system_of_term};
ghost use Rattle.sp_terms.specs.Values.{IsTerms, term_of};
ghost use Rattle.trees.specs.declared.node.Node.{Node};
ghost use Rattle.trees.specs.Tree.{IsNode, IsTree, LeadsToRoot, ancestor, node_at, children_out, system_of_nodes};
ghost use Rattle.trees.specs.Forest.{Forest, IsForestOf, all_numbers};
ghost use Rattle.trees.specs.TreeTerm.{forest_positions};

use sp_terms::laws as term_laws;

/// Where each parent is a node or 0, a node leads to a root exactly where some number of steps leads above a root.
pub fn root_law()
    ensures some { (nodes : List Node) (v : ℕ) → LeadsToRoot nodes v → (k : ℕ) × (ancestor nodes k v ≡ 0) }
    ensures steps { (nodes : List Node) (v k : ℕ) → All (λ node. node.parent ≤ length nodes) nodes → IsNode nodes v →
        ancestor nodes k v ≡ 0 → LeadsToRoot nodes v }
{}

/// The system of a tree is within the limits of systems. A task consumes what its children leave, produces the out of its node, and
/// needs its extra and its out, less its share.
pub fn tree_system()
    ensures system { (nodes : List Node) → IsTree nodes → IsSystem (system_of_nodes nodes) }
    ensures inputs { (nodes : List Node) (v : ℕ) → IsNode nodes v → inputs_of (system_of_nodes nodes) v ≡ children_out nodes v }
    ensures outputs { (nodes : List Node) (v : ℕ) → IsNode nodes v → outputs_of (system_of_nodes nodes) v ≡ (node_at nodes v).out }
    ensures need { (nodes : List Node) (v : ℕ) → IsNode nodes v →
        need_of (system_of_nodes nodes) v ≡ (node_at nodes v).extra + (node_at nodes v).out - (node_at nodes v).share }
{}

/// The nodes of a tree form one forest, and each of them stands in it once.
pub fn forest_law()
    ensures some { (nodes : List Node) → IsTree nodes → (f : Forest) × IsForestOf nodes f }
    ensures one { (nodes : List Node) (f g : Forest) → IsForestOf nodes f → IsForestOf nodes g → f ≡ g }
    ensures each { (nodes : List Node) (f : Forest) → IsTree nodes → IsForestOf nodes f →
        IsPermutation (all_numbers f) (range_with_len 1 (length nodes)) }
{}

/// The term of a tree is within the limits of terms. Its system is the tree's, under the names of the nodes in postorder.
pub fn tree_term()
    ensures terms { (nodes : List Node) (f : Forest) → IsTree nodes → IsForestOf nodes f → IsTerms (forest_positions nodes f) }
    ensures system { (nodes : List Node) (f : Forest) → IsTree nodes → IsForestOf nodes f →
        IsRenamed (all_numbers f) (system_of_term (term_of (forest_positions nodes f))) (system_of_nodes nodes) }
{
    term_laws::terms_law();
}
