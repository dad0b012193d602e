//! Laws of the calls: what holds of their answers, without a call.

ghost use Rattle.std.specs.Prelude.{◌≡◌, ◌≢◌, ◌<◌, ◌≤◌, ◌↔◌, ℕ, List, None, length, map};
ghost use Rattle.mp_system.specs.Traversal.{IsTraversal};
ghost use Rattle.patterns.specs.Pattern.{is_joined};
ghost use Rattle.permutations.specs.Perm.{IsVertex, place_of};
ghost use Rattle.trees.specs.declared.node.Node.{Node};
ghost use Rattle.trees.specs.Tree.{IsTree, system_of_nodes};
ghost use Rattle.elim_tree.specs.Postorders.{IsPostordered};
ghost use Rattle.assembly_tree.specs.Assembly.{AssemblyTree};
ghost use Rattle.symbolic.specs.FrontTree.{IsAnalysis, relaxed};
ghost use Rattle.symbolic.specs.declared.options.FrontOptions.{FrontOptions};
ghost use Rattle.equivalent_orders.specs.Arrays.{columns_along, number_from};
ghost use Rattle.equivalent_orders.specs.FrontPostorders.{fronts_along};
ghost use Rattle.equivalent_orders.specs.Fronts.{front_of_vertex, vertices_along};
ghost use Rattle.equivalent_orders.specs.Orders.{IsTopological, is_in_column};
ghost use Rattle.postorder_best.specs.Postorder.{IsTreePostorder};
ghost use Rattle.plans.specs.Plan.{PlanValue, IsPlan};
ghost use Rattle.c_calls.specs.declared.faults.Fault.{Fault};
ghost use Rattle.c_calls.specs.declared.kinds.TheConstants.{CLAIM_ROOM};
ghost use Rattle.c_calls.specs.Answers.{IsCertificate};
ghost use Rattle.c_calls.specs.Faults.{IsRefusedFor};
ghost use Rattle.c_calls.specs.Columns.{new_order};
ghost use Rattle.c_calls.specs.Fronts.{AreAnalysed, GivenMatrix};
ghost use Rattle.c_calls.specs.Refusals.{IsCertifyRefusal, most_claims};

use assembly_tree::laws::{amalgamation_is_assembly, amalgamation_is_relaxed};
use elim_tree::laws::pattern_of_rows;
use equivalent_orders::laws as order_laws;
use symbolic::laws::one_analysis;
use trees::laws::forest_law;

/// A certificate has at most `most_claims` claims. So `certify_tree` is never refused for want of room for claims where there is
/// room for as many; a call that is refused so tells that number, and with room for as many as it tells the same call is not.
pub fn room_for_claims()
    ensures most { (nodes : List Node) (plan : PlanValue) → IsTree nodes → IsPlan plan → IsCertificate nodes plan →
        length plan.claims ≤ most_claims (length nodes) }
    ensures told { (nodes : List Node) (places room status : ℕ) (fault : Fault) →
        IsRefusedFor (IsCertifyRefusal nodes places room) status fault → fault.kind ≡ CLAIM_ROOM →
        (room < most_claims (length nodes)) × (fault.value ≡ most_claims (length nodes)) }
    ensures enough { (nodes : List Node) (places room status : ℕ) (fault : Fault) → most_claims (length nodes) ≤ room →
        IsRefusedFor (IsCertifyRefusal nodes places room) status fault → fault.kind ≢ CLAIM_ROOM }
    ensures again { (nodes : List Node) (places room status second : ℕ) (fault other : Fault) →
        IsRefusedFor (IsCertifyRefusal nodes places room) status fault → fault.kind ≡ CLAIM_ROOM →
        IsRefusedFor (IsCertifyRefusal nodes places fault.value) second other → other.kind ≢ CLAIM_ROOM }
{
    forest_law();
}

/// The columns of an analysis, one front after another, are the vertices along the fronts. Where the order of the fronts is a traversal of
/// their tree, as `plan_tree` and `best_postorder` give it, each column comes before its parent in the elimination tree of the order of
/// elimination that was analysed: so each column of the factor has the same rows, and two columns share a front in the analysis of the new
/// order exactly where they did before any were merged. Where none were merged, and the fronts are in a postorder of their tree, the new
/// order is its own natural postorder, and its analysis has the same fronts, numbered in that order: a solver that postorders the
/// elimination tree, children by rising number, makes them in just that order. Liu 1990 and 1992.
pub fn columns_of_analysis()
    ensures along { (m : GivenMatrix) (options : FrontOptions) (nodes : List Node) (front_of columns fronts : List ℕ) →
        (is : AreAnalysed m options nodes front_of columns) →
        columns_along m.base columns front_of fronts
        ≡ map (number_from m.base) (vertices_along is.perm (relaxed options.zeros is.have_fronts.assembly) fronts) }
    ensures topological { (m : GivenMatrix) (options : FrontOptions) (nodes : List Node) (front_of columns fronts : List ℕ) →
        (is : AreAnalysed m options nodes front_of columns) →
        IsTraversal (system_of_nodes nodes) fronts → IsTopological (is_joined is.rows) is.order (new_order m columns front_of fronts) }
    ensures same_fill { (m : GivenMatrix) (options : FrontOptions) (nodes : List Node) (front_of columns fronts : List ℕ) →
        (is : AreAnalysed m options nodes front_of columns) →
        IsTraversal (system_of_nodes nodes) fronts → (u v : ℕ) → IsVertex (length is.rows) u → IsVertex (length is.rows) v →
        is_in_column (is_joined is.rows) (new_order m columns front_of fronts) u v ≡ is_in_column (is_joined is.rows) is.order u v }
    ensures same_fronts { (m : GivenMatrix) (options : FrontOptions) (nodes : List Node) (front_of columns fronts : List ℕ) →
        (is : AreAnalysed m options nodes front_of columns) →
        IsTraversal (system_of_nodes nodes) fronts → (two : List ℕ) (second : AssemblyTree) →
        IsAnalysis is.rows (new_order m columns front_of fronts) two second →
        (u v : ℕ) → IsVertex (length is.rows) u → IsVertex (length is.rows) v →
        (front_of_vertex is.perm is.have_fronts.assembly u ≡ front_of_vertex is.perm is.have_fronts.assembly v)
        ↔ (front_of_vertex two second u ≡ front_of_vertex two second v) }
    ensures kept { (m : GivenMatrix) (options : FrontOptions) (nodes : List Node) (front_of columns fronts : List ℕ) →
        (is : AreAnalysed m options nodes front_of columns) →
        options.zeros ≡ None → IsTreePostorder nodes fronts →
        IsPostordered (is_joined is.rows) (new_order m columns front_of fronts) (new_order m columns front_of fronts) }
    ensures own { (m : GivenMatrix) (options : FrontOptions) (nodes : List Node) (front_of columns fronts : List ℕ) →
        (is : AreAnalysed m options nodes front_of columns) →
        options.zeros ≡ None → IsTreePostorder nodes fronts →
        IsAnalysis is.rows (new_order m columns front_of fronts) (new_order m columns front_of fronts)
        (fronts_along is.have_fronts.assembly fronts) }
    ensures in_turn { (m : GivenMatrix) (options : FrontOptions) (nodes : List Node) (front_of columns fronts : List ℕ) →
        (is : AreAnalysed m options nodes front_of columns) →
        options.zeros ≡ None → IsTreePostorder nodes fronts → (v : ℕ) → IsVertex (length is.rows) v →
        front_of_vertex (new_order m columns front_of fronts) (fronts_along is.have_fronts.assembly fronts) v
        ≡ place_of fronts (front_of_vertex is.perm is.have_fronts.assembly v) }
{
    amalgamation_is_assembly();
    amalgamation_is_relaxed();
    one_analysis();
    pattern_of_rows();
    order_laws::columns_in_arrays();
    order_laws::columns_of_fronts();
    order_laws::front_orders();
    order_laws::fronts_in_postorder();
    order_laws::same_fronts();
    order_laws::subtrees_in_a_row();
    order_laws::topological_order_of_another();
    order_laws::topological_orders();
}
