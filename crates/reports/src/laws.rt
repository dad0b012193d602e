//! Laws of the answers: what holds of each, without a call.

ghost use Rattle.std.specs.Prelude.{◌≡◌, ◌≤◌, ℕ, List, Option, [], ◌∷◌, length};
ghost use Rattle.patterns.specs.Pattern.{IsPattern};
ghost use Rattle.mp_system.specs.System.{IsSystem, TaskSystem};
ghost use Rattle.sp_terms.specs.declared.position.Position.{Position};
ghost use Rattle.shared_systems.specs.Bounds.{IsSharedSystem};
ghost use Rattle.shared_systems.specs.SharedTraversal.{IsSharedTraversal};
ghost use Rattle.trees.specs.Tree.{IsTree};
ghost use Rattle.trees.specs.declared.node.Node.{Node};
ghost use Rattle.reports.specs.Reports.{IsAnswer, IsDecided};
ghost use Rattle.judging.specs.Files.{Answer, HasValue, IsRefusedInRole, IsSystemOf, IsOrderedMatrix, IsSystemWithTerm, IsTaskSystemOf, IsTreeOf};
ghost use Rattle.reports.specs.Demo.{IsDemoOf, IsShown};
ghost use Rattle.judging.specs.Judged.{AreWithin};
ghost use Rattle.reports.specs.Carry.{IsOrderCarried, IsCarryOf};
ghost use Rattle.reports.specs.Columns.{AreColumns, IsColumnsOf};
ghost use Rattle.reports.specs.Fronts.{IsFactored, IsFrontsOf};
ghost use Rattle.reports.specs.Promises.{IsPossible, Says, done_answer};
ghost use Rattle.requests.specs.Request.{ColumnsFormat, FileRole, IsInRange, IsMakeable, Input, Matrix, OrderedMatrix, Ordering, OrderSource};
ghost use Rattle.requests.specs.Request.{Request, TreeInput, Upgrade};
ghost use Rattle.requests.specs.Request.{TaskSource, input_files, task_files, tree_input_files, upgrade};
ghost use Rattle.shared_systems.specs.Shared.{SharedTaskSystem};
ghost use Rattle.judging.specs.Numbered.{IsNumberedTerm};
ghost use Rattle.reports.specs.Upgrade.{IsFileOf, IsUpgradedFrom, Versioned, text_2, upgrade_again};
ghost use Rattle.requests.specs.declared.commands.demo.Demo.{Demo};
ghost use Rattle.judging.specs.declared.status.Status.TheVariants.{Done};

use activation::laws as run_laws;
use assembly_tree::laws as assembly_laws;
use bound_check::laws as bound_check_laws;
use bounded_plan_files::laws as bounded_plan_laws;
use claim_check::laws as claim_laws;
use elim_tree::laws as fill_laws;
use equivalent_orders::laws as elimination_laws;
use fence_files::laws as fence_file_laws;
use fences::laws as fence_laws;
use graph_files::laws as graph_file_laws;
use matrix_files::laws as matrix_file_laws;
use mp_gen::laws::made_inputs;
use mp_system::laws as system_laws;
use ordering::laws as order_laws;
use patterns::laws as pattern_laws;
use peak_bounds::laws as bound_laws;
use plan_files::laws as plan_laws;
use plan_orders::laws as plan_order_laws;
use postorder_best::laws as postorder_laws;
use rounds_run::laws as rounds_laws;
use shared_graph_files::laws as shared_graph_laws;
use shared_reduce::laws as shared_reduction_laws;
use shared_systems::laws as shared_laws;
use sp_cuts::laws as stair_laws;
use sp_reduce::laws as reduction_laws;
use sp_term_laws::laws as term_order_laws;
use sp_terms::laws as term_laws;
use symbolic::laws as front_laws;
use tree_files::laws as tree_file_laws;
use trees::laws as tree_laws;
use workflow_files::laws as workflow_laws;

// The texts of an input are of one matrix, one tree, one system and one term, within the limits, and they are as many as its files; its
// positions have one numbering. Those of tasks are of one system, which is within the limits where it has a traversal, and as many as their
// files.
fn one_input()
    ensures matrix { (o : Ordering) (texts rows other : List (List ℕ)) (order same : List ℕ) → IsOrderedMatrix o texts rows order →
        IsOrderedMatrix o texts other same → (rows ≡ other) × (order ≡ same) × IsPattern rows × (length order ≡ length rows) }
    ensures tree { (input : TreeInput) (texts : List (List ℕ)) (one two : List Node) → IsTreeOf input texts one → IsTreeOf input texts two →
        (one ≡ two) × IsTree one × (length texts ≡ length (tree_input_files input)) }
    ensures system { (input : Input) (texts : List (List ℕ)) (one two : TaskSystem)
        → IsSystemOf input texts one → IsSystemOf input texts two →
        (one ≡ two) × IsSystem one × (length texts ≡ length (input_files input)) }
    ensures tasks { (source : TaskSource) (texts : List (List ℕ)) (one two : SharedTaskSystem)
        → IsTaskSystemOf source texts one → IsTaskSystemOf source texts two →
        (one ≡ two) × ((order : List ℕ) → IsSharedTraversal one order → IsSharedSystem one) × (length texts ≡ length (task_files source)) }
    ensures term { (input : Input) (texts : List (List ℕ)) (system same : TaskSystem) (one two : List Position) →
        IsSystemWithTerm input texts system one → IsSystemWithTerm input texts same two → one ≡ two }
    ensures numbered { (input : Input) (texts : List (List ℕ)) (one two : List Position) (numbered same : List ℕ) →
        IsNumberedTerm input texts one numbered → IsNumberedTerm input texts two same →
        (one ≡ two) × (numbered ≡ same) × AreWithin (length one) numbered }
{
    tree_file_laws::exactly_one();
    tree_file_laws::read_is_tree();
    tree_laws::tree_system();
    tree_laws::forest_law();
    matrix_file_laws::exactly_one();
    matrix_file_laws::exactly_one_perm();
    matrix_file_laws::read_is_perm();
    matrix_file_laws::exactly_one_inverse();
    matrix_file_laws::inverse_is_perm();
    order_laws::one_minimum_degree_order();
    front_laws::one_front_tree();
    front_laws::front_tree_is_tree();
    workflow_laws::exactly_one();
    workflow_laws::read_law();
    term_laws::terms_law();
    shared_graph_laws::exactly_one();
    shared_graph_laws::read_law();
}

// The tasks of a source can be ordered, so they are a shared system within the limits.
fn shared_tasks()
    ensures { (source : TaskSource) (texts : List (List ℕ)) (system : SharedTaskSystem) → IsTaskSystemOf source texts system →
        IsSharedSystem system }
{
    one_input();
    tree_laws::tree_system();
    tree_laws::forest_law();
    tree_laws::tree_term();
    workflow_laws::read_law();
    term_laws::terms_law();
    term_order_laws::value_law();
    system_laws::renaming_law();
    shared_laws::one_reader_system_law();
    shared_graph_laws::read_law();
}

// A file is accepted or refused, never both, and refused with one answer.
fn one_file()
    ensures not_both { (role : FileRole) (earlier : List (List ℕ)) (text : List ℕ) (answer : Answer) → HasValue role earlier text →
        ¬ (IsRefusedInRole role earlier text answer) }
    ensures one_refusal { (role : FileRole) (earlier : List (List ℕ)) (text : List ℕ) (one two : Answer) → IsRefusedInRole role earlier text one →
        IsRefusedInRole role earlier text two → one ≡ two }
{
    one_input();
    tree_file_laws::exactly_one();
    workflow_laws::exactly_one();
    matrix_file_laws::exactly_one();
    matrix_file_laws::exactly_one_order();
    matrix_file_laws::exactly_one_perm();
    matrix_file_laws::exactly_one_inverse();
    plan_laws::exactly_one();
    shared_graph_laws::exactly_one();
    bounded_plan_laws::exactly_one();
    plan_order_laws::exactly_one();
    fence_file_laws::exactly_one();
}

// A demo has one answer: plans may differ, but not their peak; the checker says yes to them, and no traversal has a lower peak.
fn one_demo()
    ensures one { (made : Demo) (one two : Answer) → IsMakeable made → IsDemoOf made one → IsDemoOf made two → one ≡ two }
    ensures shown { (made : Demo) (answer : Answer) → IsMakeable made → IsDemoOf made answer → IsShown made answer.text }
{
    tree_laws::forest_law();
    tree_laws::tree_term();
    claim_laws::accepted_law();
    claim_laws::accepted_or_objected();
    system_laws::least_law();
    postorder_laws::one_best_postorder();
    pattern_laws::one_pattern();
    order_laws::one_minimum_degree_order();
    front_laws::one_front_tree();
    front_laws::front_tree_is_tree();
    made_inputs();
}

// What is upgraded is one value, and a file of its text in version 2 says it.
fn one_upgrade()
    ensures one { (u : Upgrade) (texts : List (List ℕ)) (one two : Versioned) →
        IsUpgradedFrom u texts one → IsUpgradedFrom u texts two → one ≡ two }
    ensures file { (u : Upgrade) (texts : List (List ℕ)) (value : Versioned) → IsUpgradedFrom u texts value →
        IsFileOf (text_2 value) value }
{
    tree_file_laws::exactly_one();
    tree_file_laws::read_is_tree();
    tree_file_laws::printed_tree();
    tree_file_laws::printed_length();
    workflow_laws::exactly_one();
    workflow_laws::read_law();
    workflow_laws::printed_workflow();
    workflow_laws::printed_length();
    shared_graph_laws::exactly_one();
    shared_graph_laws::read_law();
    shared_graph_laws::printed_law();
    shared_graph_laws::printed_length();
    plan_laws::exactly_one();
    plan_laws::read_law();
    plan_laws::printed_plan();
    plan_laws::printed_length();
    matrix_file_laws::exactly_one_perm();
    matrix_file_laws::read_is_perm();
}

// The fronts of a matrix have one answer, and one that is done says what it is to say.
fn one_fronts()
    ensures one { (m : OrderedMatrix) (bound workers : ℕ) (texts : List (List ℕ)) (one two : Answer) → 1 ≤ workers →
        IsFrontsOf m bound workers texts one → IsFrontsOf m bound workers texts two → one ≡ two }
    ensures factored { (m : OrderedMatrix) (bound workers : ℕ) (texts : List (List ℕ)) (answer : Answer) →
        IsFrontsOf m bound workers texts answer → answer.status ≡ Done → IsFactored m bound workers texts answer.text }
{
    one_input();
    front_laws::one_analysis();
    fill_laws::renumbered_pattern();
    rounds_laws::rounds_of_assembly();
    rounds_laws::columns_of_front();
}

// The columns of the fronts of a matrix have one answer, and one that is done says what it is to say.
fn one_columns()
    ensures one { (m : Matrix) (source : Option OrderSource) (format : ColumnsFormat) (texts : List (List ℕ)) (one two : Answer) →
        IsColumnsOf m source format texts one → IsColumnsOf m source format texts two → one ≡ two }
    ensures said { (m : Matrix) (source : Option OrderSource) (format : ColumnsFormat) (texts : List (List ℕ)) (printed : List ℕ) →
        IsColumnsOf m source format texts (done_answer printed) → AreColumns m source format texts printed }
{
    one_input();
    matrix_file_laws::exactly_one_order();
    matrix_file_laws::read_is_perm();
    matrix_file_laws::inverse_is_perm();
    matrix_file_laws::printed_perm();
    plan_order_laws::exactly_one();
    system_laws::traversal_law();
    fill_laws::pattern_of_rows();
    front_laws::one_analysis();
    assembly_laws::amalgamation_is_assembly();
    elimination_laws::front_orders();
    elimination_laws::columns_of_fronts();
    elimination_laws::topological_orders();
    elimination_laws::same_fronts();
    elimination_laws::fronts_in_postorder();
}

// An order that is carried from a term to its graph says what it is to say.
fn carried_orders()
    ensures { (source : OrderSource) (texts : List (List ℕ)) (answer : Answer) → IsCarryOf source texts answer → answer.status ≡ Done →
        IsOrderCarried source texts answer.text }
{
    shared_graph_laws::read_law();
    reduction_laws::named_term_law();
    shared_laws::one_reader_law();
    shared_reduction_laws::told_term_law();
}

/// The rows of the fronts of a matrix are the same for every bound and every number of workers.
pub fn one_list_of_rows()
    ensures { (m : OrderedMatrix) (bound other workers more : ℕ) (texts : List (List ℕ)) (printed again : List ℕ)
        (one : IsFactored m bound workers texts printed) (two : IsFactored m other more texts again) → one.lists ≡ two.lists }
{
    one_input();
    front_laws::one_analysis();
}

/// A request has one answer over the texts of its files, and so the program prints what these decide; but `plan` may print any plan of
/// least peak with a certificate, or any of a graph, `spill` the amounts of any spill plan of least volume, `reduce` any term of a graph, or any reason why it
/// has none, `bound` any bound with its evidence, and `check` may judge the claims of a plan on any term of a graph.
pub fn one_answer()
    ensures { (request : Request) (texts : List (List ℕ)) (one two : Answer) → IsInRange request → IsDecided request →
        IsAnswer request texts one → IsAnswer request texts two → one ≡ two }
{
    one_input();
    one_file();
    matrix_file_laws::exactly_one_order();
    matrix_file_laws::exactly_one_perm();
    matrix_file_laws::read_is_perm();
    plan_laws::exactly_one();
    plan_order_laws::exactly_one();
    plan_order_laws::read_law();
    shared_laws::order_law();
    postorder_laws::one_best_postorder();
    claim_laws::accepted_or_objected();
    run_laws::schedule_law();
    stair_laws::one_staircase();
    one_demo();
    one_upgrade();
    one_fronts();
    one_columns();
}

/// An answer says what its request promises, command by command: a yes certifies, a plan is best, a trace is of a run that was simulated,
/// what was upgraded is what the printed file says, what is spilled is a spill plan of least volume, printed levels are reached, and none
/// below them, the rows of a front are a structure of the filled graph, the columns of fronts are an order with the same fill, the workflow of a task graph has the graph's traversals, a graph whose
/// rest is told has no term, or one of version 2 none of that kind, no traversal of a graph has a peak below a bound that is told or
/// accepted, and `check` says yes to the plan of a graph. It follows from being an answer.
pub fn what_answers_say()
    ensures { (request : Request) (texts : List (List ℕ)) (answer : Answer) → IsPossible request →
        IsAnswer request texts answer → Says request texts answer.status answer.text }
{
    one_input();
    tree_laws::tree_term();
    workflow_laws::read_law();
    term_laws::terms_law();
    claim_laws::accepted_law();
    plan_laws::printed_plan();
    plan_laws::printed_length();
    run_laws::schedule_law();
    stair_laws::one_staircase();
    graph_file_laws::read_law();
    reduction_laws::named_term_law();
    reduction_laws::names_law();
    shared_graph_laws::read_law();
    shared_graph_laws::either_law();
    shared_reduction_laws::told_term_law();
    shared_reduction_laws::names_law();
    bound_laws::evidence_law();
    bound_check_laws::accepted_law();
    bounded_plan_laws::printed_plan();
    bounded_plan_laws::printed_length();
    fence_laws::certificate_law();
    shared_tasks();
    workflow_laws::named_workflow();
    one_demo();
    one_upgrade();
    one_fronts();
    one_columns();
    carried_orders();
}

/// A file that `upgrade` wrote, as `print_tree_2`, `print_workflow_2`, `print_shared_graph` or `print_plan_2` prints it, stays as it is: `upgrade` of it, with no
/// priority, writes the same bytes, and nothing else.
pub fn upgraded_again()
    ensures same { (u : Upgrade) (texts : List (List ℕ)) (name : List ℕ) (answer : Answer) →
        IsAnswer (upgrade u) texts answer → answer.status ≡ Done →
        IsAnswer (upgrade (upgrade_again u name)) (answer.text ∷ []) answer }
    ensures only { (u : Upgrade) (texts : List (List ℕ)) (name : List ℕ) (one two : Answer) →
        IsAnswer (upgrade u) texts one → one.status ≡ Done →
        IsAnswer (upgrade (upgrade_again u name)) (one.text ∷ []) two → two ≡ one }
{
    what_answers_say();
    one_answer();
}
