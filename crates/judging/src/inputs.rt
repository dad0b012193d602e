//! The files of an input are read and judged one after the other, and come to a tree or a problem; and so are the order of its tasks and
//! their priority.

ghost use Rattle.std.specs.Prelude.{◌≡◌, ◌≤◌, ℕ, List, [], ◌∷◌, ◌++◌, IfOk, IfErr, MatchResult, length, option_map};
ghost use Rattle.activation.specs.Machine.{IsSetting, start_state};
ghost use Rattle.activation.specs.Refusal.{IsCoreRefusal};
ghost use Rattle.activation.specs.Schedule.{HoldsEach};
ghost use Rattle.limits.specs.Limits.{most_workers};
ghost use Rattle.shared_systems.specs.Shared.{SharedTaskSystem};
ghost use Rattle.plans.specs.Plan.{IsPriority};
ghost use Rattle.plan_orders.specs.OrderOf.{value_of};
ghost use Rattle.judging.specs.Files.{IsOrderOf, IsMatrixTree, IsTreeOf, IsFirstRefusal};
ghost use Rattle.judging.specs.Priorities.{priority_or};
ghost use Rattle.judging.specs.Judged.{AreJudged, IsRefusingPage, IsRefusedOrder, IsMatrixRead, IsProblemOf, IsOrderRead};
ghost use Rattle.judging.specs.Judged.{AreTasksOf, AreOrderedOf, IsBeforeOrder, system_of_tasks};
ghost use Rattle.shared_systems.specs.SharedMemory.{shared_peak_of};
ghost use Rattle.shared_systems.specs.SharedTraversal.{IsSharedTraversal, IsSharedOrderRefusal};
ghost use Rattle.judging.specs.Judged.{IsRefusedSource, IsPriorityOf, IsRefusedRanking, IsRanking, order_tasks, own_priority};
ghost use Rattle.requests.specs.Request.{FileRole, matrix_files, ordered_matrix_files, min_degree, ordering_files, tree_input_files};
ghost use Rattle.requests.specs.Request.{input_files, task_files, source_file, priority_files};
ghost use Rattle.requests.specs.RequestViews.{ordering_view, matrix_view, ordered_matrix_view, tree_input_view, input_view, tasks_view, source_view};

use crate::files::{
    InverseFile, MatrixFile, OrderFile, PermFile, PlannedOrderFile, Ranked, SharedGraphFile,
    TreeFile, WorkflowFile, judge,
};
use crate::page::limit_page;
use crate::stop::Stop;
use activation::{Core, CoreRefusal};
use least_peak::Problem;
use limits::LimitName;
use matrix_files::laws::{inverse_is_perm, read_is_perm};
use mp_outside::Files;
use mp_system::ReplayRefusal;
use ordering::{MindegRefusal, min_degree};
use patterns::Pattern;
use permutations::{Perm, identity};
use plan_orders::PlannedOrder;
use requests::{Input, Matrix, OrderSource, OrderedMatrix, Ordering, TaskSource, TreeInput};
use shared_systems::SharedSystem;
use shared_systems::laws::{one_reader_law, order_law};
use sp_terms::laws::terms_law;
use std::alloc::{AllocError, Global};
use symbolic::front_tree;
use trees::Tree;

// The minimum degree order of a matrix that is not too large for it.
fn by_min_degree(alloc: Global, pattern: &Pattern) -> Result<Perm, Stop>
    ensures { MatchResult result (IsOrderOf min_degree pattern.now []) (IsRefusingPage (IsRefusedOrder min_degree pattern.now [])) }
{
    match min_degree(alloc, pattern) {
        Ok(order) => Ok(order),
        Err(MindegRefusal::Limit) => {
            let page = limit_page(alloc, "matrix", LimitName::Mindeg)?;
            Err(Stop::Refused(page))
        }
        Err(MindegRefusal::NoMemory) => Err(Stop::NoMemory),
    }
}

// The order in which the rows of a matrix are eliminated.
fn judge_ordering<F: Files>(
    alloc: Global,
    files: &mut F,
    ordering: Ordering<'_>,
    pattern: &Pattern,
) -> Result<Perm, Stop>
    ensures judged { AreJudged (F.bytes_of files.old) (F.faults_of files.old) (F.faults_of files.new)
        (ordering_files (ordering_view ordering.entry)) (IsOrderOf (ordering_view ordering.entry) pattern.now)
        (IsRefusedOrder (ordering_view ordering.entry) pattern.now) result }
    ensures len { IfOk result (λ order. length order ≡ length pattern.now) }
    ensures same { (other : List ℕ) → F.bytes_of files.new other ≡ F.bytes_of files.old other }
    ensures later { (other : List ℕ) → F.faults_of files.old other ≤ F.faults_of files.new other }
{
    read_is_perm();
    inverse_is_perm();
    let n = pattern.rows();
    match ordering {
        Ordering::Natural => Ok(identity(alloc, n)?),
        Ordering::MinDegree => by_min_degree(alloc, pattern),
        Ordering::Perm(name) => {
            let ranked = Ranked::Vertices;
            judge(alloc, files, name, &PermFile { ranked, n })
        }
        Ordering::Inverse(name) => judge(alloc, files, name, &InverseFile { n }),
    }
}

/// The pattern of a matrix, and the order in which its rows are eliminated.
#[derive(Drop)]
pub struct OrderedPattern {
    pub pattern: Pattern,
    pub order: Perm,
}

/// The pattern of a matrix, and the order in which its rows are eliminated.
pub fn judge_pattern<F: Files>(
    alloc: Global,
    files: &mut F,
    matrix: OrderedMatrix<'_>,
) -> Result<OrderedPattern, Stop>
    ensures judged { AreJudged (F.bytes_of files.old) (F.faults_of files.old) (F.faults_of files.new)
        (ordered_matrix_files (ordered_matrix_view matrix.entry)) (IsMatrixRead (ordering_view matrix.entry.ordering))
        (IsFirstRefusal (ordered_matrix_files (ordered_matrix_view matrix.entry)) []) result }
    ensures len { IfOk result (λ read. length read.order ≡ length read.pattern) }
    ensures same { (other : List ℕ) → F.bytes_of files.new other ≡ F.bytes_of files.old other }
    ensures later { (other : List ℕ) → F.faults_of files.old other ≤ F.faults_of files.new other }
{
    let pattern = judge(alloc, files, matrix.name, &MatrixFile)?;
    let order = judge_ordering(alloc, files, matrix.ordering, &pattern)?;
    Ok(OrderedPattern { pattern, order })
}

/// The tree of the fronts of a matrix.
pub fn judge_matrix<F: Files>(
    alloc: Global,
    files: &mut F,
    matrix: Matrix<'_>,
) -> Result<Tree, Stop>
    ensures judged { AreJudged (F.bytes_of files.old) (F.faults_of files.old) (F.faults_of files.new)
        (matrix_files (matrix_view matrix.entry)) (IsMatrixTree (matrix_view matrix.entry))
        (IsFirstRefusal (matrix_files (matrix_view matrix.entry)) []) result }
    ensures same { (other : List ℕ) → F.bytes_of files.new other ≡ F.bytes_of files.old other }
    ensures later { (other : List ℕ) → F.faults_of files.old other ≤ F.faults_of files.new other }
{
    let (name, ordering) = (matrix.name, matrix.ordering);
    let read = judge_pattern(alloc, files, OrderedMatrix { name, ordering })?;
    Ok(front_tree(alloc, &read.pattern, &read.order, matrix.fronts)?)
}

/// The tree of an input.
pub fn judge_tree<F: Files>(
    alloc: Global,
    files: &mut F,
    input: TreeInput<'_>,
) -> Result<Tree, Stop>
    ensures judged { AreJudged (F.bytes_of files.old) (F.faults_of files.old) (F.faults_of files.new)
        (tree_input_files (tree_input_view input.entry)) (IsTreeOf (tree_input_view input.entry))
        (IsFirstRefusal (tree_input_files (tree_input_view input.entry)) []) result }
    ensures same { (other : List ℕ) → F.bytes_of files.new other ≡ F.bytes_of files.old other }
    ensures later { (other : List ℕ) → F.faults_of files.old other ≤ F.faults_of files.new other }
{
    match input {
        TreeInput::Tree(name) => judge(alloc, files, name, &TreeFile),
        TreeInput::Matrix(matrix) => judge_matrix(alloc, files, matrix),
    }
}

/// The problem of an input.
pub fn judge_input<F: Files>(
    alloc: Global,
    files: &mut F,
    input: Input<'_>,
) -> Result<Problem, Stop>
    ensures judged { AreJudged (F.bytes_of files.old) (F.faults_of files.old) (F.faults_of files.new) (input_files (input_view input.entry))
        (IsProblemOf (input_view input.entry)) (IsFirstRefusal (input_files (input_view input.entry)) []) result }
    ensures same { (other : List ℕ) → F.bytes_of files.new other ≡ F.bytes_of files.old other }
    ensures later { (other : List ℕ) → F.faults_of files.old other ≤ F.faults_of files.new other }
{
    match input {
        Input::Tree(input) => {
            let tree = judge_tree(alloc, files, input)?;
            Ok(Problem::of_tree(tree))
        }
        Input::Workflow(name) => {
            terms_law();
            let terms = judge(alloc, files, name, &WorkflowFile)?;
            terms.keeps();
            Ok(Problem::of_workflow(terms))
        }
    }
}

/// Tasks, as they are read: the problem of an input, or the system of a task graph.
#[derive(Drop)]
pub enum Tasks {
    Problem(Problem),
    Graph(SharedSystem),
}

impl Tasks {
    /// The peak of a traversal, or the first place at which the order fails to be one. Linear in the tasks, the items and their readers.
    pub fn replay(&self, alloc: Global, order: &[u32]) -> Result<u64, ReplayRefusal>
        ensures peak { let system = system_of_tasks self.now in IfOk result (λ peak.
            IsSharedTraversal system order.now × (peak ≡ shared_peak_of system order.now)) }
        ensures fault { IfErr result (IsSharedOrderRefusal (system_of_tasks self.now) order.now) }
    {
        one_reader_law();
        match self {
            Tasks::Problem(problem) => problem.replay(alloc, order),
            Tasks::Graph(system) => system.peak(alloc, order),
        }
    }

    /// The number of tasks. Linear in the positions of a workflow.
    pub fn count(&self) -> u32
        ensures { result ≡ length (system_of_tasks self.now).tasks }
    {
        match self {
            Tasks::Problem(problem) => problem.task_count(),
            Tasks::Graph(system) => system.tasks().len() as u32,
        }
    }

    /// The tasks as a shared system. Linear; a graph's is handed over as it is.
    pub fn into_shared(self, alloc: Global) -> Result<SharedSystem, AllocError>
        ensures { IfOk result (λ system. system ≡ system_of_tasks self) }
    {
        match self {
            Tasks::Problem(problem) => problem.shared(alloc),
            Tasks::Graph(system) => Ok(system),
        }
    }

    /// The core that runs the tasks on 1 to 4,096 workers within a bound on memory, activated in an order. Refused are an order that is
    /// no traversal, and a bound below its peak.
    pub fn core(
        &self,
        alloc: Global,
        order: &[u32],
        bound: u64,
        workers: u32,
    ) -> Result<Core, CoreRefusal>
        requires { (1 ≤ workers) × (workers ≤ most_workers) }
        ensures setting { IfOk result (λ core. core.setting
            ≡ record { system = system_of_tasks self.now; order = order.now; bound = bound; workers = workers }) }
        ensures start { IfOk result (λ core. core.state ≡ start_state core.setting) }
        ensures within { IfOk result (λ core. IsSetting core.setting) }
        ensures refused { IfErr result (IsCoreRefusal (system_of_tasks self.now) order.now bound) }
    {
        match self {
            Tasks::Problem(problem) => problem.core(alloc, order, bound, workers),
            Tasks::Graph(system) => Core::new(alloc, system, order, bound, workers),
        }
    }
}

/// The tasks of a source.
pub fn judge_tasks<F: Files>(
    alloc: Global,
    files: &mut F,
    tasks: TaskSource<'_>,
) -> Result<Tasks, Stop>
    ensures judged { AreJudged (F.bytes_of files.old) (F.faults_of files.old) (F.faults_of files.new) (task_files (tasks_view tasks.entry))
        (AreTasksOf (tasks_view tasks.entry)) (IsFirstRefusal (task_files (tasks_view tasks.entry)) []) result }
    ensures same { (other : List ℕ) → F.bytes_of files.new other ≡ F.bytes_of files.old other }
    ensures later { (other : List ℕ) → F.faults_of files.old other ≤ F.faults_of files.new other }
{
    match tasks {
        TaskSource::Input(input) => {
            let problem = judge_input(alloc, files, input)?;
            Ok(Tasks::Problem(problem))
        }
        TaskSource::Graph(name) => {
            let system = judge(alloc, files, name, &SharedGraphFile)?;
            Ok(Tasks::Graph(system))
        }
    }
}

/// An order of tasks: of an order file, or of a plan.
#[derive(Drop)]
pub enum Order {
    Listed(Vec<u32>),
    Planned(PlannedOrder),
}

impl Order {
    /// The tasks in the order in which they run.
    pub fn numbers(&self) -> &[u32]
        ensures { result.now ≡ order_tasks self.now }
    {
        match self {
            Order::Listed(numbers) => numbers,
            Order::Planned(plan) => plan.order(),
        }
    }

    /// The tasks in the order in which they claim a worker: the priority of a plan that has one, else the order itself.
    pub fn priority(&self) -> &[u32]
        ensures value { result.now ≡ own_priority self.now }
        ensures each { (system : SharedTaskSystem) →
            IsSharedTraversal system (order_tasks self.now) → HoldsEach system result.now }
    {
        order_law();
        match self {
            Order::Listed(numbers) => numbers,
            Order::Planned(plan) => priority_of(plan),
        }
    }
}

// The priority of a plan that has one, else its order.
fn priority_of(plan: &PlannedOrder) -> &[u32]
    ensures value { result.now ≡ priority_or (value_of plan.now).order (value_of plan.now).priority }
    ensures each { IsPriority (length (value_of plan.now).order) (value_of plan.now).priority }
{
    let priority = plan.priority();
    if priority.is_empty() {
        plan.order()
    } else {
        priority
    }
}

/// The order that a source gives.
pub fn judge_order<F: Files>(
    alloc: Global,
    files: &mut F,
    source: OrderSource<'_>,
) -> Result<Order, Stop>
    ensures judged { AreJudged (F.bytes_of files.old) (F.faults_of files.old) (F.faults_of files.new)
        (source_file (source_view source.entry) ∷ []) (IsOrderRead (source_view source.entry))
        (IsRefusedSource (source_view source.entry)) result }
    ensures same { (other : List ℕ) → F.bytes_of files.new other ≡ F.bytes_of files.old other }
    ensures later { (other : List ℕ) → F.faults_of files.old other ≤ F.faults_of files.new other }
{
    match source {
        OrderSource::Order(name) => {
            let numbers = judge(alloc, files, name, &OrderFile)?;
            Ok(Order::Listed(numbers))
        }
        OrderSource::Plan(name) => {
            let plan = judge(alloc, files, name, &PlannedOrderFile)?;
            Ok(Order::Planned(plan))
        }
    }
}

/// Tasks, and an order of them.
#[derive(Drop)]
pub struct OrderedTasks {
    pub tasks: Tasks,
    pub order: Order,
}

/// The tasks of a source, and the order of another.
pub fn judge_ordered_tasks<F: Files>(
    alloc: Global,
    files: &mut F,
    tasks: TaskSource<'_>,
    source: OrderSource<'_>,
) -> Result<OrderedTasks, Stop>
    ensures judged { AreJudged (F.bytes_of files.old) (F.faults_of files.old) (F.faults_of files.new)
        (task_files (tasks_view tasks.entry) ++ source_file (source_view source.entry) ∷ [])
        (AreOrderedOf (tasks_view tasks.entry) (source_view source.entry))
        (IsFirstRefusal (task_files (tasks_view tasks.entry) ++ source_file (source_view source.entry) ∷ []) []) result }
    ensures same { (other : List ℕ) → F.bytes_of files.new other ≡ F.bytes_of files.old other }
    ensures later { (other : List ℕ) → F.faults_of files.old other ≤ F.faults_of files.new other }
{
    let tasks = judge_tasks(alloc, files, tasks)?;
    let order = judge_order(alloc, files, source)?;
    Ok(OrderedTasks { tasks, order })
}

/// A matrix with the order in which its rows are eliminated, and the order of a source.
#[derive(Drop)]
pub struct PatternWithOrder {
    pub matrix: OrderedPattern,
    pub order: Order,
}

/// The pattern of a matrix with the order in which its rows are eliminated, and after it the order of a source.
pub fn judge_ordered_pattern<F: Files>(
    alloc: Global,
    files: &mut F,
    matrix: OrderedMatrix<'_>,
    source: OrderSource<'_>,
) -> Result<PatternWithOrder, Stop>
    ensures judged { AreJudged (F.bytes_of files.old) (F.faults_of files.old) (F.faults_of files.new)
        (ordered_matrix_files (ordered_matrix_view matrix.entry) ++ source_file (source_view source.entry) ∷ [])
        (λ texts read. IsBeforeOrder (ordered_matrix_files (ordered_matrix_view matrix.entry))
        (IsMatrixRead (ordering_view matrix.entry.ordering)) (source_view source.entry) texts read.matrix read.order)
        (IsFirstRefusal (ordered_matrix_files (ordered_matrix_view matrix.entry) ++ source_file (source_view source.entry) ∷ []) []) result }
    ensures len { IfOk result (λ read. length read.matrix.order ≡ length read.matrix.pattern) }
    ensures same { (other : List ℕ) → F.bytes_of files.new other ≡ F.bytes_of files.old other }
    ensures later { (other : List ℕ) → F.faults_of files.old other ≤ F.faults_of files.new other }
{
    let matrix = judge_pattern(alloc, files, matrix)?;
    let order = judge_order(alloc, files, source)?;
    Ok(PatternWithOrder { matrix, order })
}

// ---- the priority

/// Where a priority of tasks comes from.
#[derive(Drop)]
pub enum Priority {
    /// It comes with the order.
    Own,
    /// It is read from a file.
    Given(Vec<u32>),
}

// The numbers of a permutation by place.
fn listed(alloc: Global, perm: &Perm) -> Result<Vec<u32>, AllocError>
    ensures { IfOk result (λ numbers. numbers.items ≡ perm.now) }
{
    let mut numbers = Vec::with_capacity(alloc, perm.len() as usize)?;
    for place in 0..perm.len() {
        numbers.push(perm.at(place + 1))?;
    }
    Ok(numbers)
}

/// The priority of `n` tasks of a file, if one is named.
pub fn judge_priority<F: Files>(
    alloc: Global,
    files: &mut F,
    name: Option<&str>,
    n: u32,
) -> Result<Priority, Stop>
    ensures judged { (role : FileRole) → AreJudged (F.bytes_of files.old) (F.faults_of files.old) (F.faults_of files.new)
        (priority_files role (option_map (λ s. s.now) name.entry)) (IsPriorityOf (option_map (λ s. s.now) name.entry) n)
        (IsRefusedRanking n) result }
    ensures each { IfOk result (IsRanking n) }
    ensures same { (other : List ℕ) → F.bytes_of files.new other ≡ F.bytes_of files.old other }
    ensures later { (other : List ℕ) → F.faults_of files.old other ≤ F.faults_of files.new other }
{
    read_is_perm();
    let Some(name) = name else {
        return Ok(Priority::Own);
    };
    let ranked = Ranked::Tasks;
    let perm = judge(alloc, files, name, &PermFile { ranked, n })?;
    Ok(Priority::Given(listed(alloc, &perm)?))
}
