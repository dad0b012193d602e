ghost use Rattle.std.specs.Prelude.{◌≡◌, ◌<◌, ◌≤◌, ◌^◌, IfSome, option_map};
ghost use Rattle.requests.specs.Request.{is_second, ordering_named, ordering_of, ordering_given, zeros_named, matrix_of, gives_any, tree_input_of, input_of};
ghost use Rattle.requests.specs.Request.{tasks_of, source_of, source_given, number_given, number_up_to, effort_or_default};
ghost use Rattle.requests.specs.Request.{workers_given, workers_or_one, AreWorkers};
ghost use Rattle.command_line.specs.Views.{texts};
ghost use Rattle.requests.specs.Options.{matrix_options, tree_names, input_names};
ghost use Rattle.requests.specs.RequestViews.{ordering_view, matrix_view, tree_input_view, input_view, tasks_view, source_view};

use crate::commands::bound::Bounding;
use crate::commands::check::{Check, FenceCheck, GraphCheck};
use crate::commands::columns::Columns;
use crate::commands::demo::Demo;
use crate::commands::fence::{Fencing, PlannedFencing};
use crate::commands::fronts::FrontRun;
use crate::commands::plan::GraphPlan;
use crate::commands::reduce::Carried;
use crate::commands::replay::Replay;
use crate::commands::simulate::Simulation;
use crate::commands::spill::Spilling;
use crate::commands::upgrade::Upgrade;
use assembly_tree::Shape;
use command_line::Line;
use limits::{MOST_WORKERS, MOST_ZEROS};
use mp_text::number;
use symbolic::FrontOptions;

/// In which order the rows of a matrix are eliminated.
#[derive(Clone, Copy, Debug)]
pub enum Ordering<'a> {
    /// 1, 2, ..
    Natural,
    /// By minimum degree, a matrix of at most 50,000 rows.
    MinDegree,
    /// Of a permutation file, by its name.
    Perm(&'a str),
    /// Of a file of its inverse, by its name.
    Inverse(&'a str),
}

/// A matrix, by the name of its file, and how it becomes a tree of fronts.
#[derive(Clone, Copy, Debug)]
pub struct Matrix<'a> {
    pub name: &'a str,
    pub ordering: Ordering<'a>,
    /// How the fronts are made, with at most 2^40 explicit zeros in a merge.
    pub fronts: FrontOptions,
}

/// A matrix, by the name of its file, and in which order its rows are eliminated.
#[derive(Clone, Copy, Debug)]
pub struct OrderedMatrix<'a> {
    pub name: &'a str,
    pub ordering: Ordering<'a>,
}

/// What becomes a tree: a tree file, by its name, or a matrix.
#[derive(Clone, Copy, Debug)]
pub enum TreeInput<'a> {
    Tree(&'a str),
    Matrix(Matrix<'a>),
}

/// What becomes a system of tasks: a tree, or a workflow file, by its name.
#[derive(Clone, Copy, Debug)]
pub enum Input<'a> {
    Tree(TreeInput<'a>),
    Workflow(&'a str),
}

/// What tasks are read from: an input, or a task graph, by the name of its file.
#[derive(Clone, Copy, Debug)]
pub enum TaskSource<'a> {
    Input(Input<'a>),
    Graph(&'a str),
}

/// What an order of tasks is read from: an order file, or a plan file, by its name.
#[derive(Clone, Copy, Debug)]
pub enum OrderSource<'a> {
    Order(&'a str),
    Plan(&'a str),
}

/// How a plan is printed.
#[derive(Clone, Copy, Debug, PartialEq, Eq)]
pub enum PlanFormat {
    /// As a plan file.
    File,
    /// As one line of JSON.
    Json,
}

/// What the words ask for.
#[derive(Clone, Copy, Debug)]
pub enum Request<'a> {
    /// The peak of the tasks in the order.
    Replay(Replay<'a>),
    /// The tree of a matrix.
    Tree(Matrix<'a>),
    /// The columns of the fronts of a matrix, one front after another.
    Columns(Columns<'a>),
    /// The best postorder of a tree, and its peak.
    Post(TreeInput<'a>),
    /// Whether the plan is accepted for the input.
    Check(Check<'a>),
    /// Whether the plan with a bound is accepted for the task graph.
    CheckGraph(GraphCheck<'a>),
    /// Whether the fences keep all runs of the tasks within their bound.
    CheckFences(FenceCheck<'a>),
    /// A traversal of least peak, with its certificate.
    Plan(Input<'a>, PlanFormat),
    /// An order of a task graph, and what no order has a peak below, with evidence.
    PlanGraph(GraphPlan<'a>),
    /// The run of tasks on several workers within a bound, activated in the order.
    Simulate(Simulation<'a>),
    /// Fences that keep all runs of the tasks within a bound, along the order.
    Fence(Fencing<'a>),
    /// The same along an order that is planned.
    PlannedFence(PlannedFencing<'a>),
    /// What no run of the tasks passes as they stand, on at most so many workers, from 1 to 4,096; with none, on any number of them.
    Standing(TaskSource<'a>, Option<u32>),
    /// An input that is made, its plan, and whether the plan is accepted.
    Demo(Demo),
    /// A file, as version 2.
    Upgrade(Upgrade<'a>),
    /// What must go to disk where the order runs within the bound.
    Spill(Spilling<'a>),
    /// How low memory can come in each subtree of a tree, or at each position of a workflow.
    Segments(Input<'a>),
    /// The rows of every front of the matrix, made within the bound by the workers.
    Fronts(FrontRun<'a>),
    /// The term of a task graph, by the name of its file.
    Reduce(&'a str),
    /// An order of the tasks of that term, by the tasks of the graph.
    Carry(Carried<'a>),
    /// What no order of a task graph has a peak below, with evidence.
    Bound(Bounding<'a>),
}

// ---- the options that commands share

/// What a matrix takes besides its name.
pub(crate) const MATRIX_OPTIONS: &[&str] = &[
    "perm",
    "iperm",
    "ordering",
    "shape",
    "amalgamate",
    "inplace",
];

/// The names of files: of a matrix; of a tree or a matrix; of any input. Each goes with the options of a matrix.
pub(crate) const MATRIX: &[&str] = &["matrix"];

pub(crate) const TREE: &[&str] = &["tree", "matrix"];

pub(crate) const INPUT: &[&str] = &["workflow", "tree", "matrix"];

// ---- the options of a matrix

/// Whether a value is the second of two words; with no value it is the first.
pub fn is_second(given: Option<&str>, first: &str, second: &str) -> Option<bool>
    ensures { result ≡ is_second first.now second.now (option_map (λ s. s.now) given.entry) }
{
    match given {
        None => Some(false),
        Some(word) if word == first => Some(false),
        Some(word) if word == second => Some(true),
        Some(_) => None,
    }
}

// The order of this name.
fn ordering_named<'a>(word: &str) -> Option<Ordering<'a>>
    ensures { option_map ordering_view result ≡ ordering_named word.now }
{
    match word {
        "natural" => Some(Ordering::Natural),
        "mindeg" => Some(Ordering::MinDegree),
        _ => None,
    }
}

// A permutation file, a file of an inverse, or an order by its name, at most one of them.
fn ordering_of<'a>(
    perm: Option<&'a str>,
    inverse: Option<&'a str>,
    ordering: Option<&'a str>,
) -> Option<Ordering<'a>>
    ensures { option_map ordering_view result ≡ ordering_of (option_map (λ s. s.now) perm.entry) (option_map (λ s. s.now) inverse.entry)
        (option_map (λ s. s.now) ordering.entry) }
{
    match (perm, inverse, ordering) {
        (None, None, None) => Some(Ordering::Natural),
        (None, None, Some(word)) => ordering_named(word),
        (None, Some(name), None) => Some(Ordering::Inverse(name)),
        (Some(name), None, None) => Some(Ordering::Perm(name)),
        _ => None,
    }
}

/// The order in which the rows of a matrix are eliminated, as its options give it.
pub fn ordering_given<'a>(line: &Line<'a>) -> Option<Ordering<'a>>
    ensures { option_map ordering_view result ≡ ordering_given line.now.options }
{
    ordering_of(
        line.value("perm"),
        line.value("iperm"),
        line.value("ordering"),
    )
}

// How many zeros a merge may add: at most 2^40.
fn zeros_of(given: Option<&str>) -> Option<Option<u64>>
    ensures { result ≡ zeros_named (option_map (λ s. s.now) given.entry) }
{
    let Some(word) = given else {
        return Some(None);
    };
    let zeros = number(word.as_bytes())?;
    if zeros <= MOST_ZEROS {
        Some(Some(zeros))
    } else {
        None
    }
}

/// The matrix of this name, with the options that are given for it.
pub fn matrix_of<'a>(name: &'a str, line: &Line<'a>) -> Option<Matrix<'a>>
    ensures { option_map matrix_view result ≡ matrix_of name.entry.now line.now.options }
{
    let square = is_second(line.value("shape"), "triangle", "square")?;
    let zeros = zeros_of(line.value("amalgamate"))?;
    let inplace = is_second(line.value("inplace"), "no", "yes")?;
    let ordering = ordering_given(line)?;
    let shape = if square {
        Shape::Square
    } else {
        Shape::Triangle
    };
    let fronts = FrontOptions {
        shape,
        zeros,
        inplace,
    };
    Some(Matrix {
        name,
        ordering,
        fronts,
    })
}

// ---- inputs

// Whether an option of one of these names is given.
pub fn gives_any(names: &[&str], line: &Line<'_>) -> bool
    ensures { result ≡ gives_any (texts names.now) line.now.options }
{
    names.iter().any(|name| line.value(name).is_some())
}

// Whether an option of a matrix is given.
fn has_matrix_option(line: &Line<'_>) -> bool
    ensures { result ≡ gives_any matrix_options line.now.options }
{
    gives_any(MATRIX_OPTIONS, line)
}

// Whether a tree, a matrix or an option of a matrix is given.
fn has_tree_option(line: &Line<'_>) -> bool
    ensures { result ≡ gives_any tree_names line.now.options }
{
    gives_any(TREE, line) || has_matrix_option(line)
}

/// A tree, without the options of a matrix, or a matrix.
pub fn tree_input_of<'a>(line: &Line<'a>) -> Option<TreeInput<'a>>
    ensures { option_map tree_input_view result ≡ tree_input_of line.now.options }
{
    match (line.value("tree"), line.value("matrix")) {
        (None, None) => None,
        (None, Some(name)) => {
            let matrix = matrix_of(name, line)?;
            Some(TreeInput::Matrix(matrix))
        }
        (Some(_), None) if has_matrix_option(line) => None,
        (Some(name), None) => Some(TreeInput::Tree(name)),
        (Some(_), Some(_)) => None,
    }
}

/// A tree, a matrix or a workflow.
pub fn input_of<'a>(line: &Line<'a>) -> Option<Input<'a>>
    ensures { option_map input_view result ≡ input_of line.now.options }
{
    let Some(name) = line.value("workflow") else {
        let input = tree_input_of(line)?;
        return Some(Input::Tree(input));
    };
    if has_tree_option(line) {
        None
    } else {
        Some(Input::Workflow(name))
    }
}

// Whether an input or an option of a matrix is given.
fn has_input_option(line: &Line<'_>) -> bool
    ensures { result ≡ gives_any input_names line.now.options }
{
    gives_any(INPUT, line) || has_matrix_option(line)
}

/// An input, or a task graph.
pub fn tasks_of<'a>(line: &Line<'a>) -> Option<TaskSource<'a>>
    ensures { option_map tasks_view result ≡ tasks_of line.now.options }
{
    let Some(name) = line.value("graph") else {
        let input = input_of(line)?;
        return Some(TaskSource::Input(input));
    };
    if has_input_option(line) {
        None
    } else {
        Some(TaskSource::Graph(name))
    }
}

// ---- what several commands ask for

/// An order file or a plan file, not both.
pub fn source_of<'a>(order: Option<&'a str>, plan: Option<&'a str>) -> Option<OrderSource<'a>>
    ensures { option_map source_view result ≡ source_of (option_map (λ s. s.now) order.entry) (option_map (λ s. s.now) plan.entry) }
{
    match (order, plan) {
        (Some(order), None) => Some(OrderSource::Order(order)),
        (None, Some(plan)) => Some(OrderSource::Plan(plan)),
        (None, None) => None,
        (Some(_), Some(_)) => None,
    }
}

/// An order file or a plan file, if one of them is given, not both.
pub fn source_given<'a>(
    order: Option<&'a str>,
    plan: Option<&'a str>,
) -> Option<Option<OrderSource<'a>>>
    ensures { option_map (option_map source_view) result
        ≡ source_given (option_map (λ s. s.now) order.entry) (option_map (λ s. s.now) plan.entry) }
{
    match (order, plan) {
        (None, None) => Some(None),
        (None, Some(plan)) => Some(Some(OrderSource::Plan(plan))),
        (Some(order), None) => Some(Some(OrderSource::Order(order))),
        (Some(_), Some(_)) => None,
    }
}

/// A number that is given.
pub fn number_given(given: Option<&str>) -> Option<u64>
    ensures { result ≡ number_given (option_map (λ s. s.now) given.entry) }
{
    number(given?.as_bytes())
}

/// A number that is given, from 1 to the greatest that passes.
pub fn number_up_to(most: u64, given: Option<&str>) -> Option<u32>
    requires { most < 2 ^ 32 }
    ensures value { result ≡ number_up_to most (option_map (λ s. s.now) given.entry) }
    ensures range { IfSome result (λ n. (1 ≤ n) × (n ≤ most)) }
{
    let number = number_given(given)?;
    if 1 <= number && number <= most {
        Some(number as u32)
    } else {
        None
    }
}

/// A search takes at most so many steps, where no number is given.
pub const DEFAULT_EFFORT: u64 = 1_000_000_000;

/// So many steps, or the default, where no number is given.
pub fn effort_of(given: Option<&str>) -> Option<u64>
    ensures { result ≡ effort_or_default (option_map (λ s. s.now) given.entry) }
{
    if given.is_none() {
        return Some(DEFAULT_EFFORT);
    }
    number_given(given)
}

/// One worker, where no number is given.
pub fn workers_of(given: Option<&str>) -> Option<u32>
    ensures value { result ≡ workers_or_one (option_map (λ s. s.now) given.entry) }
    ensures range { IfSome result AreWorkers }
{
    if given.is_none() {
        return Some(1);
    }
    number_up_to(u64::from(MOST_WORKERS), given)
}

/// A number of workers, if one is given.
pub fn workers_given(given: Option<&str>) -> Option<Option<u32>>
    ensures value { result ≡ workers_given (option_map (λ s. s.now) given.entry) }
    ensures range { IfSome result (λ workers. IfSome workers AreWorkers) }
{
    if given.is_none() {
        return Some(None);
    }
    let workers = number_up_to(u64::from(MOST_WORKERS), given)?;
    Some(Some(workers))
}
