//! `plan`: what its words ask for.

ghost use Rattle.std.specs.Prelude.{◌≡◌, IfSome, option_map};
ghost use Rattle.requests.specs.Words.{planned_as, plan_of};
ghost use Rattle.requests.specs.Request.{input_tasks, graph_tasks, is_second, format_of, IsInRange};
ghost use Rattle.requests.specs.RequestViews.{input_view, tasks_view, format_view, request_view};

use crate::request::{Input, PlanFormat, Request, TaskSource, effort_of, is_second, tasks_of};
use command_line::Line;

/// A task graph and an order of its tasks, by the names of their files, how much is searched, and how the plan is printed.
#[derive(Clone, Copy, Debug)]
pub struct GraphPlan<'a> {
    pub graph: &'a str,
    /// With one, the plan has no higher peak than it.
    pub order: Option<&'a str>,
    /// At most so many steps.
    pub effort: u64,
    pub format: PlanFormat,
}

// The plan of an input, with which neither an order nor an effort goes.
fn of_input<'a>(input: Input<'a>, format: PlanFormat, line: &Line<'a>) -> Option<Request<'a>>
    ensures value { option_map request_view result
        ≡ planned_as (input_tasks (input_view input.entry)) (format_view format) line.now.options }
    ensures range { IfSome result (λ request. IsInRange (request_view request)) }
{
    if line.value("order").is_some() || line.value("effort").is_some() {
        return None;
    }
    Some(Request::Plan(input, format))
}

// The plan of a task graph.
fn of_graph<'a>(graph: &'a str, format: PlanFormat, line: &Line<'a>) -> Option<Request<'a>>
    ensures value { option_map request_view result ≡ planned_as (graph_tasks graph.now) (format_view format) line.now.options }
    ensures range { IfSome result (λ request. IsInRange (request_view request)) }
{
    let effort = effort_of(line.value("effort"))?;
    let order = line.value("order");
    Some(Request::PlanGraph(GraphPlan {
        graph,
        order,
        effort,
        format,
    }))
}

// The plan of tasks.
fn of_tasks<'a>(tasks: TaskSource<'a>, format: PlanFormat, line: &Line<'a>) -> Option<Request<'a>>
    ensures value { option_map request_view result ≡ planned_as (tasks_view tasks.entry) (format_view format) line.now.options }
    ensures range { IfSome result (λ request. IsInRange (request_view request)) }
{
    match tasks {
        TaskSource::Input(input) => of_input(input, format, line),
        TaskSource::Graph(graph) => of_graph(graph, format, line),
    }
}

// As one line of JSON, or as a plan file.
fn format_of(is_json: bool) -> PlanFormat
    ensures { format_view result ≡ format_of is_json }
{
    if is_json {
        PlanFormat::Json
    } else {
        PlanFormat::File
    }
}

/// `plan`, an input or a task graph, and `--print text` or `--print json` if it is given; with a task graph, `--order NAME` and
/// `--effort E` if they are given.
pub fn plan_of<'a>(line: &Line<'a>) -> Option<Request<'a>>
    ensures value { option_map request_view result ≡ plan_of line.now.options }
    ensures range { IfSome result (λ request. IsInRange (request_view request)) }
{
    let tasks = tasks_of(line)?;
    let is_json = is_second(line.value("print"), "text", "json")?;
    of_tasks(tasks, format_of(is_json), line)
}
