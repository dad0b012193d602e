//! `check`: what its words ask for.

ghost use Rattle.std.specs.Prelude.{◌≡◌, IfSome, [], ◌∷◌, codes, option_map};
ghost use Rattle.requests.specs.Words.{check_of, checked_of, checking, fences_checked};
ghost use Rattle.requests.specs.Request.{AreWorkers, IsInRange};
ghost use Rattle.requests.specs.RequestViews.{request_view, tasks_view};

use crate::request::{Input, Request, TaskSource, tasks_of, workers_of};
use command_line::Line;

/// An input, the name of a plan file, and by how many workers its claims are judged.
#[derive(Clone, Copy, Debug)]
pub struct Check<'a> {
    pub input: Input<'a>,
    pub plan: &'a str,
    /// From 1 to 4,096.
    pub workers: u32,
}

/// The names of the files of a task graph and of a plan with a bound, and by how many workers its evidence is judged.
#[derive(Clone, Copy, Debug)]
pub struct GraphCheck<'a> {
    pub graph: &'a str,
    pub plan: &'a str,
    /// From 1 to 4,096.
    pub workers: u32,
}

/// Tasks, and the name of a file of fences.
#[derive(Clone, Copy, Debug)]
pub struct FenceCheck<'a> {
    pub tasks: TaskSource<'a>,
    pub fences: &'a str,
}

// The check of a plan, of an input or of a task graph.
fn checking<'a>(tasks: TaskSource<'a>, plan: &'a str, workers: u32) -> Request<'a>
    requires { AreWorkers workers }
    ensures value { request_view result ≡ checking (tasks_view tasks.entry) plan.entry.now workers }
    ensures range { IsInRange (request_view result) }
{
    match tasks {
        TaskSource::Input(input) => Request::Check(Check {
            input,
            plan,
            workers,
        }),
        TaskSource::Graph(graph) => Request::CheckGraph(GraphCheck {
            graph,
            plan,
            workers,
        }),
    }
}

// The check of fences, which are for a number of workers of their own.
fn fences_checked<'a>(
    tasks: TaskSource<'a>,
    fences: &'a str,
    line: &Line<'a>,
) -> Option<Request<'a>>
    ensures value { option_map request_view result ≡ fences_checked (tasks_view tasks.entry) fences.entry.now line.now.options }
    ensures range { IfSome result (λ request. IsInRange (request_view request)) }
{
    if line.value("workers").is_some() {
        return None;
    }
    Some(Request::CheckFences(FenceCheck { tasks, fences }))
}

/// `check`, an input or a task graph, and `--plan NAME`, with `--workers N` if it is given, or `--fences NAME`.
pub fn check_of<'a>(line: &Line<'a>) -> Option<Request<'a>>
    ensures value { option_map request_view result ≡ check_of line.now.options }
    ensures range { IfSome result (λ request. IsInRange (request_view request)) }
{
    let tasks = tasks_of(line)?;
    match (line.value("plan"), line.value("fences")) {
        (None, None) => None,
        (None, Some(fences)) => fences_checked(tasks, fences, line),
        (Some(plan), None) => {
            let workers = workers_of(line.value("workers"))?;
            Some(checking(tasks, plan, workers))
        }
        (Some(_), Some(_)) => None,
    }
}
