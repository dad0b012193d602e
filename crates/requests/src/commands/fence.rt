//! `fence`: what its words ask for.

ghost use Rattle.std.specs.Prelude.{◌≡◌, IfSome, option_map};
ghost use Rattle.requests.specs.Words.{fence_of, fencing_of, fewest_of, planned_fencing_of, standing_of};
ghost use Rattle.requests.specs.Request.{IsInRange};
ghost use Rattle.requests.specs.RequestViews.{request_view};

use crate::request::{
    OrderSource, Request, TaskSource, gives_any, is_second, number_given, source_of, tasks_of,
    workers_given,
};
use command_line::Line;

/// Tasks, where their order stands, and within what their runs are to be kept.
#[derive(Clone, Copy, Debug)]
pub struct Fencing<'a> {
    pub tasks: TaskSource<'a>,
    pub source: OrderSource<'a>,
    /// At most so much memory.
    pub bound: u64,
    /// At most so many tasks run at once, from 1 to 4,096; with none, any number of them.
    pub workers: Option<u32>,
    /// Whether fences are left out that the rest of them can do without.
    pub fewest: bool,
}

/// Tasks, whose order is to be planned, and within what their runs are to be kept.
#[derive(Clone, Copy, Debug)]
pub struct PlannedFencing<'a> {
    pub tasks: TaskSource<'a>,
    /// At most so much memory.
    pub bound: u64,
    /// At most so many tasks run at once, from 1 to 4,096; with none, any number of them.
    pub workers: Option<u32>,
    /// Whether fences are left out that the rest of them can do without.
    pub fewest: bool,
}

// `--fewest no|yes`, if it is given.
fn fewest_of(line: &Line<'_>) -> Option<bool>
    ensures { result ≡ fewest_of line.now.options }
{
    is_second(line.value("fewest"), "no", "yes")
}

// `fence`, an input or a task graph, an order of its tasks, the bound, and what else is given.
fn fencing_of<'a>(line: &Line<'a>) -> Option<Request<'a>>
    ensures value { option_map request_view result ≡ fencing_of line.now.options }
    ensures range { IfSome result (λ request. IsInRange (request_view request)) }
{
    let tasks = tasks_of(line)?;
    let source = source_of(line.value("order"), line.value("plan"))?;
    let bound = number_given(line.value("bound"))?;
    let workers = workers_given(line.value("workers"))?;
    let fewest = fewest_of(line)?;
    Some(Request::Fence(Fencing {
        tasks,
        source,
        bound,
        workers,
        fewest,
    }))
}

// `fence`, an input or a task graph, the bound, and what else is given.
fn planned_fencing_of<'a>(line: &Line<'a>) -> Option<Request<'a>>
    ensures value { option_map request_view result ≡ planned_fencing_of line.now.options }
    ensures range { IfSome result (λ request. IsInRange (request_view request)) }
{
    let tasks = tasks_of(line)?;
    let bound = number_given(line.value("bound"))?;
    let workers = workers_given(line.value("workers"))?;
    let fewest = fewest_of(line)?;
    Some(Request::PlannedFence(PlannedFencing {
        tasks,
        bound,
        workers,
        fewest,
    }))
}

// `fence`, an input or a task graph, and the workers if they are given.
fn standing_of<'a>(line: &Line<'a>) -> Option<Request<'a>>
    ensures value { option_map request_view result ≡ standing_of line.now.options }
    ensures range { IfSome result (λ request. IsInRange (request_view request)) }
{
    if gives_any(&["fewest"], line) {
        return None;
    }
    let tasks = tasks_of(line)?;
    let workers = workers_given(line.value("workers"))?;
    Some(Request::Standing(tasks, workers))
}

/// `fence`: of tasks along an order of them, which is given or planned, or as they stand.
pub fn fence_of<'a>(line: &Line<'a>) -> Option<Request<'a>>
    ensures value { option_map request_view result ≡ fence_of line.now.options }
    ensures range { IfSome result (λ request. IsInRange (request_view request)) }
{
    if gives_any(&["order", "plan"], line) {
        fencing_of(line)
    } else if gives_any(&["bound"], line) {
        planned_fencing_of(line)
    } else {
        standing_of(line)
    }
}
