//! `simulate`: what its words ask for.

ghost use Rattle.std.specs.Prelude.{◌≡◌, IfSome, option_map};
ghost use Rattle.requests.specs.Words.{simulate_of};
ghost use Rattle.requests.specs.Request.{IsInRange};
ghost use Rattle.requests.specs.RequestViews.{request_view};

use crate::request::{
    OrderSource, Request, TaskSource, number_given, number_up_to, source_of, tasks_of,
};
use command_line::Line;
use limits::MOST_WORKERS;

/// Tasks, where their order stands, and how their run is simulated.
#[derive(Clone, Copy, Debug)]
pub struct Simulation<'a> {
    pub tasks: TaskSource<'a>,
    pub source: OrderSource<'a>,
    /// At most so much memory.
    pub bound: u64,
    /// From 1 to 4,096.
    pub workers: u32,
    /// The name of a priority file; with none, the priority is that of the plan, or the order.
    pub priority: Option<&'a str>,
}

/// `simulate`, an input or a task graph, an order of its tasks, and the bound, the workers and the priority of its run.
pub fn simulate_of<'a>(line: &Line<'a>) -> Option<Request<'a>>
    ensures value { option_map request_view result ≡ simulate_of line.now.options }
    ensures range { IfSome result (λ request. IsInRange (request_view request)) }
{
    let tasks = tasks_of(line)?;
    let source = source_of(line.value("order"), line.value("plan"))?;
    let bound = number_given(line.value("bound"))?;
    let workers = number_up_to(u64::from(MOST_WORKERS), line.value("workers"))?;
    Some(Request::Simulate(Simulation {
        tasks,
        source,
        bound,
        workers,
        priority: line.value("priority"),
    }))
}
