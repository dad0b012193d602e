//! `spill`: what its words ask for.

ghost use Rattle.std.specs.Prelude.{◌≡◌, IfSome, option_map};
ghost use Rattle.requests.specs.Words.{spill_of};
ghost use Rattle.requests.specs.Request.{IsInRange};
ghost use Rattle.requests.specs.RequestViews.{request_view};

use crate::request::{OrderSource, Request, TaskSource, number_given, source_of, tasks_of};
use command_line::Line;

/// Tasks, where their order stands, and in how much memory they are to run.
#[derive(Clone, Copy, Debug)]
pub struct Spilling<'a> {
    pub tasks: TaskSource<'a>,
    pub source: OrderSource<'a>,
    /// At most so much memory.
    pub bound: u64,
}

/// `spill`, an input or a task graph, an order of its tasks, and the bound of its run.
pub fn spill_of<'a>(line: &Line<'a>) -> Option<Request<'a>>
    ensures value { option_map request_view result ≡ spill_of line.now.options }
    ensures range { IfSome result (λ request. IsInRange (request_view request)) }
{
    let tasks = tasks_of(line)?;
    let source = source_of(line.value("order"), line.value("plan"))?;
    let bound = number_given(line.value("bound"))?;
    Some(Request::Spill(Spilling {
        tasks,
        source,
        bound,
    }))
}
