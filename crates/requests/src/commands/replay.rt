//! `replay`: what its words ask for.

ghost use Rattle.std.specs.Prelude.{◌≡◌, IfSome, option_map};
ghost use Rattle.requests.specs.Words.{replay_of};
ghost use Rattle.requests.specs.Request.{IsInRange};
ghost use Rattle.requests.specs.RequestViews.{request_view};

use crate::request::{OrderSource, Request, TaskSource, source_of, tasks_of};
use command_line::Line;

/// Tasks, and where their order stands.
#[derive(Clone, Copy, Debug)]
pub struct Replay<'a> {
    pub tasks: TaskSource<'a>,
    pub source: OrderSource<'a>,
}

/// `replay`, an input or a task graph, and `--order NAME` or `--plan NAME`.
pub fn replay_of<'a>(line: &Line<'a>) -> Option<Request<'a>>
    ensures value { option_map request_view result ≡ replay_of line.now.options }
    ensures range { IfSome result (λ request. IsInRange (request_view request)) }
{
    let tasks = tasks_of(line)?;
    let source = source_of(line.value("order"), line.value("plan"))?;
    Some(Request::Replay(Replay { tasks, source }))
}
