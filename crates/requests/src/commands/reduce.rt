//! `reduce`: what its words ask for.

ghost use Rattle.std.specs.Prelude.{◌≡◌, IfSome, option_map};
ghost use Rattle.requests.specs.Words.{reduce_of, reduced_with};
ghost use Rattle.requests.specs.Request.{IsInRange};
ghost use Rattle.requests.specs.RequestViews.{request_view};

use crate::request::{OrderSource, Request, source_given};
use command_line::Line;

/// A task graph, and where an order of the tasks of its term stands.
#[derive(Clone, Copy, Debug)]
pub struct Carried<'a> {
    pub graph: &'a str,
    pub source: OrderSource<'a>,
}

/// `reduce` and the name of a graph file; and `--order NAME` or `--plan NAME` for an order of the tasks of its term.
pub fn reduce_of<'a>(line: &Line<'a>) -> Option<Request<'a>>
    ensures value { option_map request_view result ≡ reduce_of line.now.options }
    ensures range { IfSome result (λ request. IsInRange (request_view request)) }
{
    let graph = line.value("graph")?;
    match source_given(line.value("order"), line.value("plan"))? {
        None => Some(Request::Reduce(graph)),
        Some(source) => Some(Request::Carry(Carried { graph, source })),
    }
}
