//! `bound`: what its words ask for.

ghost use Rattle.std.specs.Prelude.{◌≡◌, IfSome, option_map};
ghost use Rattle.requests.specs.Words.{bound_of};
ghost use Rattle.requests.specs.Request.{IsInRange};
ghost use Rattle.requests.specs.RequestViews.{request_view};

use crate::request::{Request, effort_of};
use command_line::Line;

/// A task graph and an order of its tasks, by the names of their files, and how much is searched.
#[derive(Clone, Copy, Debug)]
pub struct Bounding<'a> {
    pub graph: &'a str,
    /// With one, its peak is told too.
    pub order: Option<&'a str>,
    /// At most so many steps.
    pub effort: u64,
}

/// `bound`, `--graph NAME`, and `--order NAME` and `--effort E` if they are given.
pub fn bound_of<'a>(line: &Line<'a>) -> Option<Request<'a>>
    ensures value { option_map request_view result ≡ bound_of line.now.options }
    ensures range { IfSome result (λ request. IsInRange (request_view request)) }
{
    let graph = line.value("graph")?;
    let effort = effort_of(line.value("effort"))?;
    let order = line.value("order");
    Some(Request::Bound(Bounding {
        graph,
        order,
        effort,
    }))
}
