//! `fronts`: what its words ask for.

ghost use Rattle.std.specs.Prelude.{◌≡◌, IfSome, option_map};
ghost use Rattle.requests.specs.Words.{fronts_of};
ghost use Rattle.requests.specs.Request.{IsInRange};
ghost use Rattle.requests.specs.RequestViews.{request_view};

use crate::request::{OrderedMatrix, Request, number_given, number_up_to, ordering_given};
use command_line::Line;
use limits::MOST_WORKERS;

/// A matrix with the order of its elimination, and how the rows of its fronts are made.
#[derive(Clone, Copy, Debug)]
pub struct FrontRun<'a> {
    pub matrix: OrderedMatrix<'a>,
    /// At most so many rows are held.
    pub bound: u64,
    /// From 1 to 4,096.
    pub workers: u32,
}

/// `fronts`, a matrix and the order of its elimination, and the bound and the workers of the run.
pub fn fronts_of<'a>(line: &Line<'a>) -> Option<Request<'a>>
    ensures value { option_map request_view result ≡ fronts_of line.now.options }
    ensures range { IfSome result (λ request. IsInRange (request_view request)) }
{
    let name = line.value("matrix")?;
    let ordering = ordering_given(line)?;
    let bound = number_given(line.value("bound"))?;
    let workers = number_up_to(u64::from(MOST_WORKERS), line.value("workers"))?;
    let matrix = OrderedMatrix { name, ordering };
    Some(Request::Fronts(FrontRun {
        matrix,
        bound,
        workers,
    }))
}
