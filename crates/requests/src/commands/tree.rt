//! `tree`: what its words ask for.

ghost use Rattle.std.specs.Prelude.{◌≡◌, IfSome, option_map};
ghost use Rattle.requests.specs.Words.{tree_request_of};
ghost use Rattle.requests.specs.Request.{IsInRange};
ghost use Rattle.requests.specs.RequestViews.{request_view};

use crate::request::{Request, matrix_of};
use command_line::Line;

/// `tree` and a matrix.
pub fn tree_request_of<'a>(line: &Line<'a>) -> Option<Request<'a>>
    ensures value { option_map request_view result ≡ tree_request_of line.now.options }
    ensures range { IfSome result (λ request. IsInRange (request_view request)) }
{
    let matrix = matrix_of(line.value("matrix")?, line)?;
    Some(Request::Tree(matrix))
}
