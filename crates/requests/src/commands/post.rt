//! `post`: what its words ask for.

ghost use Rattle.std.specs.Prelude.{◌≡◌, IfSome, option_map};
ghost use Rattle.requests.specs.Words.{post_of};
ghost use Rattle.requests.specs.Request.{IsInRange};
ghost use Rattle.requests.specs.RequestViews.{request_view};

use crate::request::{Request, tree_input_of};
use command_line::Line;

/// `post` and a tree or a matrix.
pub fn post_of<'a>(line: &Line<'a>) -> Option<Request<'a>>
    ensures value { option_map request_view result ≡ post_of line.now.options }
    ensures range { IfSome result (λ request. IsInRange (request_view request)) }
{
    let input = tree_input_of(line)?;
    Some(Request::Post(input))
}
