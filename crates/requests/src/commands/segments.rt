//! `segments`: what its words ask for.

ghost use Rattle.std.specs.Prelude.{◌≡◌, ◌<◌, IfSome, option_map};
ghost use Rattle.requests.specs.Words.{segments_of};
ghost use Rattle.requests.specs.Request.{IsInRange};
ghost use Rattle.requests.specs.RequestViews.{request_view};

use crate::request::{Request, input_of};
use command_line::Line;

/// `segments` and an input.
pub fn segments_of<'a>(line: &Line<'a>) -> Option<Request<'a>>
    ensures value { option_map request_view result ≡ segments_of line.now.options }
    ensures range { IfSome result (λ request. IsInRange (request_view request)) }
{
    let input = input_of(line)?;
    Some(Request::Segments(input))
}
