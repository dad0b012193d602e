//! `columns`: what its words ask for.

ghost use Rattle.std.specs.Prelude.{◌≡◌, IfSome, option_map};
ghost use Rattle.requests.specs.Words.{columns_of};
ghost use Rattle.requests.specs.Request.{IsInRange, columns_format_of};
ghost use Rattle.requests.specs.RequestViews.{columns_format_view, request_view};

use crate::request::{Matrix, OrderSource, Request, is_second, matrix_of, source_given};
use command_line::Line;

/// How the columns of fronts are printed.
#[derive(Clone, Copy, Debug, PartialEq, Eq)]
pub enum ColumnsFormat {
    /// A line for each front.
    ByFront,
    /// As a permutation file.
    Perm,
}

/// A matrix, where an order of its fronts stands, and how their columns are printed.
#[derive(Clone, Copy, Debug)]
pub struct Columns<'a> {
    pub matrix: Matrix<'a>,
    /// With none, the fronts come by rising number.
    pub source: Option<OrderSource<'a>>,
    pub format: ColumnsFormat,
}

// As a permutation file, or a line for each front.
fn columns_format_of(is_perm: bool) -> ColumnsFormat
    ensures { columns_format_view result ≡ columns_format_of is_perm }
{
    if is_perm {
        ColumnsFormat::Perm
    } else {
        ColumnsFormat::ByFront
    }
}

/// `columns`, a matrix, `--order NAME` or `--plan NAME`, and `--print text` or `--print perm`, if they are given.
pub fn columns_of<'a>(line: &Line<'a>) -> Option<Request<'a>>
    ensures value { option_map request_view result ≡ columns_of line.now.options }
    ensures range { IfSome result (λ request. IsInRange (request_view request)) }
{
    let matrix = matrix_of(line.value("matrix")?, line)?;
    let source = source_given(line.value("order"), line.value("plan"))?;
    let is_perm = is_second(line.value("print"), "text", "perm")?;
    let format = columns_format_of(is_perm);
    Some(Request::Columns(Columns {
        matrix,
        source,
        format,
    }))
}
