//! `demo`: what its words ask for.

ghost use Rattle.std.specs.Prelude.{◌≡◌, ◌≤◌, ◌<◌, ◌*◌, IfSome, option_map};
ghost use Rattle.limits.specs.Limits.{most_tasks, most_mindeg};
ghost use Rattle.requests.specs.Words.{seeded_of, sides_of, kind_or_tree, made_of, demo_of};
ghost use Rattle.requests.specs.Request.{IsInRange, IsMakeable};
ghost use Rattle.requests.specs.RequestViews.{request_view};

use crate::request::{Request, number_given, number_up_to};
use command_line::Line;
use limits::{MOST_MINDEG, MOST_TASKS};

/// What is to be made.
#[derive(Clone, Copy, Debug)]
pub enum Demo {
    /// A random tree, of 1 to 10^6 tasks.
    Tree { seed: u64, tasks: u32 },
    /// A random workflow, of 1 to 10^6 tasks.
    Workflow { seed: u64, tasks: u32 },
    /// The tree of the fronts of a grid, of at most 50,000 vertices.
    Grid { rows: u32, cols: u32 },
}

// A seed and a number of tasks, without rows and columns.
fn seeded_of(line: &Line<'_>) -> Option<(u64, u32)>
    ensures value { result ≡ seeded_of line.now.options }
    ensures tasks { IfSome result (λ p. (1 ≤ p.1) × (p.1 ≤ most_tasks)) }
{
    if line.value("rows").is_some() || line.value("cols").is_some() {
        return None;
    }
    let seed = number_given(line.value("seed"))?;
    let tasks = number_up_to(MOST_TASKS, line.value("tasks"))?;
    Some((seed, tasks))
}

// Rows and columns, without a seed and tasks.
fn sides_of(line: &Line<'_>) -> Option<(u32, u32)>
    ensures value { result ≡ sides_of line.now.options }
    ensures few { IfSome result (λ p. (1 ≤ p.0) × (1 ≤ p.1) × (p.0 * p.1 ≤ most_mindeg)) }
{
    if line.value("seed").is_some() || line.value("tasks").is_some() {
        return None;
    }
    let rows = number_up_to(MOST_MINDEG, line.value("rows"))?;
    let cols = number_up_to(MOST_MINDEG, line.value("cols"))?;
    if u64::from(rows) * u64::from(cols) <= MOST_MINDEG {
        Some((rows, cols))
    } else {
        None
    }
}

// A tree, where no kind is given.
fn kind_or_tree<'a>(given: Option<&'a str>) -> &'a str
    ensures { result.now ≡ kind_or_tree (option_map (λ s. s.now) given.entry) }
{
    match given {
        Some(kind) => kind,
        None => "tree",
    }
}

// What is to be made.
fn made_of(kind: &str, line: &Line<'_>) -> Option<Demo>
    ensures value { result ≡ made_of kind.now line.now.options }
    ensures within { IfSome result IsMakeable }
{
    match kind {
        "tree" => {
            let (seed, tasks) = seeded_of(line)?;
            Some(Demo::Tree { seed, tasks })
        }
        "workflow" => {
            let (seed, tasks) = seeded_of(line)?;
            Some(Demo::Workflow { seed, tasks })
        }
        "grid" => {
            let (rows, cols) = sides_of(line)?;
            Some(Demo::Grid { rows, cols })
        }
        _ => None,
    }
}

/// `demo`, a kind if it is given, and the numbers of what is to be made.
pub fn demo_of<'a>(line: &Line<'a>) -> Option<Request<'a>>
    ensures value { option_map request_view result ≡ demo_of line.now.options }
    ensures range { IfSome result (λ request. IsInRange (request_view request)) }
{
    let kind = kind_or_tree(line.value("kind"));
    let made = made_of(kind, line)?;
    Some(Request::Demo(made))
}
