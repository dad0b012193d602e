//! The commands, each with the words that ask for it.

pub mod bound;
pub mod check;
pub mod columns;
pub mod demo;
pub mod fence;
pub mod fronts;
pub mod plan;
pub mod post;
pub mod reduce;
pub mod replay;
pub mod segments;
pub mod simulate;
pub mod spill;
pub mod tree;
pub mod upgrade;

ghost use Rattle.std.specs.Prelude.{◌≡◌, IfOk, IfSome, map, string_bytes, option_map};
ghost use Rattle.requests.specs.Words.{command_of, request_of};
ghost use Rattle.requests.specs.Request.{IsInRange};
ghost use Rattle.requests.specs.RequestViews.{request_view};

use crate::request::{INPUT, MATRIX, MATRIX_OPTIONS, Request, TREE};
use command_line::{Line, Shape, read_words};
use std::alloc::{AllocError, Global};

// Each command, with the names of its options.
static COMMANDS: [Shape; 15] = [
    Shape {
        name: "replay",
        options: &[&["order", "plan", "graph"], INPUT, MATRIX_OPTIONS],
    },
    Shape {
        name: "tree",
        options: &[MATRIX, MATRIX_OPTIONS],
    },
    Shape {
        name: "post",
        options: &[TREE, MATRIX_OPTIONS],
    },
    Shape {
        name: "check",
        options: &[
            &["plan", "fences", "workers", "graph"],
            INPUT,
            MATRIX_OPTIONS,
        ],
    },
    Shape {
        name: "plan",
        options: &[
            &["print", "order", "effort", "graph"],
            INPUT,
            MATRIX_OPTIONS,
        ],
    },
    Shape {
        name: "simulate",
        options: &[
            &["order", "plan", "bound", "workers", "priority", "graph"],
            INPUT,
            MATRIX_OPTIONS,
        ],
    },
    Shape {
        name: "demo",
        options: &[&["kind", "seed", "tasks", "rows", "cols"]],
    },
    Shape {
        name: "upgrade",
        options: &[&["tree", "workflow", "graph", "plan", "priority"]],
    },
    Shape {
        name: "spill",
        options: &[&["order", "plan", "bound", "graph"], INPUT, MATRIX_OPTIONS],
    },
    Shape {
        name: "segments",
        options: &[INPUT, MATRIX_OPTIONS],
    },
    Shape {
        name: "fronts",
        options: &[&["bound", "workers", "matrix", "perm", "iperm", "ordering"]],
    },
    Shape {
        name: "reduce",
        options: &[&["graph", "order", "plan"]],
    },
    Shape {
        name: "bound",
        options: &[&["graph", "order", "effort"]],
    },
    Shape {
        name: "fence",
        options: &[
            &["order", "plan", "bound", "workers", "fewest", "graph"],
            INPUT,
            MATRIX_OPTIONS,
        ],
    },
    Shape {
        name: "columns",
        options: &[&["print", "order", "plan"], MATRIX, MATRIX_OPTIONS],
    },
];

fn command_of<'a>(line: &Line<'a>) -> Option<Request<'a>>
    ensures value { option_map request_view result ≡ command_of line.now }
    ensures range { IfSome result (λ request. IsInRange (request_view request)) }
{
    match line.command() {
        "replay" => replay::replay_of(line),
        "tree" => tree::tree_request_of(line),
        "post" => post::post_of(line),
        "check" => check::check_of(line),
        "plan" => plan::plan_of(line),
        "simulate" => simulate::simulate_of(line),
        "demo" => demo::demo_of(line),
        "upgrade" => upgrade::upgrade_of(line),
        "spill" => spill::spill_of(line),
        "segments" => segments::segments_of(line),
        "fronts" => fronts::fronts_of(line),
        "reduce" => reduce::reduce_of(line),
        "bound" => bound::bound_of(line),
        "fence" => fence::fence_of(line),
        "columns" => columns::columns_of(line),
        _ => None,
    }
}

/// The request of the words after the program's name, if they have one.
pub fn request_of(alloc: Global, words: &[String]) -> Result<Option<Request<'_>>, AllocError>
    ensures value { IfOk result (λ request. option_map request_view request ≡ request_of (map (λ w. string_bytes w) words.now)) }
    ensures range { IfOk result (λ request. IfSome request (λ r. IsInRange (request_view r))) }
{
    let Some(line) = read_words(alloc, &COMMANDS, words)? else {
        return Ok(None);
    };
    Ok(command_of(&line))
}
