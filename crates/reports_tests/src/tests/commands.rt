//! Each command once, over files that it answers.

use super::{Texts, check_run, files_of};
use reports::Status::{Done, No};
use std::test::Fail;

// ---- inputs

pub const FIVE: &str = "tree 1\nnodes 5\n2 1 9 1\n5 5 0 1\n4 1 9 1\n5 5 0 1\n0 0 0 1\nend\n";

pub const PLAN: &str =
    "plan 1\norder 5\n1\n3\n2\n4\n5\npeak 11\nclaims 4\n5 R 5 5\n10 R 5 5\n11 R 10 10\n13 R 10 0\nend\n";

// Vertex 1 is joined to 2, 3 and 4.
pub const ARROW: &str =
    "%%MatrixMarket matrix coordinate pattern symmetric\n4 4 3\n2 1\n3 1\n4 1\n";

// An order of elimination that puts the middle of the arrow after two of its ends.
pub const TURNED: &str = "2 3 1 4\n";

// Two tasks between a first and a last one.
const GRAPH: &str =
    "graph 1\ntasks 4\n0 0 1\n2 0 1\n3 0 1\n0 0 1\narcs 4\n1 2 5\n1 3 6\n2 4 1\n3 4 2\nend\n";

// Two tasks read the 7, and the second the 2 of the first.
const CHAIN: &str = "graph 2\ntasks 2\n1 0 1\n1 0 1\nitems 2\n7 0 1 2\n2 1 2\nend\n";

// No task, and 12 that are there at the start; and its plan.
const IDLE: &str = "graph 2\ntasks 0\nitems 1\n12 0\nend\n";

const BOUNDED: &str = "plan 3\norder 0\npeak 12\nbound 12\nneed 0\nend\n";

// Task 3 reads what task 1 makes, task 4 what tasks 1 and 2 make: that is no series-parallel graph. In the one order of least peak task 3 runs
// beside the 5 that it reads, and makes 2; and an order whose peak is 8.
const ZIGZAG: &str =
    "graph 2\ntasks 4\n0 0 1\n0 0 1\n0 0 1\n0 0 1\nitems 4\n5 1 3\n0 1 4\n3 2 4\n2 3\nend\n";

const WORSE: &str = "1 2 3 4\n";

// One task with a block of its own.
const ONE: &str = "tree 1\nnodes 1\n0 7 2 1\nend\n";

// It draws all that it needs, and hands its block on to nobody.
pub const FENCED: &str =
    "fences 1\nbound 9\nworkers 0\nroom 0\njoins 0\nfences 0\namounts 1\n7\nend\n";

#[rattlefmt::skip]
pub const FILES: Texts = &[
    ("t", FIVE), ("o", "1 3 2 4 5\n"), ("p", "5 4 3 2 1\n"), ("m", ARROW), ("q", TURNED), ("g", GRAPH), ("h", CHAIN), ("s", PLAN), ("u", ONE), ("i", IDLE),
    ("b", BOUNDED), ("z", ZIGZAG), ("w", WORSE), ("x", "1\n"), ("f", FENCED), ("r", "2 1 3\n"), ("k", "1 3 2\n"), ("c", "4 2 1 3\n"),
];

// ---- runs

pub const REPLAY: &str = "replay --tree t --order o";

pub const PLANNING: &str = "plan --tree t";

pub const SIMULATE: &str = "simulate --tree t --order o --priority p --bound 11 --workers 2";

pub const SPILL: &str = "spill --tree t --order o --bound 10";

pub const SEGMENTS: &str = "segments --tree t";

pub const FRONTS: &str = "fronts --matrix m --perm q --bound 4 --workers 2";

pub const COLUMNS: &str = "columns --matrix m --perm q --order r";

pub const REDUCE: &str = "reduce --graph g";

pub const CARRY: &str = "reduce --graph g --order c";

pub const BOUND: &str = "bound --graph i";

pub const CHECK_GRAPH: &str = "check --graph i --plan b --workers 2";

pub const PLAN_GRAPH: &str = "plan --graph z --order w";

pub const FENCE: &str = "fence --tree u --order x --bound 9";

pub const PLANNED_FENCE: &str = "fence --tree u --bound 9";

pub const STANDING: &str = "fence --graph i";

pub const CHECK_FENCES: &str = "check --tree u --fences f";

// ---- what they print

// The tree of five nodes within its peak: one leaf after the other.
pub const TIGHT: &str =
    "makespan 5\nused 11\nbooked 11\nevents 15\n0 activate 1\n0 start 1\n1 finish 1\n1 activate 3\n1 start 3\n2 finish 3\n\
        2 activate 2\n2 start 2\n3 finish 2\n3 activate 4\n3 activate 5\n3 start 4\n4 finish 4\n4 start 5\n5 finish 5\nend\n";

// A unit of each of its first two blocks.
pub const BOTH: &str = "volume 2\nitems 2\n1 1\n2 1\nend\n";

// How low memory can come in its subtrees.
pub const OF_FIVE: &str =
    "segments 5\n1 F 0\n1 R 1 10 0\n2 F 0\n2 R 5 6 1 10 0\n3 F 0\n3 R 1 10 0\n4 F 0\n4 R 5 6 1 10 0\n5 F 0\n5 R 0\nend\n";

// Both ends of the arrow at once, then its middle.
pub const ABREAST: &str = "fronts 3\nrounds 2\nused 4\n1 2\n3\n1 3\n2 3\n3 4\nend\n";

// The middle of the arrow has a front with its last end, after those of the other ends: here that of 3 comes first.
pub const OF_ARROW: &str = "columns 3\n3\n2\n1 4\nend\n";

// Tasks with one arc in and one out are taken out from the last one on: here 3, then 2, beside it, then 4 and 1.
pub const WORKFLOW: &str =
    "workflow 1\ntasks 4\ndata 0\ndata 6\ndata 2\ntask 3 1\ndata 5\ndata 1\ntask 2 1\npar 2\ndata 0\ntask 0 1\ntask 0 1\nend\n\
    # 1 3\n# 2 2\n# 3 4\n# 4 1\n";

// By these names: after task 1, task 2 runs beside the 6, with its 2 and its 1.
pub const CARRIED: &str = "peak 14\norder 4\n1\n2\n3\n4\nend\n";

// Nothing runs beside the 12 that are there at the start.
pub const STILL: &str =
    "fences 1\nbound 12\nworkers 0\nroom 0\njoins 0\nfences 0\namounts 1\n12\nend\n";

// The need of task 3 is what no order has a peak below.
pub const PLAN_OF_ZIGZAG: &str = "plan 3\norder 4\n1\n3\n2\n4\npeak 7\nbound 7\nneed 3\nend\n";

#[rattlefmt::skip]
const ANSWERS: &[(&str, &str)] = &[
    (REPLAY, "peak 11\n"),
    ("tree --matrix m --perm q", "tree 1\nnodes 3\n3 1 2 1\n3 1 2 1\n0 0 3 2\nend\n"),
    ("post --tree t", "peak 15\norder 5\n1\n2\n3\n4\n5\nend\n"),
    ("plan --tree u", "plan 1\norder 1\n1\npeak 9\nclaims 1\n3 R 8 7\nend\n"),
    ("check --tree t --plan s", "yes 11\n"),
    (SIMULATE, TIGHT),
    (SPILL, BOTH),
    (SEGMENTS, OF_FIVE),
    (FRONTS, ABREAST),
    (COLUMNS, OF_ARROW),
    ("columns --matrix m --ordering mindeg", "columns 3\n2\n3\n1 4\nend\n"),
    ("columns --matrix m --perm q --order r --print perm", "3\n2\n1\n4\n"),
    (REDUCE, WORKFLOW),
    (CARRY, CARRIED),
    (BOUND, "bound 12\nneed 0\nend\n"),
    (CHECK_GRAPH, "yes 12 least\n"),
    (PLAN_GRAPH, PLAN_OF_ZIGZAG),
    (FENCE, FENCED),
    (PLANNED_FENCE, FENCED),
    (STANDING, STILL),
    (CHECK_FENCES, "yes 9\n"),
    ("reduce --graph h", "workflow 1\ntasks 2\ndata 7\ndata 0\ndata 2\ntask 1 1\npar 2\ndata 0\ntask 1 1\nend\n# 1 1\n# 2 2\n"),
    ("upgrade --tree t", "tree 2\nnodes 5\n2 1 9 0 1\n5 5 0 0 1\n4 1 9 0 1\n5 5 0 0 1\n0 0 0 0 1\nend\n"),
    // a root alone, with a block of 850 and an extra of 764
    ("demo --seed 1 --tasks 1", "demo tree\ntasks 1\npositions 3\npeak 1614\npostorder 1614\ncheck yes\nend\n"),
];

#[test]
fn each_command_answers(rt: HostRuntime) -> Result<(), Fail> {
    for (run, text) in ANSWERS {
        let mut files = files_of(rt.alloc(), FILES)?;
        check_run(&rt, rt.alloc(), run, &mut files, Done, text)?;
    }
    Ok(())
}

// The front of the middle of the arrow comes before one of its children.
#[test]
fn a_front_before_its_child(rt: HostRuntime) -> Result<(), Fail> {
    let run = "columns --matrix m --perm q --order k";
    let mut files = files_of(rt.alloc(), FILES)?;
    check_run(
        &rt,
        rt.alloc(),
        run,
        &mut files,
        No,
        "no order 2 too-early\n",
    )?;
    Ok(())
}
