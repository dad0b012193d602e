//! Orders of the tasks of a term, carried to its graph.

use super::{Texts, check_run, files_of};
use reports::Status::{self, Done, No, NotSeriesParallel};
use std::test::Fail;

// A graph of version 1, two tasks of which lie between a first and a last one. The tasks of its term are 3, 2, 4 and 1.
const BETWEEN: &str =
    "graph 1\ntasks 4\n0 0 1\n2 0 1\n3 0 1\n0 0 1\narcs 4\n1 2 5\n1 3 6\n2 4 1\n3 4 2\nend\n";

// One of version 2. Tasks 1, 2 and 3 read the 7, and supply task 4; task 5 stands alone. The tasks of its term are 5, 3, 2, 1, 4, and a join,
// which reads the 7 after the others, and so holds it while task 5 runs before it: with the join the peak of that order is 30.
const JOINED: &str =
    "graph 2\ntasks 5\n2 0 1\n0 0 1\n0 0 1\n0 3 1\n20 0 1\nitems 5\n7 0 1 2 3\n1 1 4\n1 2 4\n1 3 4\n4 4\nend\n";

// An order of its term's tasks, as a plan.
const PLAN: &str = "plan 1\norder 6\n4\n3\n2\n6\n1\n5\npeak 23\nclaims 0\nend\n";

// Task 4 reads what tasks 1 and 2 make, and task 3 what task 1 makes; once with arcs, once with items.
const ARCS: &str =
    "graph 1\ntasks 4\n0 0 1\n0 0 1\n0 0 1\n0 0 1\narcs 3\n1 3 5\n1 4 1\n2 4 2\nend\n";

const ITEMS: &str = "graph 2\ntasks 4\n0 0 1\n0 0 1\n0 0 1\n0 0 1\nitems 2\n1 1 3 4\n1 2 4\nend\n";

// Tasks 2 and 3 are taken out.
const REST: &str = "refused graph rest 5\n0 1\n0 4\n1 0\n1 4\n4 0\nend\n";

const USES: &str = "refused graph uses 5\n0 1\n0 4\n1 0\n1 4\n4 0\nend\n";

#[rattlefmt::skip]
const FILES: Texts = &[
    ("b", BETWEEN), ("j", JOINED), ("p", PLAN), ("a", ARCS), ("i", ITEMS), ("four", "4 2 1 3\n"), ("later", "1 2 3 4\n"),
    ("six", "4 3 2 1 6 5\n"), ("early", "4 3 2 1 5 6\n"), ("own", "1 2 3 5 4\n"),
];

#[rattlefmt::skip]
const ANSWERS: &[(&str, Status, &str)] = &[
    ("reduce --graph b --order four", Done, "peak 14\norder 4\n1\n2\n3\n4\nend\n"),
    ("reduce --graph b --order later", No, "no order 1 too-early\n"),
    ("reduce --graph j --order six", Done, "peak 23\norder 5\n1\n2\n3\n5\n4\nend\n"),
    ("reduce --graph j --plan p", Done, "peak 23\norder 5\n1\n2\n3\n5\n4\nend\n"),
    ("reduce --graph j --order early", No, "no order 5 too-early\n"),
    // an order of the graph is none of the term, which has a task more
    ("reduce --graph j --order own", No, "no order 4 too-early\n"),
    ("reduce --graph a --order four", NotSeriesParallel, REST),
    ("reduce --graph i --order four", NotSeriesParallel, USES),
];

#[test]
fn orders_are_carried(rt: HostRuntime) -> Result<(), Fail> {
    for (run, status, text) in ANSWERS {
        let mut files = files_of(rt.alloc(), FILES)?;
        check_run(&rt, rt.alloc(), run, &mut files, *status, text)?;
    }
    Ok(())
}
