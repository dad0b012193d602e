//! Loads and writes that fail, and sinks that are full.

use super::commands::{
    ABREAST, BOTH, BOUND, CARRIED, CARRY, CHECK_FENCES, CHECK_GRAPH, COLUMNS, FENCE, FENCED, FILES,
    FRONTS, OF_ARROW, OF_FIVE, PLAN_GRAPH, PLAN_OF_ZIGZAG, PLANNED_FENCE, PLANNING, REDUCE, REPLAY,
    SEGMENTS, SIMULATE, SPILL, STANDING, STILL, TIGHT, WORKFLOW,
};
use super::{check_run, files_of, run_into};
use mp_outside::MemSink;
use reports::Status::{self, Done, ReadFault, WriteFault};
use std::alloc::{AllocError, Global};
use std::process::Abort;
use std::str;
use std::test::Fail;
use std::thread::Threads;

// Loads in pieces of 3 bytes: the tree has 59 bytes, the order and the priority 10 each, and each file ends with a load that gives nothing.
const OF_TREE: u64 = 20 + 1;

const OF_NUMBERS: u64 = 4 + 1;

// Of the matrix there are 69 bytes, of its permutation 8, and of the graph 75.
const OF_MATRIX: u64 = 23 + 1;

const OF_PERM: u64 = 3 + 1;

const OF_GRAPH: u64 = 25 + 1;

// Of an order of its three fronts there are 6 bytes.
const OF_ORDER: u64 = 2 + 1;

// Of an order of the tasks of the term of the graph there are 8 bytes.
const OF_CARRIED: u64 = 3 + 1;

// Of the graph without tasks there are 33 bytes, of its plan 43.
const OF_IDLE: u64 = 11 + 1;

const OF_BOUNDED: u64 = 15 + 1;

// Of the graph that is not series-parallel there are 74 bytes, of an order of its tasks 8.
const OF_ZIGZAG: u64 = 25 + 1;

const OF_WORSE: u64 = 3 + 1;

// Of the tree of one node there are 27 bytes, of the order of its one task 2, of fences for it 67.
const OF_ONE: u64 = 9 + 1;

const OF_NUMBER: u64 = 1 + 1;

const OF_FENCES: u64 = 23 + 1;

// Runs, the loads of each, and all that it prints.
#[rattlefmt::skip]
const RUNS: &[(&str, u64, &str)] = &[
    (REPLAY, OF_TREE + OF_NUMBERS, "peak 11\n"),
    (SIMULATE, OF_TREE + OF_NUMBERS + OF_NUMBERS, TIGHT),
    (SPILL, OF_TREE + OF_NUMBERS, BOTH),
    (SEGMENTS, OF_TREE, OF_FIVE),
    (FRONTS, OF_MATRIX + OF_PERM, ABREAST),
    (COLUMNS, OF_MATRIX + OF_PERM + OF_ORDER, OF_ARROW),
    (REDUCE, OF_GRAPH, WORKFLOW),
    (CARRY, OF_GRAPH + OF_CARRIED, CARRIED),
    (BOUND, OF_IDLE, "bound 12\nneed 0\nend\n"),
    (CHECK_GRAPH, OF_IDLE + OF_BOUNDED, "yes 12 least\n"),
    (PLAN_GRAPH, OF_ZIGZAG + OF_WORSE, PLAN_OF_ZIGZAG),
    (FENCE, OF_ONE + OF_NUMBER, FENCED),
    (PLANNED_FENCE, OF_ONE, FENCED),
    (STANDING, OF_IDLE, STILL),
    (CHECK_FENCES, OF_ONE + OF_FENCES, "yes 9\n"),
];

// What a run without faults prints. A plan may be any of least peak: whether it is one is tested elsewhere.
fn printed(
    rt: &(impl Threads + Sync + Abort),
    alloc: Global,
    run: &str,
) -> Result<MemSink, AllocError> {
    let mut files = files_of(alloc, FILES)?;
    let mut sink = MemSink::new(alloc, 1000)?;
    let ended = run_into(rt, alloc, run, &mut files, &mut sink)?;
    assert_eq!(rt; ended, Done, "{run}");
    Ok(sink)
}

// ---- loads

// Each load of so many, in pieces of 3 bytes, fails in turn; a load after them is never made.
fn check_loads<R: Threads + Sync + Abort>(
    rt: &R,
    alloc: Global,
    run: &str,
    loads: u64,
    text: &str,
) -> Result<(), AllocError> {
    for load in 1..=loads.saturating_add(1) {
        let mut files = files_of(alloc, FILES)?;
        files.piece(3);
        files.fail_at(load)?;
        let (status, said) = if load <= loads {
            (ReadFault, "")
        } else {
            (Done, text)
        };
        check_run(rt, alloc, run, &mut files, status, said)?;
    }
    Ok(())
}

#[test]
fn each_load_fails_in_turn(rt: HostRuntime) -> Result<(), Fail> {
    for (run, loads, text) in RUNS {
        check_loads(&rt, rt.alloc(), run, *loads, text)?;
    }
    Ok(())
}

#[test]
fn each_load_for_a_plan_fails_in_turn(rt: HostRuntime) -> Result<(), Fail> {
    let plan = printed(&rt, rt.alloc(), PLANNING)?;
    let text = str::from_utf8(plan.written()).expect(&rt, "a plan is text");
    check_loads(&rt, rt.alloc(), PLANNING, OF_TREE, text)?;
    Ok(())
}

// ---- writes

// A sink takes so many bytes of what a run prints, which ends well where these are all of it.
fn check_taken<R: Threads + Sync + Abort>(
    rt: &R,
    alloc: Global,
    run: &str,
    mut sink: MemSink,
    text: &[u8],
    taken: usize,
) -> Result<(), AllocError> {
    let mut files = files_of(alloc, FILES)?;
    let status = if taken < text.len() { WriteFault } else { Done };
    let ended = run_into(rt, alloc, run, &mut files, &mut sink)?;
    assert_eq!(rt; ended, status, "{run}: {taken} bytes");
    assert_eq!(rt;
        Some(sink.written()),
        text.get(..taken),
        "{run}: {taken} bytes"
    );
    Ok(())
}

// A sink that takes pieces of so many bytes, and whose write of this number fails.
fn failing(alloc: Global, piece: usize, write: usize) -> Result<MemSink, AllocError> {
    let mut sink = MemSink::new(alloc, 1000)?;
    sink.piece(piece.max(1) as u64);
    sink.fail_at(write as u64)?;
    Ok(sink)
}

// Each write of a text, in pieces of so many bytes, fails in turn; a write after them is never made.
fn check_writes<R: Threads + Sync + Abort>(
    rt: &R,
    alloc: Global,
    run: &str,
    piece: usize,
    text: &[u8],
) -> Result<(), AllocError> {
    let mut taken = 0usize;
    for write in 1..=text.len().div_ceil(piece.max(1)).saturating_add(1) {
        let sink = failing(alloc, piece, write)?;
        check_taken(rt, alloc, run, sink, text, taken)?;
        taken = taken.saturating_add(piece).min(text.len());
    }
    Ok(())
}

// Of a text a sink takes as much as it has room for, in pieces of so many bytes.
fn check_rooms<R: Threads + Sync + Abort>(
    rt: &R,
    alloc: Global,
    run: &str,
    piece: u64,
    text: &[u8],
) -> Result<(), AllocError> {
    for room in 0..=text.len() {
        let mut sink = MemSink::new(alloc, room as u64)?;
        sink.piece(piece.max(1));
        check_taken(rt, alloc, run, sink, text, room)?;
    }
    Ok(())
}

#[test]
fn sinks_that_fail(rt: HostRuntime) -> Result<(), Fail> {
    for (run, _loads, text) in RUNS {
        check_writes(&rt, rt.alloc(), run, 1, text.as_bytes())?;
        check_writes(&rt, rt.alloc(), run, 5, text.as_bytes())?;
    }
    Ok(())
}

#[test]
fn sinks_that_are_full(rt: HostRuntime) -> Result<(), Fail> {
    for (run, _loads, text) in RUNS {
        check_rooms(&rt, rt.alloc(), run, 1000, text.as_bytes())?;
        check_rooms(&rt, rt.alloc(), run, 3, text.as_bytes())?;
    }
    Ok(())
}

#[test]
fn sinks_of_a_plan_that_fail(rt: HostRuntime) -> Result<(), Fail> {
    let plan = printed(&rt, rt.alloc(), PLANNING)?;
    check_writes(&rt, rt.alloc(), PLANNING, 1, plan.written())?;
    check_writes(&rt, rt.alloc(), PLANNING, 5, plan.written())?;
    Ok(())
}

#[test]
fn sinks_of_a_plan_that_are_full(rt: HostRuntime) -> Result<(), Fail> {
    let plan = printed(&rt, rt.alloc(), PLANNING)?;
    check_rooms(&rt, rt.alloc(), PLANNING, 1000, plan.written())?;
    check_rooms(&rt, rt.alloc(), PLANNING, 3, plan.written())?;
    Ok(())
}
