//! The checker judges its chunks, and a round makes its fronts, on threads: two of them meet.

use super::commands::{ABREAST, ARROW, FIVE, PLAN, TURNED};
use super::{Texts, files_of, words_of};
use mp_outside::{Gate, MemSink};
use reports::{Status, run_words};
use std::alloc::Global;
use std::process::Abort;
use std::sync::atomic::{AtomicBool, Ordering};
use std::test::Fail;
use std::thread::{Threads, yield_now};

// Holds each of the first two tasks until the other has entered, for so many looks at most.
#[derive(Drop)]
struct Meeting {
    first: AtomicBool,
    second: AtomicBool,
    gave_up: AtomicBool,
}

impl Gate for Meeting {
    fn enter(&self, task: u32) {
        let (mine, other) = match task {
            0 => (&self.first, &self.second),
            1 => (&self.second, &self.first),
            _ => return,
        };
        mine.store(true, Ordering::SeqCst);
        for _ in 0..10_000_000u32 {
            if other.load(Ordering::SeqCst) {
                return;
            }
            yield_now();
        }
        self.gave_up.store(true, Ordering::SeqCst);
    }
}

// Where none has come yet.
fn awaited() -> Meeting {
    Meeting {
        first: AtomicBool::new(false),
        second: AtomicBool::new(false),
        gave_up: AtomicBool::new(false),
    }
}

// What a run prints that passes this gate.
fn printed<R: Threads + Sync + Abort>(
    rt: &R,
    alloc: Global,
    run: &str,
    texts: &[(&str, &str)],
    gate: &Meeting,
) -> Result<MemSink, Fail> {
    let mut files = files_of(alloc, texts)?;
    let words = words_of(alloc, run)?;
    let mut sink = MemSink::new(alloc, 100)?;
    let status = run_words(rt, alloc, &words, &mut files, &mut sink, gate);
    assert_eq!(rt; status, Status::Done);
    Ok(sink)
}

// Both have come, and neither gave up.
fn check_met(rt: &impl Abort, gate: &Meeting) {
    assert!(rt; gate.first.load(Ordering::SeqCst));
    assert!(rt; gate.second.load(Ordering::SeqCst));
    assert!(rt; !gate.gave_up.load(Ordering::SeqCst));
}

// Both come, neither gives up, and the run prints this text.
fn check_meeting<R: Threads + Sync + Abort>(
    rt: &R,
    alloc: Global,
    run: &str,
    texts: &[(&str, &str)],
    text: &str,
) -> Result<(), Fail> {
    let gate = awaited();
    let sink = printed(rt, alloc, run, texts, &gate)?;
    assert_eq!(rt; sink.written(), text.as_bytes());
    check_met(rt, &gate);
    Ok(())
}

const TREE_AND_PLAN: Texts = &[("t", FIVE), ("p", PLAN)];

// The tree as a graph, and one of its leaves starts last.
#[rattlefmt::skip]
const GRAPH_AND_PLAN: Texts = &[
    ("g", "graph 2\ntasks 5\n9 0 1\n0 0 1\n9 0 1\n0 0 1\n0 0 1\nitems 5\n1 1 2\n5 2 5\n1 3 4\n5 4 5\n0 5\nend\n"),
    ("p", "plan 3\norder 5\n1\n3\n2\n4\n5\npeak 11\nbound 11\nlast 2\nbase 2\n1 1\n2 1\nblocker 1 4\n1 0\n2 0\n3 1\n4 1\nblocker 3 0\nend\n"),
];

const MATRIX_AND_ORDER: Texts = &[("m", ARROW), ("p", TURNED)];

#[test]
fn two_chunks_are_judged_at_once(rt: HostRuntime) -> Result<(), Fail> {
    let run = "check --tree t --plan p --workers 2";
    check_meeting(&rt, rt.alloc(), run, TREE_AND_PLAN, "yes 11\n")
}

#[test]
fn two_blockers_are_judged_at_once(rt: HostRuntime) -> Result<(), Fail> {
    let run = "check --graph g --plan p --workers 2";
    check_meeting(&rt, rt.alloc(), run, GRAPH_AND_PLAN, "yes 11 least\n")
}

// In the second round both have come, so its one front passes.
#[test]
fn two_fronts_are_made_at_once(rt: HostRuntime) -> Result<(), Fail> {
    let run = "fronts --matrix m --perm p --bound 4 --workers 2";
    check_meeting(&rt, rt.alloc(), run, MATRIX_AND_ORDER, ABREAST)
}
