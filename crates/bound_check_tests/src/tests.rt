//! What is said of plans with a bound: each kind of yes, and each objection.

ghost use Rattle.std.specs.Prelude.{◌≤◌};
ghost use Rattle.limits.specs.Limits.{most_workers};

use bound_check::{BoundObjection, BoundVerdict, check_bounded};
use bounded_plan_files::read_bounded_plan;
use claim_check::Shape;
use mp_outside::{Gate, NoGate};
use mp_system::{OrderFault, OrderKind};
use peak_bounds::{BlockerTest, Objection};
use shared_graph_files::read_shared_graph;
use state_search::StatesObjection;
use std::alloc::Global;
use std::process::Abort;
use std::rt::HostRuntime;
use std::sync::atomic::{AtomicU32, Ordering};
use std::test::Fail;
use std::thread::Threads;

// Task 2 reads what task 1 makes, task 4 what task 3 makes, and task 5 what tasks 2 and 4 make; the least peak is 11.
const FIVE: &str =
    "graph 2\ntasks 5\n9 0 1\n0 0 1\n9 0 1\n0 0 1\n0 0 1\nitems 5\n1 1 2\n5 2 5\n1 3 4\n5 4 5\n0 5\nend\n";

// Tasks 3 and 4 read what task 1 makes, and task 4 what task 2 makes: no term has these uses.
const CROSSING: &str =
    "graph 2\ntasks 4\n0 0 1\n0 0 1\n0 0 1\n0 0 1\nitems 2\n1 1 3 4\n1 2 4\nend\n";

// What is said of a plan for a graph.
fn verdict<R: Threads + Sync, G: Gate>(
    rt: &R,
    alloc: Global,
    graph: &str,
    plan: &str,
    workers: u32,
    gate: &G,
) -> Result<BoundVerdict, Fail>
    requires { (1 ≤ workers) × (workers ≤ most_workers) }
{
    let system = read_shared_graph(alloc, graph.as_bytes())?;
    let plan = read_bounded_plan(alloc, plan.as_bytes())?;
    Ok(check_bounded(rt, alloc, &system, &plan, workers, gate)?)
}

// Plans of the five tasks, and what is said of them by one worker and by three.
fn check_plans<R: Threads + Sync + Abort>(
    rt: &R,
    alloc: Global,
    rows: &[(&str, BoundVerdict)],
) -> Result<(), Fail> {
    for (plan, expected) in rows {
        for workers in [1, 3] {
            let said = verdict(rt, alloc, FIVE, plan, workers, &NoGate)?;
            assert_eq!(rt; said, *expected, "of {plan:?}");
        }
    }
    Ok(())
}

// A plan whose bound shows by what one of the leaves finds that starts last, and one by claims on the term of the graph, in which a chain
// is a task before the rest of it.
#[rattlefmt::skip]
const BY_SET: &str =
    "plan 3\norder 5\n1\n3\n2\n4\n5\npeak 11\nbound 11\nlast 2\nbase 2\n1 1\n2 1\nblocker 1 4\n1 0\n2 0\n3 1\n4 1\nblocker 3 0\nend\n";

#[rattlefmt::skip]
const BY_CLAIMS: &str =
    "plan 3\norder 5\n1\n3\n2\n4\n5\npeak 11\nbound 11\nclaims 6\n4 R 5 5\n5 R 5 5\n9 R 5 5\n10 R 5 5\n11 R 10 10\n13 R 10 0\nend\n";

// Besides, bounds below the peak: by what the last task reads, by what is there at the start, and by claims, the first of which no other
// needs.
#[rattlefmt::skip]
const ACCEPTED: &[(&str, BoundVerdict)] = &[
    (BY_SET, BoundVerdict::Least(11)),
    (BY_CLAIMS, BoundVerdict::Least(11)),
    ("plan 3\norder 5\n1\n2\n3\n4\n5\npeak 15\nbound 10\nneed 5\nend\n", BoundVerdict::Above { peak: 15, bound: 10 }),
    ("plan 3\norder 5\n1\n3\n2\n4\n5\npeak 11\nbound 0\nneed 0\nend\n", BoundVerdict::Above { peak: 11, bound: 0 }),
    ("plan 3\norder 5\n1\n2\n3\n4\n5\npeak 15\nbound 11\nclaims 7\n\
        3 R 4 5\n4 R 5 5\n5 R 5 5\n9 R 5 5\n10 R 5 5\n11 R 10 10\n13 R 10 0\nend\n",
        BoundVerdict::Above { peak: 15, bound: 11 }),
];

#[test]
fn plans_that_are_accepted(rt: HostRuntime) -> Result<(), Fail> {
    check_plans(&rt, rt.alloc(), ACCEPTED)
}

// The order, the peak, and then the sums: a task that is none, one that needs less, less at the start, and a blocker below the bound.
#[rattlefmt::skip]
const ORDERS_AND_SUMS: &[(&str, BoundVerdict)] = &[
    ("plan 3\norder 5\n2\n1\n3\n4\n5\npeak 10\nbound 11\nneed 6\nend\n",
        BoundVerdict::No(BoundObjection::Order(OrderFault { place: 1, kind: OrderKind::TooEarly }))),
    ("plan 3\norder 5\n1\n3\n2\n4\n5\npeak 10\nbound 11\nneed 6\nend\n",
        BoundVerdict::No(BoundObjection::Peak { replayed: 11, printed: 10 })),
    ("plan 3\norder 5\n1\n3\n2\n4\n5\npeak 11\nbound 0\nneed 6\nend\n", BoundVerdict::No(BoundObjection::Sums(Objection::NoTask))),
    ("plan 3\norder 5\n1\n3\n2\n4\n5\npeak 11\nbound 11\nneed 5\nend\n", BoundVerdict::No(BoundObjection::Sums(Objection::Low))),
    ("plan 3\norder 5\n1\n3\n2\n4\n5\npeak 11\nbound 1\nneed 0\nend\n", BoundVerdict::No(BoundObjection::Sums(Objection::Low))),
    ("plan 3\norder 5\n1\n3\n2\n4\n5\npeak 11\nbound 12\nlast 2\nbase 2\n1 1\n2 1\nblocker 1 4\n1 0\n2 0\n3 1\n4 1\nblocker 3 0\nend\n",
        BoundVerdict::No(BoundObjection::Sums(Objection::Blocker { test: BlockerTest::Level, place: 1 }))),
];

#[test]
fn orders_peaks_and_sums_are_objected_to(rt: HostRuntime) -> Result<(), Fail> {
    check_plans(&rt, rt.alloc(), ORDERS_AND_SUMS)
}

// No claim on the whole, or one that is too low; and then the lowest claim that fails, at a position of the term or past the last.
#[rattlefmt::skip]
const CLAIMS: &[(&str, BoundVerdict)] = &[
    ("plan 3\norder 5\n1\n3\n2\n4\n5\npeak 11\nbound 0\nclaims 0\nend\n", BoundVerdict::No(BoundObjection::Root { last: 13 })),
    ("plan 3\norder 5\n1\n3\n2\n4\n5\npeak 11\nbound 11\nclaims 2\n5 F 9 9\n13 R 9 0\nend\n",
        BoundVerdict::No(BoundObjection::Root { last: 13 })),
    ("plan 3\norder 5\n1\n3\n2\n4\n5\npeak 11\nbound 11\nclaims 6\n4 R 5 5\n5 R 5 5\n9 R 5 5\n10 R 5 5\n11 R 10 11\n13 R 10 1\nend\n",
        BoundVerdict::No(BoundObjection::Claim { position: 11, shape: Shape::Par })),
    ("plan 3\norder 5\n1\n3\n2\n4\n5\npeak 11\nbound 11\nclaims 6\n3 R 5 5\n5 R 5 5\n9 F 5 5\n10 R 5 5\n11 R 10 10\n13 R 10 0\nend\n",
        BoundVerdict::No(BoundObjection::Claim { position: 3, shape: Shape::Hold })),
    ("plan 3\norder 5\n1\n3\n2\n4\n5\npeak 11\nbound 11\nclaims 6\n4 R 5 5\n5 R 5 5\n9 F 5 5\n10 R 5 5\n11 R 10 10\n13 R 10 0\nend\n",
        BoundVerdict::No(BoundObjection::Claim { position: 9, shape: Shape::Series })),
    ("plan 3\norder 5\n1\n3\n2\n4\n5\npeak 11\nbound 11\nclaims 8\n\
        4 R 5 5\n5 R 5 5\n9 R 5 5\n10 R 5 5\n11 R 10 10\n13 R 10 0\n14 R 0 0\n99 R 0 0\nend\n",
        BoundVerdict::No(BoundObjection::Claim { position: 14, shape: Shape::Outside })),
];

#[test]
fn claims_are_objected_to(rt: HostRuntime) -> Result<(), Fail> {
    check_plans(&rt, rt.alloc(), CLAIMS)
}

#[test]
fn claims_need_a_term(rt: HostRuntime) -> Result<(), Fail> {
    let plan = "plan 3\norder 4\n1\n2\n3\n4\npeak 2\nbound 2\nclaims 1\n1 R 1 1\nend\n";
    for workers in [1, 3] {
        let said = verdict(&rt, rt.alloc(), CROSSING, plan, workers, &NoGate)?;
        assert_eq!(rt; said, BoundVerdict::No(BoundObjection::NoTerm));
    }
    Ok(())
}

// Below 11 no more states of the five tasks are looked at than that in which all are done and that before task 5; below 10 only the first,
// and below 0 none.
const BY_STATES: &str = "plan 3\norder 5\n1\n3\n2\n4\n5\npeak 11\nbound 11\nstates 2\nend\n";

#[rattlefmt::skip]
const LOOKED_AT: &[(&str, BoundVerdict)] = &[
    (BY_STATES, BoundVerdict::Least(11)),
    ("plan 3\norder 5\n1\n3\n2\n4\n5\npeak 11\nbound 11\nstates 26843545\nend\n", BoundVerdict::Least(11)),
    ("plan 3\norder 5\n1\n2\n3\n4\n5\npeak 15\nbound 10\nstates 1\nend\n", BoundVerdict::Above { peak: 15, bound: 10 }),
    ("plan 3\norder 5\n1\n3\n2\n4\n5\npeak 11\nbound 0\nstates 0\nend\n", BoundVerdict::Above { peak: 11, bound: 0 }),
];

#[test]
fn states_show_a_bound(rt: HostRuntime) -> Result<(), Fail> {
    check_plans(&rt, rt.alloc(), LOOKED_AT)
}

// Too many states for 2^27 marks, whatever the bound; a bound above the least peak, below which six states are looked at; and one state less
// than it takes.
#[rattlefmt::skip]
const STATES: &[(&str, BoundVerdict)] = &[
    ("plan 3\norder 5\n1\n3\n2\n4\n5\npeak 11\nbound 11\nstates 26843546\nend\n",
        BoundVerdict::No(BoundObjection::States(StatesObjection::Room))),
    ("plan 3\norder 5\n1\n3\n2\n4\n5\npeak 11\nbound 12\nstates 6\nend\n",
        BoundVerdict::No(BoundObjection::States(StatesObjection::Order))),
    ("plan 3\norder 5\n1\n3\n2\n4\n5\npeak 11\nbound 11\nstates 1\nend\n",
        BoundVerdict::No(BoundObjection::States(StatesObjection::Many))),
    ("plan 3\norder 5\n1\n3\n2\n4\n5\npeak 11\nbound 1\nstates 0\nend\n",
        BoundVerdict::No(BoundObjection::States(StatesObjection::Many))),
];

#[test]
fn states_are_objected_to(rt: HostRuntime) -> Result<(), Fail> {
    check_plans(&rt, rt.alloc(), STATES)
}

// All are done, or all but task 3: before task 4 its inputs are 2.
#[test]
fn states_need_no_term(rt: HostRuntime) -> Result<(), Fail> {
    let plan = "plan 3\norder 4\n1\n2\n3\n4\npeak 2\nbound 2\nstates 2\nend\n";
    let said = verdict(&rt, rt.alloc(), CROSSING, plan, 1, &NoGate)?;
    assert_eq!(rt; said, BoundVerdict::Least(2));
    Ok(())
}

// Tasks 2, 3 and 4 read what task 1 makes, and task 4, which reads it last, what tasks 2 and 3 make.
const FORK: &str =
    "graph 2\ntasks 4\n0 0 1\n1 0 1\n2 0 1\n2 0 1\nitems 3\n5 1 2 3 4\n1 2 4\n3 3 4\nend\n";

// What task 4 reads and needs is the peak: as a sum, and as a claim on its series, which is a part of that of task 1.
#[rattlefmt::skip]
const BY_TASK_4: [&str; 2] = [
    "plan 3\norder 4\n1\n2\n3\n4\npeak 11\nbound 11\nneed 4\nend\n",
    "plan 3\norder 4\n1\n2\n3\n4\npeak 11\nbound 11\nclaims 2\n11 R 10 0\n12 R 10 0\nend\n",
];

#[test]
fn an_item_may_have_several_readers(rt: HostRuntime) -> Result<(), Fail> {
    for plan in BY_TASK_4 {
        let said = verdict(&rt, rt.alloc(), FORK, plan, 3, &NoGate)?;
        assert_eq!(rt; said, BoundVerdict::Least(11), "of {plan:?}");
    }
    Ok(())
}

// Counts how often chunks were entered, and sets a bit for each.
#[derive(Drop)]
struct Counts {
    entered: AtomicU32,
    numbers: AtomicU32,
}

impl Gate for Counts {
    fn enter(&self, chunk: u32) {
        self.entered.fetch_add(1, Ordering::SeqCst);
        self.numbers
            .fetch_or(1u32.wrapping_shl(chunk), Ordering::SeqCst);
    }
}

// Plans, workers, and the chunks that two blockers, and six claims, come to: of 2 and 1, and of 6, 3, 2, 2 and 1. States are no chunks.
const CHUNKS: [(&str, u32, u32); 8] = [
    (BY_SET, 1, 1),
    (BY_SET, 3, 2),
    (BY_CLAIMS, 1, 1),
    (BY_CLAIMS, 2, 2),
    (BY_CLAIMS, 3, 3),
    (BY_CLAIMS, 4, 3),
    (BY_CLAIMS, 4096, 6),
    (BY_STATES, 3, 0),
];

#[test]
fn each_chunk_is_entered_once(rt: HostRuntime) -> Result<(), Fail> {
    for (plan, workers, chunks) in CHUNKS {
        let gate = Counts {
            entered: AtomicU32::new(0),
            numbers: AtomicU32::new(0),
        };
        let said = verdict(&rt, rt.alloc(), FIVE, plan, workers, &gate)?;
        assert_eq!(rt; said, BoundVerdict::Least(11));
        assert_eq!(rt; gate.entered.load(Ordering::SeqCst), chunks);
        assert_eq!(rt;
            gate.numbers.load(Ordering::SeqCst),
            1u32.wrapping_shl(chunks) - 1
        );
    }
    Ok(())
}
