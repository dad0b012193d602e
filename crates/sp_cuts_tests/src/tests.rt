//! Worked examples, by hand, and small random trees and workflows against a plain search.

mod stairs;

ghost use Rattle.std.specs.Prelude.{◌≡◌, ◌≤◌, ◌<◌};
ghost use Rattle.limits.specs.Limits.{most_tasks};
ghost use Rattle.sp_terms.specs.Builder.{IsPosition};

use hill_valley::Side;
use mp_gen::{gen_tree, gen_workflow};
use mp_system::{System, replay};
use sp_cuts::{NoMemory, Planned, plan_terms};
use sp_terms::{Position, TermBuilder, TermList, system_of};
use std::alloc::Global;
use std::marker::Brand;
use std::process::Abort;
use std::sync::ledger::{Blank, Ledger};
use std::test::Fail;
use step_count::Steps;
use trees::terms_of_tree;
use workflow_files::read_workflow;

// The plan, with a count of its own.
fn plan<L: Ledger>(alloc: Global, blank: Blank, terms: &TermList) -> Result<Planned, NoMemory>
    requires name { blank.name ≡ L.name }
    requires parts { blank.parts ≡ L.parts }
    requires some { 0 < blank.parts }
{
    let mut steps = Steps::<L>::new(blank);
    plan_terms(alloc, terms, &mut steps)
}

fn planned(alloc: Global, terms: &TermList) -> Result<Planned, NoMemory> {
    plan::<Brand>(alloc, Blank::new(1), terms)
}

// Two chains of two tasks: from 4 down to 1, and over 10 to 3.
const TWO_CHAINS: &[u8] =
    b"workflow 1\ntasks 4\ndata 4\ndata 1\ntask 0 1\ndata 3\ntask 6 1\ndata 4\ndata 1\ntask 0 1\ndata 3\ntask 6 1\npar 2\nend\n";

// Workflows, each with its least peak.
#[rattlefmt::skip]
const ROWS: &[(&[u8], u64)] = &[
    // two nodes that need 10 and leave 1, each below one that leaves 5, below a root
    (b"workflow 1\ntasks 5\ndata 0\ndata 1\ntask 9 1\ndata 5\ntask 0 1\n\
       data 0\ndata 1\ntask 9 1\ndata 5\ntask 0 1\npar 2\ndata 0\ntask 0 1\nend\n", 11),
    // one node, nothing, and a node of nothing
    (b"workflow 1\ntasks 1\ndata 0\ndata 7\ntask 2 1\nend\n", 9),
    (b"workflow 1\ntasks 0\ndata 0\nend\n", 0),
    (b"workflow 1\ntasks 1\ndata 0\ndata 0\ntask 0 1\nend\n", 0),
    // three leaves that leave 2 each, below a root
    (b"workflow 1\ntasks 4\ndata 0\ndata 2\ntask 0 1\ndata 0\ndata 2\ntask 0 1\ndata 0\ndata 2\ntask 0 1\n\
       par 3\ndata 0\ntask 0 1\nend\n", 6),
    // data alone
    (b"workflow 1\ntasks 0\ndata 10\ndata 10\npar 2\nend\n", 20),
    (TWO_CHAINS, 13),
    // two roots
    (b"workflow 1\ntasks 2\ndata 0\ndata 3\ntask 0 1\ndata 0\ndata 4\ntask 1 1\npar 2\nend\n", 7),
    // a leaf that needs 10 and leaves 1, and one that needs 12 and leaves 8, below a root. Merged by hill the other way round, the
    // first would run while 8 is there, and need 18
    (b"workflow 1\ntasks 3\ndata 0\ndata 1\ntask 9 1\ndata 0\ndata 8\ntask 4 1\npar 2\ndata 0\ntask 0 1\nend\n", 13),
    // a task that takes over what it consumes
    (b"workflow 2\ntasks 1\ndata 4\ndata 3\ntask 2 4 1\nend\n", 5),
];

// The set of this one task, which is counted from 1, or of none.
fn only(task: Option<u32>) -> usize {
    match task {
        Some(number) => 1usize << number.saturating_sub(1).min(63),
        None => 0,
    }
}

// All that this one task consumes is there once those of `done` have run.
fn is_ready(system: &System, done: usize, task: usize) -> bool {
    for item in system.items() {
        if only(item.to) & task != 0 && only(item.from) & !done != 0 {
            return false;
        }
    }
    true
}

// The memory of all that none of `taken` consumes, and that is there once those of `made` have begun.
fn memory(system: &System, made: usize, taken: usize) -> u64 {
    let mut sum = 0u64;
    for item in system.items() {
        if only(item.from) & !made == 0 && only(item.to) & taken == 0 {
            sum = sum.saturating_add(item.size);
        }
    }
    sum
}

// The least peak over all traversals of a system of at most twelve tasks. For each set of tasks in turn, it is the least over all
// that can be the last of them: what was done before it is a smaller set.
fn least_peak(alloc: Global, system: &System) -> Result<u64, NoMemory> {
    let mut best: Vec<u64> = Vec::new(alloc);
    for set in 0..1usize << system.tasks().len().min(12) {
        let mut least = if set == 0 { 0 } else { u64::MAX };
        for (i, task) in system.tasks().iter().enumerate() {
            let last = 1usize << i.min(63);
            let before = set & !last;
            if set & last != 0 && is_ready(system, before, last) {
                let running = memory(system, set, before).saturating_add(task.extra);
                let earlier = best.get(before).copied().unwrap_or(u64::MAX);
                least = least.min(earlier.max(running.saturating_sub(task.share)));
            }
        }
        best.push(least.max(memory(system, set, set)))?;
    }
    Ok(best.last().copied().unwrap_or(0))
}

// The plan's peak is that of its order, and no traversal has a lower one.
fn check_order(
    rt: &impl Abort,
    alloc: Global,
    terms: &TermList,
    plan: &Planned,
) -> Result<(), Fail> {
    let system = system_of(alloc, terms)?;
    assert_eq!(rt; replay(alloc, &system, &plan.order)?, plan.peak);
    assert_eq!(rt; least_peak(alloc, &system)?, plan.peak);
    Ok(())
}

// The plan's peak, which is checked.
fn checked_peak(rt: &impl Abort, alloc: Global, terms: &TermList) -> Result<u64, Fail> {
    let plan = planned(alloc, terms)?;
    assert_eq!(rt; plan.part.peak, plan.peak);
    check_order(rt, alloc, terms, &plan)?;
    Ok(plan.peak)
}

#[test]
fn plans_have_the_peaks_of_the_worked_rows(rt: HostRuntime) -> Result<(), Fail> {
    let alloc = rt.alloc();
    for (text, peak) in ROWS {
        let terms = read_workflow(alloc, text)?;
        assert_eq!(rt; checked_peak(&rt, alloc, &terms)?, *peak);
    }
    Ok(())
}

// The side has one segment, with these numbers.
fn assert_one(rt: &impl Abort, mut side: Side, up: u64, net: u64) {
    assert_eq!(rt; side.len(), 1);
    let seg = side.take_first().expect(rt, "a segment");
    assert_eq!(rt; (seg.up, seg.net), (up, net));
}

#[test]
fn a_part_of_two_chains_is_cut_in_both(rt: HostRuntime) -> Result<(), Fail> {
    let alloc = rt.alloc();
    let terms = read_workflow(alloc, TWO_CHAINS)?;
    let part = planned(alloc, &terms)?.part;
    assert_eq!(rt; (part.initial, part.least, part.fin), (8, 2, 6));
    assert_one(&rt, part.front, 1, 6);
    assert_one(&rt, part.back, 7, 4);
    Ok(())
}

// Puts a position in; that it is refused fails the test.
fn put(builder: &mut TermBuilder, position: Position) -> Result<(), Fail>
    requires { IsPosition position }
{
    Ok(builder.push(position).ok().ok_or("a position")?)
}

fn task(extra: u64, share: u64) -> Position
    ensures { IsPosition result }
{
    Position::Task {
        extra,
        share,
        time: 1,
    }
}

// A task that takes over so much, or nothing where that does not fit.
fn put_task(builder: &mut TermBuilder, extra: u64, share: u64) -> Result<(), Fail> {
    if builder.push(task(extra, share)).is_ok() {
        return Ok(());
    }
    put(builder, task(extra, 0))
}

// The position with numbers below 10, of which many are equal or 0. Its time says how much a task takes over.
fn put_small(builder: &mut TermBuilder, position: Position) -> Result<(), Fail> {
    match position {
        Position::Hold(size) => put(builder, Position::Hold(size % 10)),
        Position::Task { extra, time, .. } => put_task(builder, extra % 10, time % 6),
        // there are two parts or more, which a position alone does not say
        Position::Par(parts) => put(builder, Position::Par(parts.max(2))),
    }
}

// The same shape with small numbers, and with shares.
fn small(alloc: Global, terms: &TermList) -> Result<TermList, Fail> {
    let mut builder = TermBuilder::new(alloc);
    for position in 1..=terms.len() {
        put_small(&mut builder, terms.at(position))?;
    }
    Ok(builder.finish().ok().ok_or("one term")?)
}

// The plan of a term has the least peak, and so has that of its shape with small numbers.
fn check_least(rt: &impl Abort, alloc: Global, terms: &TermList) -> Result<(), Fail> {
    checked_peak(rt, alloc, terms)?;
    checked_peak(rt, alloc, &small(alloc, terms)?)?;
    Ok(())
}

fn random_tree(alloc: Global, seed: u64, nodes: u32) -> Result<TermList, NoMemory>
    requires { (1 ≤ nodes) × (nodes ≤ most_tasks) }
{
    let tree = gen_tree(alloc, seed, nodes)?;
    Ok(terms_of_tree(alloc, &tree)?.terms)
}

#[test]
fn small_trees_have_the_least_peaks(rt: HostRuntime) -> Result<(), Fail> {
    let alloc = rt.alloc();
    for nodes in 1..=6 {
        for seed in 0..60 {
            check_least(&rt, alloc, &random_tree(alloc, seed, nodes)?)?;
        }
    }
    Ok(())
}

#[test]
fn small_workflows_have_the_least_peaks(rt: HostRuntime) -> Result<(), Fail> {
    let alloc = rt.alloc();
    for tasks in 1..=7 {
        for seed in 0..40 {
            check_least(&rt, alloc, &gen_workflow(alloc, seed, tasks)?)?;
        }
    }
    Ok(())
}
