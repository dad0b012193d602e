//! Certificates of worked rows, and of random trees and workflows, before the judge of claims.

ghost use Rattle.std.specs.Prelude.{◌≡◌, ◌<◌};
ghost use Rattle.sp_terms.specs.Builder.{IsPosition};

use claim_check::{Verdict, check};
use mp_gen::{gen_tree, gen_workflow};
use mp_outside::NoGate;
use plan_claims::{NoMemory, claims_of};
use plans::{Claim, Plan, is_plan};
use sp_cuts::plan_terms;
use sp_terms::{Position, TermBuilder, TermList, system_of};
use std::alloc::Global;
use std::marker::Brand;
use std::process::Abort;
use std::sync::ledger::{Blank, Ledger};
use std::test::Fail;
use std::thread::Threads;
use step_count::Steps;
use trees::{Node, terms_of_tree};
use workflow_files::read_workflow;

// The order of a plan, its peak, and claims that certify the peak.
fn certified<L: Ledger>(
    alloc: Global,
    blank: Blank,
    terms: &TermList,
) -> Result<(Vec<u32>, u64, Vec<Claim>), NoMemory>
    requires name { blank.name ≡ L.name }
    requires parts { blank.parts ≡ L.parts }
    requires some { 0 < blank.parts }
{
    let mut steps = Steps::<L>::new(blank);
    let plan = plan_terms(alloc, terms, &mut steps)?;
    let sp_cuts::Planned {
        order,
        peak,
        part,
        notes,
        ..
    } = plan;
    let claims = claims_of(alloc, terms, &part, notes)?;
    Ok((order, peak, claims))
}

// The plan with its claims is accepted, with its peak.
fn assert_accepted<R: Threads + Sync + Abort>(
    rt: &R,
    alloc: Global,
    terms: &TermList,
) -> Result<u64, Fail> {
    let (order, peak, claims) = certified::<Brand>(alloc, Blank::new(1), terms)?;
    assert!(rt; is_plan(alloc, &order, peak, &claims, &[])?);
    let plan = Plan::new(order, peak, claims, Vec::new(alloc));
    let system = system_of(alloc, terms)?;
    let said = check(rt, alloc, &system, terms, &plan, 1, &NoGate)?;
    assert_eq!(rt; said, Verdict::Yes(peak));
    Ok(peak)
}

// Two nodes that need 10 and leave 1, each below one that leaves 5, below a root.
const FIVE: &[u8] = b"workflow 1\ntasks 5\ndata 0\ndata 1\ntask 9 1\ndata 5\ntask 0 1\n\
    data 0\ndata 1\ntask 9 1\ndata 5\ntask 0 1\npar 2\ndata 0\ntask 0 1\nend\n";

const ONE_NODE: &[u8] = b"workflow 1\ntasks 1\ndata 0\ndata 7\ntask 2 1\nend\n";

const NOTHING: &[u8] = b"workflow 1\ntasks 0\ndata 0\nend\n";

const NODE_OF_NOTHING: &[u8] = b"workflow 1\ntasks 1\ndata 0\ndata 0\ntask 0 1\nend\n";

// Three leaves that leave 2 each, below a root.
const STAR: &[u8] = b"workflow 1\ntasks 4\ndata 0\ndata 2\ntask 0 1\ndata 0\ndata 2\ntask 0 1\n\
    data 0\ndata 2\ntask 0 1\npar 3\ndata 0\ntask 0 1\nend\n";

const DATA_ALONE: &[u8] = b"workflow 1\ntasks 0\ndata 10\ndata 10\npar 2\nend\n";

const TWO_CHAINS: &[u8] = b"workflow 1\ntasks 4\ndata 4\ndata 1\ntask 0 1\ndata 3\ntask 6 1\n\
    data 4\ndata 1\ntask 0 1\ndata 3\ntask 6 1\npar 2\nend\n";

const TWO_ROOTS: &[u8] =
    b"workflow 1\ntasks 2\ndata 0\ndata 3\ntask 0 1\ndata 0\ndata 4\ntask 1 1\npar 2\nend\n";

// A leaf that needs 10 and leaves 1, and one that needs 12 and leaves 8, below a root.
const HILLS: &[u8] =
    b"workflow 1\ntasks 3\ndata 0\ndata 1\ntask 9 1\ndata 0\ndata 8\ntask 4 1\npar 2\ndata 0\ntask 0 1\nend\n";

// Workflows, and their least peaks.
const PEAKS: &[(&[u8], u64)] = &[
    (FIVE, 11),
    (ONE_NODE, 9),
    (NOTHING, 0),
    (NODE_OF_NOTHING, 0),
    (STAR, 6),
    (DATA_ALONE, 20),
    (TWO_CHAINS, 13),
    (TWO_ROOTS, 7),
    (HILLS, 13),
];

#[test]
fn the_peaks_of_the_worked_rows_are_certified(rt: HostRuntime) -> Result<(), Fail> {
    let alloc = rt.alloc();
    for (text, peak) in PEAKS {
        let terms = read_workflow(alloc, text)?;
        assert_eq!(rt; assert_accepted(&rt, alloc, &terms)?, *peak);
    }
    Ok(())
}

// Puts a position in; that it is refused fails the test.
fn put(builder: &mut TermBuilder, position: Position) -> Result<(), Fail>
    requires { IsPosition position }
{
    Ok(builder.push(position).ok().ok_or("a position")?)
}

fn task(extra: u64, share: u64) -> Position
    ensures { IsPosition result }
{
    Position::Task {
        extra,
        share,
        time: 1,
    }
}

// A task that takes over so much, or nothing where that does not fit.
fn put_task(builder: &mut TermBuilder, extra: u64, share: u64) -> Result<(), Fail> {
    if builder.push(task(extra, share)).is_ok() {
        return Ok(());
    }
    put(builder, task(extra, 0))
}

// The position with numbers below 10, of which many are equal or 0. Its time says how much a task takes over.
fn put_small(builder: &mut TermBuilder, position: Position) -> Result<(), Fail> {
    match position {
        Position::Hold(size) => put(builder, Position::Hold(size % 10)),
        Position::Task { extra, time, .. } => put_task(builder, extra % 10, time % 6),
        // there are two parts or more, which a position alone does not say
        Position::Par(parts) => put(builder, Position::Par(parts.max(2))),
    }
}

// The same shape with small numbers, and with shares.
fn small(alloc: Global, terms: &TermList) -> Result<TermList, Fail> {
    let mut builder = TermBuilder::new(alloc);
    for position in 1..=terms.len() {
        put_small(&mut builder, terms.at(position))?;
    }
    Ok(builder.finish().ok().ok_or("one term")?)
}

#[test]
fn random_workflows_are_certified(rt: HostRuntime) -> Result<(), Fail> {
    let alloc = rt.alloc();
    for tasks in 1..=20 {
        for seed in 0..18 {
            let terms = gen_workflow(alloc, seed, tasks)?;
            assert_accepted(&rt, alloc, &terms)?;
            assert_accepted(&rt, alloc, &small(alloc, &terms)?)?;
        }
    }
    Ok(())
}

// A node above the last term.
fn put_node(builder: &mut TermBuilder, out: u64, extra: u64) -> Result<(), Fail> {
    put(builder, Position::Hold(out))?;
    put(builder, task(extra, 0))
}

// A leaf beside the last term.
fn put_leaf(builder: &mut TermBuilder, out: u64, extra: u64) -> Result<(), Fail> {
    put(builder, Position::Hold(0))?;
    put_node(builder, out, extra)?;
    put(builder, Position::Par(2))
}

// A chain with the numbers of these nodes, or a caterpillar, whose nodes have a leaf each beside the node below.
fn long_tree(alloc: Global, nodes: &[Node], leaves: bool) -> Result<TermList, Fail> {
    let mut builder = TermBuilder::new(alloc);
    put(&mut builder, Position::Hold(0))?;
    for (i, node) in nodes.iter().enumerate() {
        if leaves && 0 < i {
            put_leaf(&mut builder, node.extra % 100, node.out)?;
        }
        put_node(&mut builder, node.out % 100, node.extra)?;
    }
    Ok(builder.finish().ok().ok_or("one tree")?)
}

#[test]
fn long_trees_are_certified(rt: HostRuntime) -> Result<(), Fail> {
    let alloc = rt.alloc();
    let tree = gen_tree(alloc, 3, 3000)?;
    assert_accepted(&rt, alloc, &terms_of_tree(alloc, &tree)?.terms)?;
    for leaves in [false, true] {
        assert_accepted(&rt, alloc, &long_tree(alloc, tree.nodes(), leaves)?)?;
    }
    Ok(())
}
