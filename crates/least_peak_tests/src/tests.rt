//! Problems worked by hand: a tree and a workflow.

use claim_check::Verdict;
use least_peak::Problem;
use mp_outside::NoGate;
use plans::Plan;
use std::alloc::Global;
use std::process::Abort;
use std::test::Fail;
use std::thread::Threads;
use tree_files::read_tree;
use workflow_files::read_workflow;

// Two chains of two tasks below a root; the first tasks need 9, and leave 1.
const FIVE: &[u8] = b"tree 1\nnodes 5\n2 1 9 1\n5 5 0 1\n4 1 9 1\n5 5 0 1\n0 0 0 1\nend\n";

// The same tasks as a workflow.
const BRANCHES: &[u8] =
    b"workflow 1\ntasks 4\ndata 4\ndata 1\ntask 0 1\ndata 3\ntask 6 1\ndata 4\ndata 1\ntask 0 1\ndata 3\ntask 6 1\npar 2\nend\n";

// There are so many tasks.
fn check_count(rt: &impl Abort, alloc: Global, problem: &Problem, tasks: u32) -> Result<(), Fail> {
    assert_eq!(rt; problem.task_count(), tasks);
    let system = problem.system(alloc)?;
    assert_eq!(rt; system.tasks().len(), tasks as usize);
    Ok(())
}

// The plan has this peak, and its order replays to it.
fn check_peak(
    rt: &impl Abort,
    alloc: Global,
    problem: &Problem,
    plan: &Plan,
    peak: u64,
) -> Result<(), Fail> {
    assert_eq!(rt; plan.peak(), peak);
    assert_eq!(rt; problem.replay(alloc, plan.order())?, peak);
    Ok(())
}

// `check` accepts the plan with this peak, also without a thread.
fn check_accepted<R: Abort + Threads + Sync>(
    rt: &R,
    alloc: Global,
    problem: &Problem,
    plan: &Plan,
    peak: u64,
) -> Result<(), Fail> {
    let verdict = problem.check(rt, alloc, plan, 2, &NoGate)?;
    assert_eq!(rt; verdict, Verdict::Yes(peak));
    assert_eq!(rt; problem.check_alone(alloc, plan)?, Verdict::Yes(peak));
    Ok(())
}

// There are so many tasks, and the plan has this peak; so has the plan for which the problem is given up.
fn check_plan<R: Abort + Threads + Sync>(
    rt: &R,
    alloc: Global,
    problem: Problem,
    tasks: u32,
    peak: u64,
) -> Result<(), Fail> {
    check_count(rt, alloc, &problem, tasks)?;
    let plan = problem.plan(alloc)?;
    check_peak(rt, alloc, &problem, &plan, peak)?;
    check_accepted(rt, alloc, &problem, &plan, peak)?;
    let plan = problem.into_plan(alloc)?;
    assert_eq!(rt; plan.peak(), peak);
    Ok(())
}

#[test]
fn a_plan_of_a_tree(rt: HostRuntime) -> Result<(), Fail> {
    let alloc = rt.alloc();
    let tree = read_tree(alloc, FIVE)?;
    check_plan(&rt, alloc, Problem::of_tree(tree), 5, 11)
}

#[test]
fn a_plan_of_a_workflow(rt: HostRuntime) -> Result<(), Fail> {
    let alloc = rt.alloc();
    let terms = read_workflow(alloc, BRANCHES)?;
    check_plan(&rt, alloc, Problem::of_workflow(terms), 4, 13)
}
