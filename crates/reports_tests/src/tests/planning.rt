//! What `plan` prints of random inputs goes to `check` and to `replay` over the same input.

use super::{check_run, run_into};
use mp_gen::{gen_tree, gen_workflow};
use mp_outside::{MemFiles, MemSink};
use mp_text::Report;
use reports::Status::Done;
use std::alloc::{AllocError, Global};
use std::process::Abort;
use std::str;
use std::test::Fail;
use std::thread::Threads;
use tree_files::print_tree;
use workflow_files::print_workflow;

// The most bytes of a plan of these inputs.
const MOST: u64 = 100_000;

// The peak that a plan states.
fn peak_of(plan: &[u8]) -> Option<&str> {
    let (_, from_peak) = str::from_utf8(plan).ok()?.split_once("\npeak ")?;
    let (peak, _) = from_peak.split_once("\n")?;
    Some(peak)
}

// The plan of an input.
fn plan_of<R: Threads + Sync + Abort>(
    rt: &R,
    alloc: Global,
    input: &str,
    files: &mut MemFiles,
) -> Result<MemSink, AllocError> {
    let run = format!(in alloc; "plan {input}")?;
    let mut plan = MemSink::new(alloc, MOST)?;
    let ended = run_into(rt, alloc, &run, files, &mut plan)?;
    assert_eq!(rt; ended, Done, "{input}");
    Ok(plan)
}

// The plan `made` of an input is accepted, with this peak.
fn check_accepted<R: Threads + Sync + Abort>(
    rt: &R,
    alloc: Global,
    input: &str,
    files: &mut MemFiles,
    peak: &str,
) -> Result<(), AllocError> {
    let run = format!(in alloc; "check {input} --plan made")?;
    let text = format!(in alloc; "yes {peak}\n")?;
    check_run(rt, alloc, &run, files, Done, &text)
}

// Its order has this peak.
fn check_replayed<R: Threads + Sync + Abort>(
    rt: &R,
    alloc: Global,
    input: &str,
    files: &mut MemFiles,
    peak: &str,
) -> Result<(), AllocError> {
    let run = format!(in alloc; "replay {input} --plan made")?;
    let text = format!(in alloc; "peak {peak}\n")?;
    check_run(rt, alloc, &run, files, Done, &text)
}

// The plan of an input is accepted, and its order has the peak that it states.
fn check_plan<R: Threads + Sync + Abort>(
    rt: &R,
    alloc: Global,
    input: &str,
    files: &mut MemFiles,
) -> Result<(), AllocError> {
    let plan = plan_of(rt, alloc, input, files)?;
    let peak = peak_of(plan.written()).expect(rt, "a plan states its peak");
    files.put("made", plan.written())?;
    check_accepted(rt, alloc, input, files, peak)?;
    check_replayed(rt, alloc, input, files, peak)
}

// ---- random inputs

fn made_tree(alloc: Global, seed: u64) -> Result<Report, Fail> {
    let mut text = Report::new(alloc);
    print_tree(&gen_tree(alloc, seed, 300)?, &mut text)?;
    Ok(text)
}

fn made_workflow(alloc: Global, seed: u64) -> Result<Report, Fail> {
    let mut text = Report::new(alloc);
    print_workflow(&gen_workflow(alloc, seed, 300)?, &mut text)?;
    Ok(text)
}

// Files of a tree and a workflow that a seed makes.
fn made_files(alloc: Global, seed: u64) -> Result<MemFiles, Fail> {
    let mut files = MemFiles::new(alloc)?;
    files.put("t", made_tree(alloc, seed)?.bytes())?;
    files.put("w", made_workflow(alloc, seed)?.bytes())?;
    Ok(files)
}

#[test]
fn plans_of_random_trees_and_workflows(rt: HostRuntime) -> Result<(), Fail> {
    for seed in 0..20 {
        let mut files = made_files(rt.alloc(), seed)?;
        check_plan(&rt, rt.alloc(), "--tree t", &mut files)?;
        check_plan(&rt, rt.alloc(), "--workflow w", &mut files)?;
    }
    Ok(())
}
