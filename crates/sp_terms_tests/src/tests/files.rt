use super::{BRANCHES, read};
use mp_system::replay;
use mp_text::Report;
use sp_terms::{TermList, system_of};
use std::alloc::Global;
use std::process::Abort;
use std::test::Fail;
use workflow_files::{print_workflow, print_workflow_2, read_workflow};

const BRANCHES_2: &str =
    "workflow 2\ntasks 4\ndata 4\ndata 1\ntask 0 0 1\ndata 3\ntask 6 0 1\ndata 4\ndata 1\ntask 0 0 1\ndata 3\ntask 6 0 1\npar 2\nend\n";

const NO_TASKS: &str = "workflow 1\ntasks 0\ndata 10\ndata 10\npar 2\nend\n";

const SHARED: &str = "workflow 2\ntasks 1\ndata 4\ndata 3\ntask 2 4 1\nend\n";

// The peak of an order of the tasks of a file.
fn peak_of(alloc: Global, text: &str, order: &[u32]) -> Result<u64, Fail> {
    let system = system_of(alloc, &read(alloc, text)?)?;
    Ok(replay(alloc, &system, order)?)
}

const PEAKS: &[(&str, &[u32], u64)] = &[
    (BRANCHES, &[1, 3, 2, 4], 13),
    (BRANCHES, &[1, 2, 3, 4], 14),
    (NO_TASKS, &[], 20),
    (SHARED, &[1], 5),
];

#[test]
fn replays(rt: HostRuntime) -> Result<(), Fail> {
    for (text, order, peak) in PEAKS {
        assert_eq!(rt; peak_of(rt.alloc(), text, order)?, *peak);
    }
    Ok(())
}

fn printed(alloc: Global, terms: &TermList) -> Result<Report, Fail> {
    let mut report = Report::new(alloc);
    print_workflow(terms, &mut report)?;
    Ok(report)
}

fn printed_2(alloc: Global, terms: &TermList) -> Result<Report, Fail> {
    let mut report = Report::new(alloc);
    print_workflow_2(terms, &mut report)?;
    Ok(report)
}

// The text of a file in the lowest version that it has, and in version 2.
fn check_file(
    rt: &impl Abort,
    alloc: Global,
    text: &str,
    one: &str,
    two: &str,
) -> Result<(), Fail> {
    let terms = read(alloc, text)?;
    let report = printed(alloc, &terms)?;
    assert_eq!(rt; report.bytes(), one.as_bytes());
    let report_2 = printed_2(alloc, &terms)?;
    assert_eq!(rt; report_2.bytes(), two.as_bytes());
    Ok(())
}

// Files, and the texts that are printed of them in each version.
const FILES: &[(&str, &str, &str)] = &[
    (BRANCHES, BRANCHES, BRANCHES_2),
    (BRANCHES_2, BRANCHES, BRANCHES_2),
    (SHARED, SHARED, SHARED),
    (
        "# a\nworkflow 1\r\n\ttasks 01\n\ndata 4\n% b\ndata 3 \ntask 2 1\nend",
        "workflow 1\ntasks 1\ndata 4\ndata 3\ntask 2 1\nend\n",
        "workflow 2\ntasks 1\ndata 4\ndata 3\ntask 2 0 1\nend\n",
    ),
];

#[test]
fn reads_and_prints(rt: HostRuntime) -> Result<(), Fail> {
    for (text, one, two) in FILES {
        check_file(&rt, rt.alloc(), text, one, two)?;
    }
    Ok(())
}

// Why a file is refused, in words.
fn refusal_of(alloc: Global, text: &str) -> Result<String, Fail> {
    match read_workflow(alloc, text.as_bytes()) {
        Ok(_) => Err(Fail::new("this file is not refused")),
        Err(refusal) => Ok(format!(in alloc; "{refusal}")?),
    }
}

#[rattlefmt::skip]
const REFUSALS: &[(&str, &str)] = &[
    ("workflow 3\n", "header at line 1"),
    ("workflow\n", "header at line 1"),
    ("tree 1\n", "header at line 1"),
    ("workflow 1 1\n", "header at line 1"),
    ("workflow 1\ntasks\n", "header at line 2"),
    ("workflow 1\nnodes 1\n", "header at line 2"),
    ("workflow 1\ntasks x\n", "number at line 2"),
    ("workflow 1\ntasks 1\ntask 0 1\nend\n", "stack-short at line 3"),
    ("workflow 1\ntasks 1\ndata 1\nend\n", "task-count at line 4"),
    ("workflow 1\ntasks 0\ndata 1\ndata 1\nend\n", "not-one-term at line 5"),
    ("workflow 1\ntasks 0\nend\n", "not-one-term at line 3"),
    ("workflow 1\ntasks 0\ndata 1\npar 1\nend\n", "number at line 4"),
    ("workflow 1\ntasks 0\ndata 1\ndata 1\npar 18446744073709551615\nend\n", "stack-short at line 5"),
    ("workflow 1\ntasks 0\ndata 1\ndata 1\npar 3\nend\n", "stack-short at line 5"),
    ("workflow 1\ntasks 0\ndata 1\ndata 1\npar 18446744073709551616\nend\n", "number at line 5"),
    ("workflow 1\ntasks 0\ndata 1\ndata 1\ntask 0 1\nend\n", "task-count at line 5"),
    ("workflow 2\ntasks 1\ndata 4\ndata 3\ntask 2 5 1\nend\n", "share at line 5"),
    ("workflow 2\ntasks 1\ndata 9\ndata 3\ntask 2 6 1\nend\n", "share at line 5"),
    ("workflow 1\ntasks 1\ndata 4\ndata 3\ntask 2 4 1\nend\n", "number at line 5"),
    ("workflow 2\ntasks 1\ndata 4\ndata 3\ntask 2 1\nend\n", "number at line 5"),
    ("workflow 1\ntasks 1\ndata 4\ndata 3\ntask 2 0\nend\n", "number at line 5"),
    ("workflow 1\ntasks 0\ndata\n", "number at line 3"),
    ("workflow 1\ntasks 0\ndata 1 1\n", "number at line 3"),
    ("workflow 1\ntasks 0\ndata -1\n", "number at line 3"),
    ("workflow 1\ntasks 0\nhold 1\n", "word at line 3"),
    ("workflow 1\ntasks 0\ndata1\n", "word at line 3"),
    ("workflow 1\ntasks 0\ndata 1\nend 1\n", "number at line 4"),
    ("workflow 1\ntasks 0\ndata 1\nend\n\nend\n", "word at line 6"),
    ("workflow 1\ntasks 0\ndata 1\nen", "word at line 4"),
    ("workflow 1\ntasks 1000001\n", "limit tasks"),
    ("workflow 1\ntasks 0\ndata 1099511627777\nend\n", "limit size"),
    ("workflow 1\ntasks 1\ndata 1\ndata 1\ntask 1099511627777 1099511627777\n", "limit size"),
    ("workflow 2\ntasks 1\ndata 1\ndata 1\ntask 0 9 1099511627777\n", "limit time"),
];

#[test]
fn refuses_with_the_kind_and_the_line(rt: HostRuntime) -> Result<(), Fail> {
    let alloc = rt.alloc();
    for (text, words) in REFUSALS {
        let found = refusal_of(alloc, text)?;
        assert_eq!(rt; found.as_str(), *words, "at {text:?}");
    }
    Ok(())
}

// The start of a file, which ends after so many lines.
fn check_start(rt: &impl Abort, alloc: Global, start: &str, before: usize) -> Result<(), Fail> {
    let words = format!(in alloc; "no-end at line {}", before.saturating_add(1))?;
    let found = refusal_of(alloc, start)?;
    assert_eq!(rt; found.as_str(), words.as_str());
    Ok(())
}

#[test]
fn a_file_that_ends_early_has_no_end(rt: HostRuntime) -> Result<(), Fail> {
    let mut text = String::new(rt.alloc());
    for (before, line) in BRANCHES.split_inclusive('\n').enumerate() {
        check_start(&rt, rt.alloc(), &text, before)?;
        text.push_str(line)?;
    }
    assert_eq!(rt; text.as_str(), BRANCHES);
    Ok(())
}
