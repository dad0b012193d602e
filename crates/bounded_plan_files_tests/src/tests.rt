use bounded_plan_files::{bounded_plan_json, print_bound, print_bounded_plan, read_bounded_plan};
use limits::LimitName;
use mp_text::{Refusal, Report, fault};
use plan_files::PlanKind;
use std::alloc::Global;
use std::process::Abort;
use std::test::Fail;

// The tree of five nodes: one of its leaves starts last, and then the memory is 11.
const FIVE: &str = "plan 3\norder 5\n1\n3\n2\n4\n5\npeak 11\nbound 11\nlast 2\nbase 2\n1 1\n2 1\n\
    blocker 1 4\n1 0\n2 0\n3 1\n4 1\nblocker 3 0\nend\n";

const FIVE_BOUND: &str = "bound 11\nlast 2\nbase 2\n1 1\n2 1\n\
    blocker 1 4\n1 0\n2 0\n3 1\n4 1\nblocker 3 0\nend\n";

const FIVE_JSON: &str = "{\"bound\":11,\"evidence\":{\"last\":{\"base\":[[1,1],[2,1]],\
    \"blockers\":[[1,[[1,0],[2,0],[3,1],[4,1]]],[3,[]]]}},\"order\":[1,3,2,4,5],\"peak\":11}";

// Files, the part of each that has the bound and its evidence, and its JSON.
const FILES: [(&str, &str, &str); 6] = [
    (FIVE, FIVE_BOUND, FIVE_JSON),
    (
        "plan 3\norder 1\n1\npeak 3\nbound 2\nneed 1\nend\n",
        "bound 2\nneed 1\nend\n",
        r#"{"bound":2,"evidence":{"need":1},"order":[1],"peak":3}"#,
    ),
    (
        "plan 3\norder 0\npeak 7\nbound 7\nneed 0\nend\n",
        "bound 7\nneed 0\nend\n",
        r#"{"bound":7,"evidence":{"need":0},"order":[],"peak":7}"#,
    ),
    (
        "plan 3\norder 0\npeak 0\nbound 0\nfirst 0\nbase 1\n4294967295 -1152921504606846976\nend\n",
        "bound 0\nfirst 0\nbase 1\n4294967295 -1152921504606846976\nend\n",
        r#"{"bound":0,"evidence":{"first":{"base":[[4294967295,-1152921504606846976]],"blockers":[]}},"order":[],"peak":0}"#,
    ),
    (
        "plan 3\norder 1\n1\npeak 9\nbound 9\nclaims 1\n3 R 8 7\nend\n",
        "bound 9\nclaims 1\n3 R 8 7\nend\n",
        r#"{"bound":9,"evidence":{"claims":[[3,"R",8,7]]},"order":[1],"peak":9}"#,
    ),
    (
        "plan 3\norder 2\n2\n1\npeak 6\nbound 6\nstates 7\nend\n",
        "bound 6\nstates 7\nend\n",
        r#"{"bound":6,"evidence":{"states":7},"order":[2,1],"peak":6}"#,
    ),
];

// A file is printed as it was read, and so is its bound.
fn check_file(rt: &impl Abort, alloc: Global, text: &str, bound: &str) -> Result<(), Fail> {
    let plan = read_bounded_plan(alloc, text.as_bytes())?;
    let mut report = Report::new(alloc);
    print_bounded_plan(&plan, &mut report)?;
    assert_eq!(rt; report.bytes(), text.as_bytes());
    let mut part = Report::new(alloc);
    print_bound(plan.bound(), plan.evidence(), &mut part)?;
    assert_eq!(rt; part.bytes(), bound.as_bytes());
    Ok(())
}

#[test]
fn reads_and_prints(rt: HostRuntime) -> Result<(), Fail> {
    for (text, bound, _) in FILES {
        check_file(&rt, rt.alloc(), text, bound)?;
    }
    Ok(())
}

#[test]
fn writes_json(rt: HostRuntime) -> Result<(), Fail> {
    let alloc = rt.alloc();
    for (text, _, json) in FILES {
        let plan = read_bounded_plan(alloc, text.as_bytes())?;
        let found = bounded_plan_json(alloc, &plan)?;
        assert_eq!(rt; found.as_str(), json);
    }
    Ok(())
}

// Texts, and the line and the kind of their first fault.
const REFUSED: [(&str, u64, PlanKind); 19] = [
    ("plan 2\n", 1, PlanKind::Header),
    ("plan 3 3\n", 1, PlanKind::Header),
    ("plan 3\norder 0\npeak 0\nneed 1\n", 4, PlanKind::Section),
    ("plan 3\norder 0\npeak 0\nbound x\n", 4, PlanKind::Number),
    (
        "plan 3\norder 0\npeak 0\nbound 0\nsome 1\n",
        5,
        PlanKind::Section,
    ),
    (
        "plan 3\norder 0\npeak 0\nbound 0\nneed 4294967296\n",
        5,
        PlanKind::Number,
    ),
    (
        "plan 3\norder 0\npeak 0\nbound 0\nneed 1\n",
        6,
        PlanKind::NoEnd,
    ),
    (
        "plan 3\norder 0\npeak 0\nbound 0\nstates\n",
        5,
        PlanKind::Section,
    ),
    (
        "plan 3\norder 0\npeak 0\nbound 0\nstates x\n",
        5,
        PlanKind::Number,
    ),
    (
        "plan 3\norder 0\npeak 0\nbound 0\nstates 4294967296\n",
        5,
        PlanKind::Number,
    ),
    (
        "plan 3\norder 0\npeak 0\nbound 0\nstates 7 7\n",
        5,
        PlanKind::Section,
    ),
    (
        "plan 3\norder 0\npeak 0\nbound 0\nstates 7\nneed 1\nend\n",
        6,
        PlanKind::NoEnd,
    ),
    (
        "plan 3\norder 0\npeak 0\nbound 0\nfirst 1\nblocker 1 0\n",
        6,
        PlanKind::Section,
    ),
    (
        "plan 3\norder 0\npeak 0\nbound 0\nlast 1\nbase 0\nend\n",
        7,
        PlanKind::Section,
    ),
    (
        "plan 3\norder 0\npeak 0\nbound 0\nlast 0\nbase 0\nblocker 1 0\n",
        7,
        PlanKind::NoEnd,
    ),
    (
        "plan 3\norder 0\npeak 0\nbound 0\nlast 0\nbase 1\n1\n",
        7,
        PlanKind::Amount,
    ),
    (
        "plan 3\norder 0\npeak 0\nbound 0\nlast 0\nbase 1\n0 1\n",
        7,
        PlanKind::Amount,
    ),
    (
        "plan 3\norder 0\npeak 0\nbound 0\nlast 0\nbase 1\n1 1152921504606846977\n",
        7,
        PlanKind::Number,
    ),
    (
        "plan 3\norder 0\npeak 0\nbound 0\nlast 0\nbase 2\n2 1\n2 1\n",
        8,
        PlanKind::Amount,
    ),
];

#[test]
fn refuses_the_first_fault(rt: HostRuntime) -> Result<(), Fail> {
    let alloc = rt.alloc();
    for (text, line, kind) in REFUSED {
        assert_eq!(rt;
            read_bounded_plan(alloc, text.as_bytes()).err(),
            Some(fault(line, kind)),
            "{text}"
        );
    }
    Ok(())
}

// Sets of more amounts than a plan may have: of a base, and of a blocker after a base with one.
const TOO_LONG: [&str; 2] = [
    "plan 3\norder 0\npeak 0\nbound 0\nlast 0\nbase 4000002\n",
    "plan 3\norder 0\npeak 0\nbound 0\nlast 1\nbase 1\n1 1\nblocker 1 4000001\n",
];

#[test]
fn refuses_too_many_amounts(rt: HostRuntime) -> Result<(), Fail> {
    let alloc = rt.alloc();
    for text in TOO_LONG {
        assert_eq!(rt;
            read_bounded_plan(alloc, text.as_bytes()).err(),
            Some(Refusal::Limit(LimitName::Positions)),
            "{text}"
        );
    }
    Ok(())
}
