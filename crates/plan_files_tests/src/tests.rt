use mp_text::{Report, fault};
use plan_files::{PlanKind, plan_json, print_plan, print_plan_2, read_plan};
use plans::{Claim, Direction, Plan};
use std::alloc::Global;
use std::process::Abort;
use std::test::Fail;

const FIVE: &[u8] =
    b"plan 1\norder 5\n1\n3\n2\n4\n5\npeak 11\nclaims 4\n5 R 5 5\n10 R 5 5\n11 R 10 10\n13 R 10 0\nend\n";

const FIVE_2: &[u8] =
    b"plan 2\norder 5\n1\n3\n2\n4\n5\npriority 0\npeak 11\nclaims 4\n5 R 5 5\n10 R 5 5\n11 R 10 10\n13 R 10 0\nend\n";

const RANKED: &[u8] =
    b"plan 2\norder 4\n1\n2\n3\n4\npriority 4\n4\n3\n2\n1\npeak 6\nclaims 0\nend\n";

const LEAST: &[u8] = b"plan 1\norder 0\npeak 1152921504606846976\nclaims 2\n1 F -1 0\n\
    4294967295 F -1152921504606846976 1152921504606846976\nend\n";

const LEAST_2: &[u8] =
    b"plan 2\norder 0\npriority 0\npeak 1152921504606846976\nclaims 2\n1 F -1 0\n\
    4294967295 F -1152921504606846976 1152921504606846976\nend\n";

// 2^60, and its opposite.
const MOST: u64 = 1_152_921_504_606_846_976;

const LEAST_BOUND: i64 = -1_152_921_504_606_846_976;

fn claim(position: u32, dir: Direction, bound: i64, rest: u64) -> Claim {
    Claim {
        position,
        dir,
        bound,
        rest,
    }
}

fn printed(alloc: Global, plan: &Plan) -> Result<Report, Fail> {
    let mut report = Report::new(alloc);
    print_plan(plan, &mut report)?;
    Ok(report)
}

fn printed_2(alloc: Global, plan: &Plan) -> Result<Report, Fail> {
    let mut report = Report::new(alloc);
    print_plan_2(plan, &mut report)?;
    Ok(report)
}

// The text of a plan in the lowest version that it has, and in version 2.
fn check_file(
    rt: &impl Abort,
    alloc: Global,
    text: &[u8],
    one: &[u8],
    two: &[u8],
) -> Result<(), Fail> {
    let plan = read_plan(alloc, text)?;
    let report = printed(alloc, &plan)?;
    assert_eq!(rt; report.bytes(), one);
    let report_2 = printed_2(alloc, &plan)?;
    assert_eq!(rt; report_2.bytes(), two);
    Ok(())
}

// Plan files, in the lowest version that each has, and in version 2.
const FILES: [(&[u8], &[u8], &[u8]); 4] = [
    (FIVE, FIVE, FIVE_2),
    (FIVE_2, FIVE, FIVE_2),
    (RANKED, RANKED, RANKED),
    (LEAST, LEAST, LEAST_2),
];

#[test]
fn reads_and_prints(rt: HostRuntime) -> Result<(), Fail> {
    for (text, one, two) in FILES {
        check_file(&rt, rt.alloc(), text, one, two)?;
    }
    Ok(())
}

// Plan files, and their plans as JSON. The third and the fourth differ in the priority alone.
const JSON: [(&str, &str); 4] = [
    (
        "plan 1\norder 1\n1\npeak 9\nclaims 1\n3 R 8 7\nend\n",
        r#"{"claims":[[3,"R",8,7]],"order":[1],"peak":9}"#,
    ),
    (
        "plan 1\norder 0\npeak 20\nclaims 2\n1 F -1 0\n3 F 19 20\nend\n",
        r#"{"claims":[[1,"F",-1,0],[3,"F",19,20]],"order":[],"peak":20}"#,
    ),
    (
        "plan 1\norder 2\n1\n2\npeak 6\nclaims 0\nend\n",
        r#"{"claims":[],"order":[1,2],"peak":6}"#,
    ),
    (
        "plan 2\norder 2\n1\n2\npriority 2\n2\n1\npeak 6\nclaims 0\nend\n",
        r#"{"claims":[],"order":[1,2],"peak":6}"#,
    ),
];

#[test]
fn writes_json(rt: HostRuntime) -> Result<(), Fail> {
    let alloc = rt.alloc();
    for (text, json) in JSON {
        let plan = read_plan(alloc, text.as_bytes())?;
        plan.keeps();
        let found = plan_json(alloc, &plan)?;
        assert_eq!(rt; found.as_str(), json);
    }
    Ok(())
}

fn check_tasks(rt: &impl Abort, plan: &Plan, order: &[u32], priority: &[u32]) {
    assert_eq!(rt; plan.order(), order);
    assert_eq!(rt; plan.priority(), priority);
}

fn check_claims(rt: &impl Abort, plan: &Plan, peak: u64, claims: &[Claim]) {
    assert_eq!(rt; plan.peak(), peak);
    assert_eq!(rt; plan.claims(), claims);
}

#[test]
fn gives_the_parts(rt: HostRuntime) -> Result<(), Fail> {
    let plan = read_plan(rt.alloc(), FIVE)?;
    let claims = [
        claim(5, Direction::Backward, 5, 5),
        claim(10, Direction::Backward, 5, 5),
        claim(11, Direction::Backward, 10, 10),
        claim(13, Direction::Backward, 10, 0),
    ];
    check_tasks(&rt, &plan, &[1, 3, 2, 4, 5], &[]);
    check_claims(&rt, &plan, 11, &claims);
    Ok(())
}

#[test]
fn gives_a_priority(rt: HostRuntime) -> Result<(), Fail> {
    let plan = read_plan(rt.alloc(), RANKED)?;
    check_tasks(&rt, &plan, &[1, 2, 3, 4], &[4, 3, 2, 1]);
    check_claims(&rt, &plan, 6, &[]);
    Ok(())
}

#[test]
fn gives_claims_at_the_limits(rt: HostRuntime) -> Result<(), Fail> {
    let plan = read_plan(rt.alloc(), LEAST)?;
    let claims = [
        claim(1, Direction::Forward, -1, 0),
        claim(4_294_967_295, Direction::Forward, LEAST_BOUND, MOST),
    ];
    check_tasks(&rt, &plan, &[], &[]);
    check_claims(&rt, &plan, MOST, &claims);
    Ok(())
}

// Comments, blank lines, other spaces and zeros before a number.
const LOOSE: &[u8] =
    b"# a\r\nplan  1 \r\n\n\torder 01\r\n%\n007\npeak 00\nclaims 1\n1\tF  -0 0\n end";

#[test]
fn passes_over_what_says_nothing(rt: HostRuntime) -> Result<(), Fail> {
    let plan = read_plan(rt.alloc(), LOOSE)?;
    check_tasks(&rt, &plan, &[7], &[]);
    check_claims(&rt, &plan, 0, &[claim(1, Direction::Forward, 0, 0)]);
    Ok(())
}

// The plan of five nodes is cut off before each of its lines.
#[test]
fn refuses_what_ends_early(rt: HostRuntime) -> Result<(), Fail> {
    let alloc = rt.alloc();
    let ends = [0, 7, 15, 17, 19, 21, 23, 25, 33, 42, 50, 59, 70, 80];
    for (before, bytes) in ends.iter().enumerate() {
        let part = FIVE.get(..*bytes).ok_or("a part of the file")?;
        let refusal = fault(before as u64 + 1, PlanKind::NoEnd);
        assert_eq!(rt; read_plan(alloc, part).err(), Some(refusal));
    }
    Ok(())
}

// How a text begins, how it goes on, and the words of its refusal.
const REFUSED: [(&str, &[(&str, &str)]); 4] = [
    (
        "",
        &[
            ("plan 3\n", "header at line 1"),
            ("plan\n", "header at line 1"),
            ("plan 1 1\n", "header at line 1"),
            ("tree 1\n", "header at line 1"),
            ("# a\nplan 01\n", "header at line 2"),
            ("plan 1\npeak 0\n", "section at line 2"),
            ("plan 1\norder\n", "section at line 2"),
            ("plan 1\norder 1 1\n", "section at line 2"),
            ("plan 1\norder x\n", "number at line 2"),
            ("plan 1\norder 0\npriority 0\n", "section at line 3"),
            ("plan 2\norder 0\npeak 0\n", "section at line 3"),
            ("plan 2\norder 0\npriority x\n", "number at line 3"),
            ("plan 2\norder 2\n1\n2\npriority 1\n", "priority at line 5"),
            (
                "plan 2\norder 4\n1\n2\n3\n4\npriority 4\n3\n3\n1\n4\npeak 6\nclaims 0\nend\n",
                "priority at line 9",
            ),
            ("plan 1\norder 0\nclaims 0\n", "section at line 3"),
            ("plan 1\norder 0\npeak -1\n", "number at line 3"),
            (
                "plan 1\norder 0\npeak 1152921504606846977\n",
                "number at line 3",
            ),
            ("plan 1\norder 1000001\n", "limit tasks"),
        ],
    ),
    (
        "plan 1\norder 1\n",
        &[
            ("1 1\n", "order at line 3"),
            ("x\n", "number at line 3"),
            ("end\n", "number at line 3"),
            ("4294967296\n", "number at line 3"),
            ("1\n2\n", "section at line 4"),
        ],
    ),
    (
        "plan 2\norder 1\n1\n",
        &[
            ("priority 2\n", "priority at line 4"),
            ("priority 1\n1 1\n", "priority at line 5"),
            ("priority 1\nx\n", "number at line 5"),
            ("priority 1\n0\n", "priority at line 5"),
            ("priority 1\n2\n", "priority at line 5"),
        ],
    ),
    (
        "plan 1\norder 0\npeak 0\n",
        &[
            ("end\n", "section at line 4"),
            ("claims x\n", "number at line 4"),
            ("claims 1\n1 F 0\n", "claim at line 5"),
            ("claims 1\n1 f 0 0\n", "claim at line 5"),
            ("claims 1\nend\n", "claim at line 5"),
            ("claims 1\nx F 0 0\n", "number at line 5"),
            ("claims 1\n1 F -1152921504606846977 0\n", "number at line 5"),
            ("claims 1\n1 F 0 1152921504606846977\n", "number at line 5"),
            ("claims 1\n0 F 0 0\n", "claim at line 5"),
            ("claims 2\n2 F 0 0\n2 R 0 0\n", "claim at line 6"),
            ("claims 0\nend end\n", "no-end at line 5"),
            ("claims 0\n1 F 0 0\n", "no-end at line 5"),
            ("claims 0\nend\n\nend\n", "no-end at line 7"),
            ("claims 4000002\n", "limit positions"),
        ],
    ),
];

// Why a text of two parts is refused, in words.
fn refusal_of(alloc: Global, start: &str, rest: &'static str) -> Result<String, Fail> {
    let text = format!(in alloc; "{start}{rest}")?;
    let refusal = read_plan(alloc, text.as_bytes()).err().ok_or(rest)?;
    Ok(format!(in alloc; "{refusal}")?)
}

#[test]
fn refuses_with_the_kind_and_the_line(rt: HostRuntime) -> Result<(), Fail> {
    for (start, rows) in REFUSED {
        for (rest, said) in rows {
            let words = refusal_of(rt.alloc(), start, rest)?;
            assert_eq!(rt; words.as_str(), *said, "{start}{rest}");
        }
    }
    Ok(())
}
