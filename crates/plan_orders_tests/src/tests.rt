use mp_text::fault;
use plan_files::PlanKind;
use plan_orders::read_plan_order;
use std::process::Abort;
use std::test::Fail;

// Texts, and the order and the priority that each gives.
const READ: [(&str, &[u32], &[u32]); 11] = [
    (
        "plan 1\norder 2\n2\n1\npeak 4\nclaims 0\nend\n",
        &[2, 1],
        &[],
    ),
    (
        "plan 2\norder 2\n2\n1\npriority 2\n1\n2\npeak 4\nclaims 0\nend\n",
        &[2, 1],
        &[1, 2],
    ),
    (
        "% of a graph\nplan 3\norder 2\n2\n1\npeak 6\nbound 6\nstates 7\nend\n",
        &[2, 1],
        &[],
    ),
    (r#"{"claims":[],"order":[2,1],"peak":4}"#, &[2, 1], &[]),
    (
        r#"{"bound":6,"evidence":{"states":7},"order":[2,1],"peak":6}"#,
        &[2, 1],
        &[],
    ),
    (r#"{"order":[]}"#, &[], &[]),
    // white space before and behind, and within
    (" \t\r\n{ \"order\" : [ 3 , 1 ] } \n", &[3, 1], &[]),
    // what else there is may be anything, and of two members of a name the last counts
    (
        r#"{"order":[1],"priority":[9,9],"peak":"none","order":[2]}"#,
        &[2],
        &[],
    ),
    // numbers that no task has, and one twice, are for the tasks to refuse
    (
        r#"{"order":[0,7,7,4294967295]}"#,
        &[0, 7, 7, 4294967295],
        &[],
    ),
    // a name with an escape is that name
    (r#"{"\u006frder":[5]}"#, &[5], &[]),
    // the array may stand behind others that nest
    (r#"{"evidence":{"order":[9]},"order":[1]}"#, &[1], &[]),
];

#[test]
fn gives_the_order_of_each_form(rt: HostRuntime) -> Result<(), Fail> {
    let alloc = rt.alloc();
    for (text, order, priority) in READ {
        let found = read_plan_order(alloc, text.as_bytes())?;
        assert_eq!(rt; found.order(), order);
        assert_eq!(rt; found.priority(), priority);
    }
    Ok(())
}

// Texts, and the line and the kind of what refuses them.
const REFUSED: [(&str, u64, PlanKind); 20] = [
    // no form of JSON: as version 1 refuses it
    ("", 1, PlanKind::NoEnd),
    ("[1,2]", 1, PlanKind::Header),
    ("plan 4\n", 1, PlanKind::Header),
    ("plan 1\norder 1\n1\npeak x\n", 4, PlanKind::Number),
    // as version 3 does
    ("plan 3\norder 0\npeak 0\nneed 1\n", 4, PlanKind::Section),
    // no JSON
    ("{", 1, PlanKind::Json),
    (r#"{"order":[1,2}"#, 1, PlanKind::Json),
    (r#"{"order":[1,]}"#, 1, PlanKind::Json),
    (r#"{"order":[01]}"#, 1, PlanKind::Json),
    (r#"{"order":[1]} x"#, 1, PlanKind::Json),
    (r#"{"order":[1]}{}"#, 1, PlanKind::Json),
    // no such member, or one that is no array
    ("{}", 1, PlanKind::Json),
    (r#"{"Order":[1]}"#, 1, PlanKind::Json),
    (r#"{"order":{"1":2}}"#, 1, PlanKind::Json),
    (r#"{"order":1}"#, 1, PlanKind::Json),
    // numbers that are none of a task's
    (r#"{"order":[1,2.5]}"#, 1, PlanKind::Number),
    (r#"{"order":[1e0]}"#, 1, PlanKind::Number),
    (r#"{"order":[-1]}"#, 1, PlanKind::Number),
    (r#"{"order":[4294967296]}"#, 1, PlanKind::Number),
    (r#"{"order":["1"]}"#, 1, PlanKind::Number),
];

#[test]
fn names_the_first_fault(rt: HostRuntime) -> Result<(), Fail> {
    for (text, line, kind) in REFUSED {
        let refused = read_plan_order(rt.alloc(), text.as_bytes()).err();
        assert_eq!(rt; refused, Some(fault(line, kind)), "{text}");
    }
    Ok(())
}

#[test]
fn refuses_what_is_no_text(rt: HostRuntime) -> Result<(), Fail> {
    let refused = read_plan_order(rt.alloc(), b"{\"order\":[1],\"\xff\":2}").err();
    assert_eq!(rt; refused, Some(fault(1, PlanKind::Json)));
    Ok(())
}
