use super::{FIVE, SHARED, read};
use mp_system::{Item, System, Task};
use mp_text::Report;
use std::alloc::Global;
use std::process::Abort;
use std::test::Fail;
use tree_files::{print_tree, print_tree_2, read_tree};
use trees::{Node, Tree, system_of_tree};

const FIVE_2: &str =
    "tree 2\nnodes 5\n2 1 9 0 1\n5 5 0 0 1\n4 1 9 0 1\n5 5 0 0 1\n0 0 0 0 1\nend\n";

fn node(parent: u32, out: u64, extra: u64, share: u64) -> Node {
    Node {
        parent,
        out,
        extra,
        share,
        time: 1,
    }
}

fn printed(alloc: Global, tree: &Tree) -> Result<Report, Fail> {
    let mut report = Report::new(alloc);
    print_tree(tree, &mut report)?;
    Ok(report)
}

fn printed_2(alloc: Global, tree: &Tree) -> Result<Report, Fail> {
    let mut report = Report::new(alloc);
    print_tree_2(tree, &mut report)?;
    Ok(report)
}

// The text of a tree in the lowest version that it has, and in version 2.
fn check_texts(
    rt: &impl Abort,
    alloc: Global,
    tree: &Tree,
    one: &str,
    two: &str,
) -> Result<(), Fail> {
    let report = printed(alloc, tree)?;
    assert_eq!(rt; report.bytes(), one.as_bytes());
    let report_2 = printed_2(alloc, tree)?;
    assert_eq!(rt; report_2.bytes(), two.as_bytes());
    Ok(())
}

// .. and its nodes.
fn check_file(
    rt: &impl Abort,
    alloc: Global,
    text: &str,
    nodes: &[Node],
    one: &str,
    two: &str,
) -> Result<(), Fail> {
    let tree = read(alloc, text)?;
    assert_eq!(rt; tree.nodes(), nodes);
    check_texts(rt, alloc, &tree, one, two)
}

#[test]
fn reads_and_prints(rt: HostRuntime) -> Result<(), Fail> {
    let nodes = [
        node(2, 1, 9, 0),
        node(5, 5, 0, 0),
        node(4, 1, 9, 0),
        node(5, 5, 0, 0),
        node(0, 0, 0, 0),
    ];
    for text in [FIVE, FIVE_2] {
        check_file(&rt, rt.alloc(), text, &nodes, FIVE, FIVE_2)?;
    }
    Ok(())
}

#[test]
fn a_share_is_printed_in_version_2(rt: HostRuntime) -> Result<(), Fail> {
    let nodes = [node(2, 4, 0, 0), node(0, 3, 2, 4)];
    check_file(&rt, rt.alloc(), SHARED, &nodes, SHARED, SHARED)
}

#[test]
fn passes_over_what_says_nothing(rt: HostRuntime) -> Result<(), Fail> {
    let nodes = [node(2, 4, 0, 0), node(0, 3, 2, 0)];
    for text in [
        "tree 1\nnodes 2\n2 4 0 1\n0 3 2 1\nend",
        "% a\n\n# b\ntree 1\n \t\nnodes 2\n#\n2 4 0 1\n%% c\n0 3 2 1\n\r\nend\n\n# d\n",
        "tree 1\r\nnodes 2\r\n2 4 0 1\r\n0 3 2 1\r\nend\r\n",
        "\ttree\t1 \n nodes \t2\n\t2  4\t0 1\t\n0 3 2 1 \nend \n",
        "tree 1\nnodes 02\n0002 004 00 01\n000 3 2 1\nend\n",
        "tree 2\nnodes 2\n2 4 0 0 1\n0 3 2 00 1\nend\n",
    ] {
        let tree = read(rt.alloc(), text)?;
        assert_eq!(rt; tree.nodes(), nodes.as_slice(), "at {text:?}");
    }
    Ok(())
}

fn system_of_five(alloc: Global) -> Result<System, Fail> {
    Ok(system_of_tree(alloc, &read(alloc, FIVE)?)?)
}

#[test]
fn each_node_is_a_task(rt: HostRuntime) -> Result<(), Fail> {
    let system = system_of_five(rt.alloc())?;
    let tasks = [9, 0, 9, 0, 0].map(|extra| Task {
        extra,
        share: 0,
        time: 1,
    });
    assert_eq!(rt; system.tasks(), tasks.as_slice());
    Ok(())
}

#[test]
fn each_node_is_an_item(rt: HostRuntime) -> Result<(), Fail> {
    let system = system_of_five(rt.alloc())?;
    let items = [
        (1, 1, Some(2)),
        (5, 2, Some(5)),
        (1, 3, Some(4)),
        (5, 4, Some(5)),
        (0, 5, None),
    ]
    .map(|(size, from, to)| Item {
        size,
        from: Some(from),
        to,
    });
    assert_eq!(rt; system.items(), items.as_slice());
    Ok(())
}

// Why a file is refused, in words.
fn refusal_of(alloc: Global, text: &str) -> Result<String, Fail> {
    match read_tree(alloc, text.as_bytes()) {
        Ok(_) => Err(Fail::new("this file is not refused")),
        Err(refusal) => Ok(format!(in alloc; "{refusal}")?),
    }
}

#[rattlefmt::skip]
const REFUSALS: &[(&str, &str)] = &[
    ("tree 1\nnodes 5\n2 1 9 1\n5 5 0 1\n4 1 9 1\n5 5 0 1\n0 0 0 1\nen", "count at line 8"),
    ("tree 1\nnodes 5\n2 1 9 1\n5 5 0 1\n4 1 9 1\n5 5 0 1\n0 0 0 1\n0 0 0 1\nend\n", "count at line 8"),
    ("tree 1\nnodes 5\n2 1 9 1\nend\n", "count at line 4"),
    ("tree 1\nnodes 1\n0 0 0 1\nend\nend\n", "count at line 5"),
    ("tree 1\nnodes 1\n0 0 0 1\nend end\n", "count at line 4"),
    ("tree 3\nnodes 1\n0 0 0 1\nend\n", "header at line 1"),
    ("tree\nnodes 1\n", "header at line 1"),
    ("tree 1 1\nnodes 1\n", "header at line 1"),
    ("# a\ntree 01\n", "header at line 2"),
    ("tree 1\nnodes\n", "header at line 2"),
    ("tree 1\nnode 1\n", "header at line 2"),
    ("tree 1\nnodes 1 1\n", "header at line 2"),
    ("tree 1\nnodes 0\n", "count at line 2"),
    ("tree 1\nnodes x\n", "number at line 2"),
    ("tree 1\nnodes 5\n6 1 9 1\n", "parent at line 3"),
    ("tree 1\nnodes 5\n2 1 9\n", "number at line 3"),
    ("tree 1\nnodes 5\n2 1 9 0 1\n", "number at line 3"),
    ("tree 2\nnodes 5\n2 1 9 1\n", "number at line 3"),
    ("tree 1\nnodes 5\n2 1 9 0\n", "number at line 3"),
    ("tree 1\nnodes 5\n2 1 18446744073709551616 1\n", "number at line 3"),
    ("tree 1\nnodes 5\n2 -1 9 1\n", "number at line 3"),
    ("tree 1\nnodes 5\n2 1\09 9 1\n", "number at line 3"),
    ("tree 1\nnodes 1\n1 1 2 1\nend\n", "cycle at line 3"),
    ("tree 1\nnodes 2\n2 0 0 1\n1 0 0 1\nend\n", "cycle at line 3"),
    ("tree 1\nnodes 3\n0 0 0 1\n\n3 0 0 1\n3 0 0 1\nend\n", "cycle at line 5"),
    ("tree 2\nnodes 2\n2 4 0 0 1\n0 3 2 5 1\nend\n", "share at line 4"),
    ("tree 2\nnodes 2\n2 6 0 0 1\n0 3 2 6 1\nend\n", "share at line 4"),
    ("tree 1\nnodes 1000001\n", "limit tasks"),
    ("tree 1\nnodes 1\n0 1099511627777 0 1\nend\n", "limit size"),
    ("tree 1\nnodes 1\n0 0 1099511627777 1\nend\n", "limit size"),
    ("tree 1\nnodes 1\n0 1 1 1099511627777\nend\n", "limit time"),
    ("tree 1\nnodes 1\n0 1099511627777 1 1099511627777\nend\n", "limit size"),
];

#[test]
fn refuses_with_the_kind_and_the_line(rt: HostRuntime) -> Result<(), Fail> {
    let alloc = rt.alloc();
    for (text, words) in REFUSALS {
        let found = refusal_of(alloc, text)?;
        assert_eq!(rt; found.as_str(), *words, "at {text:?}");
    }
    let most = "tree 1\nnodes 1\n0 1099511627776 1099511627776 1099511627776\nend\n";
    let tree = read(alloc, most)?;
    assert_eq!(rt; tree.nodes().len(), 1);
    Ok(())
}

// The start of a file, which ends after so many lines.
fn check_start(rt: &impl Abort, alloc: Global, start: &str, before: usize) -> Result<(), Fail> {
    let words = format!(in alloc; "no-end at line {}", before.saturating_add(1))?;
    let found = refusal_of(alloc, start)?;
    assert_eq!(rt; found.as_str(), words.as_str());
    Ok(())
}

#[test]
fn a_file_that_ends_early_has_no_end(rt: HostRuntime) -> Result<(), Fail> {
    let mut text = String::new(rt.alloc());
    for (before, line) in FIVE.split_inclusive('\n').enumerate() {
        check_start(&rt, rt.alloc(), &text, before)?;
        text.push_str(line)?;
    }
    assert_eq!(rt; text.as_str(), FIVE);
    Ok(())
}
