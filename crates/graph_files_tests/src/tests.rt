//! Graph files, and what their graphs are as systems.

use graph_files::read_graph;
use graphs::{Arc, Graph, system_of_graph};
use mp_system::{Item, System, Task};
use std::alloc::Global;
use std::process::Abort;
use std::test::Fail;

// Two tasks between a first and a last one.
const FOUR: &str =
    "graph 1\ntasks 4\n0 0 1\n2 0 1\n3 0 1\n0 0 1\narcs 4\n1 2 5\n1 3 6\n2 4 1\n3 4 2\nend\n";

fn read(alloc: Global, text: &str) -> Result<Graph, Fail> {
    Ok(read_graph(alloc, text.as_bytes())?)
}

fn task(extra: u64, share: u64) -> Task {
    Task {
        extra,
        share,
        time: 1,
    }
}

fn arc(from: u32, to: u32, size: u64) -> Arc {
    Arc { from, to, size }
}

fn item(size: u64, from: Option<u32>, to: Option<u32>) -> Item {
    Item { size, from, to }
}

#[test]
fn reads_tasks_and_arcs_in_their_order(rt: HostRuntime) -> Result<(), Fail> {
    let alloc = rt.alloc();
    let graph = read(alloc, FOUR)?;
    let tasks = [task(0, 0), task(2, 0), task(3, 0), task(0, 0)];
    assert_eq!(rt; graph.tasks(), tasks.as_slice());
    let arcs = [arc(1, 2, 5), arc(1, 3, 6), arc(2, 4, 1), arc(3, 4, 2)];
    assert_eq!(rt; graph.arcs(), arcs.as_slice());
    Ok(())
}

#[test]
fn passes_over_what_says_nothing(rt: HostRuntime) -> Result<(), Fail> {
    let tasks = [task(3, 2), task(0, 0)];
    let arcs = [arc(2, 1, 4), arc(0, 0, 7), arc(2, 1, 0)];
    for text in [
        "graph 1\ntasks 2\n3 2 1\n0 0 1\narcs 3\n2 1 4\n0 0 7\n2 1 0\nend",
        "% a\n\n# b\ngraph 1\n \t\ntasks 2\n#\n3 2 1\n0 0 1\n\r\narcs 3\n2 1 4\n0 0 7\n2 1 0\nend\n\n#\n",
        "graph 1\r\ntasks 2\r\n3 2 1\r\n0 0 1\r\narcs 3\r\n2 1 4\r\n0 0 7\r\n2 1 0\r\nend\r\n",
        "\tgraph\t1 \n tasks \t02\n\t3 002 1\n0 0 1 \n arcs 3\n2  1\t4\n0 00 7\n2 1 0 \n end \n",
    ] {
        let graph = read(rt.alloc(), text)?;
        assert_eq!(rt; graph.tasks(), tasks.as_slice(), "at {text:?}");
        assert_eq!(rt; graph.arcs(), arcs.as_slice(), "at {text:?}");
    }
    Ok(())
}

#[test]
fn an_arc_leads_into_each_task_and_out_of_it(rt: HostRuntime) -> Result<(), Fail> {
    let graph = read(rt.alloc(), FOUR)?;
    let all = [
        arc(1, 2, 5),
        arc(1, 3, 6),
        arc(2, 4, 1),
        arc(3, 4, 2),
        arc(0, 1, 0),
        arc(4, 0, 0),
    ];
    assert_eq!(rt; graph.completed_arcs(), all.as_slice());
    Ok(())
}

const APART: &str = "graph 1\ntasks 2\n0 0 1\n0 0 1\narcs 1\n0 2 3\nend\n";

#[test]
fn arcs_lead_into_and_out_of_tasks_that_stand_apart(rt: HostRuntime) -> Result<(), Fail> {
    let graph = read(rt.alloc(), APART)?;
    let all = [arc(0, 2, 3), arc(0, 1, 0), arc(1, 0, 0), arc(2, 0, 0)];
    assert_eq!(rt; graph.completed_arcs(), all.as_slice());
    Ok(())
}

// Two arcs from the second task to the first, and one that has no task.
const BACK: &str = "graph 1\ntasks 2\n3 2 1\n0 0 1\narcs 3\n2 1 4\n0 0 7\n2 1 0\nend\n";

fn system_of_back(alloc: Global) -> Result<System, Fail> {
    Ok(system_of_graph(alloc, &read(alloc, BACK)?)?)
}

#[test]
fn the_tasks_of_a_graph_are_those_of_its_system(rt: HostRuntime) -> Result<(), Fail> {
    let system = system_of_back(rt.alloc())?;
    assert_eq!(rt; system.tasks(), [task(3, 2), task(0, 0)].as_slice());
    Ok(())
}

#[test]
fn each_arc_is_an_item(rt: HostRuntime) -> Result<(), Fail> {
    let system = system_of_back(rt.alloc())?;
    let items = [
        item(4, Some(2), Some(1)),
        item(7, None, None),
        item(0, Some(2), Some(1)),
        item(0, None, Some(2)),
        item(0, Some(1), None),
    ];
    assert_eq!(rt; system.items(), items.as_slice());
    Ok(())
}

// Why a file is refused, in words.
fn refusal_of(alloc: Global, text: &str) -> Result<String, Fail> {
    match read_graph(alloc, text.as_bytes()) {
        Ok(_) => Err(Fail::new("this file is not refused")),
        Err(refusal) => Ok(format!(in alloc; "{refusal}")?),
    }
}

#[rattlefmt::skip]
const REFUSALS: &[(&str, &str)] = &[
    ("graph\ntasks 0\n", "header at line 1"),
    ("graph 2\ntasks 0\n", "header at line 1"),
    ("graph 1 1\ntasks 0\n", "header at line 1"),
    ("# a\ngraph 01\n", "header at line 2"),
    ("graph 1\ntasks\n", "section at line 2"),
    ("graph 1\ntask 1\n", "section at line 2"),
    ("graph 1\ntasks 1 1\n", "section at line 2"),
    ("graph 1\ntasks x\n", "number at line 2"),
    ("graph 1\ntasks 1\n0 0\n", "number at line 3"),
    ("graph 1\ntasks 1\n0 0 1 1\n", "number at line 3"),
    ("graph 1\ntasks 1\n0 0 0\n", "number at line 3"),
    ("graph 1\ntasks 1\n0 -1 1\n", "number at line 3"),
    ("graph 1\ntasks 1\n0 18446744073709551616 1\n", "number at line 3"),
    ("graph 1\ntasks 1\n0 0 1\nend\n", "section at line 4"),
    ("graph 1\ntasks 1\n0 0 1\narcs 1 1\n", "section at line 4"),
    ("graph 1\ntasks 0\narcs x\n", "number at line 3"),
    ("graph 1\ntasks 1\n0 0 1\narcs 1\n0 1\n", "number at line 5"),
    ("graph 1\ntasks 1\n0 0 1\narcs 1\n0 1 x\n", "number at line 5"),
    ("graph 1\ntasks 1\n0 0 1\narcs 1\n0 2 x\n", "number at line 5"),
    ("graph 1\ntasks 1\n0 0 1\narcs 1\n0 2 1\n", "arc at line 5"),
    ("graph 1\ntasks 1\n0 0 1\narcs 1\n2 0 1\n", "arc at line 5"),
    ("graph 1\ntasks 4\n0 0 1\n2 0 1\n3 0 1\n0 0 1\narcs 1\n1 1 1\nend\n", "arc at line 8"),
    ("graph 1\ntasks 0\narcs 0\nend end\n", "section at line 4"),
    ("graph 1\ntasks 0\narcs 0\n0 0 1\nend\n", "section at line 4"),
    ("graph 1\ntasks 0\narcs 0\nend\nend\n", "section at line 5"),
    ("graph 1\ntasks 4\n0 0 1\n2 0 1\n3 0 1\n0 0 1\narcs 2\n1 2 1\n2 1 1\nend\n", "cycle at line 3"),
    ("graph 1\ntasks 3\n0 0 1\n\n0 0 1\n0 0 1\narcs 2\n2 3 1\n3 2 1\nend\n", "cycle at line 5"),
    ("graph 1\ntasks 3\n0 0 1\n0 0 1\n0 0 1\narcs 3\n2 3 1\n3 2 1\n2 1 1\nend\n", "cycle at line 3"),
    ("graph 1\ntasks 2\n0 9 1\n0 0 1\narcs 2\n1 2 1\n2 1 1\nend\n", "cycle at line 3"),
    ("graph 1\ntasks 2\n0 0 1\n9 5 1\narcs 1\n1 2 4\nend\n", "share at line 4"),
    ("graph 1\ntasks 2\n0 0 1\n3 4 1\narcs 1\n1 2 4\nend\n", "share at line 4"),
    ("graph 1\ntasks 2\n9 1 1\n9 5 1\narcs 1\n1 2 4\nend\n", "share at line 3"),
    ("graph 1\ntasks 1000001\n", "limit tasks"),
    ("graph 1\ntasks 1\n1099511627777 0 1\n", "limit size"),
    ("graph 1\ntasks 1\n0 0 1099511627777\n", "limit time"),
    ("graph 1\ntasks 1\n1099511627777 0 1099511627777\n", "limit size"),
    ("graph 1\ntasks 0\narcs 2000002\n", "limit arcs"),
    ("graph 1\ntasks 0\narcs 1\n0 0 1099511627777\n", "limit size"),
    ("graph 1\ntasks 1\n0 0 1\narcs 1\n2 2 1099511627777\n", "arc at line 5"),
];

#[test]
fn refuses_with_the_kind_and_the_line(rt: HostRuntime) -> Result<(), Fail> {
    let alloc = rt.alloc();
    for (text, words) in REFUSALS {
        let found = refusal_of(alloc, text)?;
        assert_eq!(rt; found.as_str(), *words, "at {text:?}");
    }
    let most = "graph 1\ntasks 1\n1099511627776 5 1099511627776\narcs 1\n0 1 1099511627776\nend\n";
    let graph = read(alloc, most)?;
    assert_eq!(rt; graph.tasks().len(), 1);
    Ok(())
}

// The start of a file, which ends after so many lines.
fn check_start(rt: &impl Abort, alloc: Global, start: &str, before: usize) -> Result<(), Fail> {
    let words = format!(in alloc; "no-end at line {}", before.saturating_add(1))?;
    let found = refusal_of(alloc, start)?;
    assert_eq!(rt; found.as_str(), words.as_str());
    Ok(())
}

#[test]
fn a_file_that_ends_early_has_no_end(rt: HostRuntime) -> Result<(), Fail> {
    let mut text = String::new(rt.alloc());
    for (before, line) in FOUR.split_inclusive('\n').enumerate() {
        check_start(&rt, rt.alloc(), &text, before)?;
        text.push_str(line)?;
    }
    assert_eq!(rt; text.as_str(), FOUR);
    Ok(())
}

#[test]
fn a_share_that_just_fits(rt: HostRuntime) -> Result<(), Fail> {
    let text = "graph 1\ntasks 2\n0 0 1\n3 4 1\narcs 2\n1 2 4\n2 0 1\nend\n";
    let graph = read(rt.alloc(), text)?;
    assert_eq!(rt; graph.tasks().len(), 2);
    Ok(())
}
