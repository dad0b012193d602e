//! Graphs as terms, and the rests of those that have none.

use graph_files::read_graph;
use graphs::{Graph, system_of_graph};
use mp_system::{Item, System, Task};
use mp_text::Report;
use sp_reduce::{NoMemory, ReduceRefusal, Reduced, reduce};
use sp_terms::system_of;
use std::alloc::Global;
use std::test::Fail;
use workflow_files::{print_named, print_workflow, read_workflow};

// Two tasks between a first and a last one.
const FOUR: &str =
    "graph 1\ntasks 4\n0 0 1\n2 0 1\n3 0 1\n0 0 1\narcs 4\n1 2 5\n1 3 6\n2 4 1\n3 4 2\nend\n";

fn read(alloc: Global, text: &str) -> Result<Graph, Fail> {
    Ok(read_graph(alloc, text.as_bytes())?)
}

fn reduced(alloc: Global, graph: &Graph) -> Result<Reduced, Fail> {
    match reduce(alloc, graph) {
        Ok(reduced) => Ok(reduced),
        Err(_) => Err(Fail::new("this graph has no term")),
    }
}

fn rest_of(alloc: Global, text: &str) -> Result<Vec<(u32, u32)>, Fail> {
    match reduce(alloc, &read(alloc, text)?) {
        Err(ReduceRefusal::Rest(arcs)) => Ok(arcs),
        _ => Err(Fail::new("this graph has no rest")),
    }
}

// The name of the task at an end, 0 where there is none.
fn name_at(names: &[u32], end: Option<u32>) -> u32 {
    match end {
        None => 0,
        Some(task) => names
            .get(task.saturating_sub(1) as usize)
            .copied()
            .unwrap_or(0),
    }
}

// The ends of items by their names, and the sizes, in rising order.
fn rows_of(alloc: Global, items: &[Item], names: &[u32]) -> Result<Vec<(u32, u32, u64)>, NoMemory> {
    let mut rows = Vec::new(alloc);
    for item in items {
        rows.push((
            name_at(names, item.from),
            name_at(names, item.to),
            item.size,
        ))?;
    }
    rows.sort()?;
    Ok(rows)
}

// The names of tasks that keep their own: 1, 2, ..
fn own_names(alloc: Global, count: u32) -> Result<Vec<u32>, NoMemory> {
    let mut own = Vec::new(alloc);
    for task in 0..count {
        own.push(task.saturating_add(1))?;
    }
    Ok(own)
}

// Whether each task is the one of its name.
fn has_tasks(tasks: &[Task], names: &[u32], whole: &[Task]) -> bool {
    for (k, name) in names.iter().enumerate() {
        if tasks.get(k) != whole.get(name.saturating_sub(1) as usize) {
            return false;
        }
    }
    true
}

// Whether the items under these names are those of the whole.
fn has_items(
    alloc: Global,
    items: &[Item],
    names: &[u32],
    whole: &System,
) -> Result<bool, NoMemory> {
    let own = own_names(alloc, whole.tasks().len() as u32)?;
    let rows = rows_of(alloc, items, names)?;
    let wanted = rows_of(alloc, whole.items(), &own)?;
    Ok(rows.as_slice() == wanted.as_slice())
}

// Whether the term has the tasks and the items of the graph's completed system, under its names.
fn has_its_system(alloc: Global, graph: &Graph, reduced: &Reduced) -> Result<bool, NoMemory> {
    let whole = system_of_graph(alloc, graph)?;
    let system = system_of(alloc, &reduced.terms)?;
    if !has_tasks(system.tasks(), &reduced.names, whole.tasks()) {
        return Ok(false);
    }
    has_items(alloc, system.items(), &reduced.names, &whole)
}

// Tasks with one arc in and one out are taken out from the last one on: 3, then 2 beside it, then 4 and 1.
const WORKFLOW: &str =
    "workflow 1\ntasks 4\ndata 0\ndata 6\ndata 2\ntask 3 1\ndata 5\ndata 1\ntask 2 1\npar 2\ndata 0\ntask 0 1\ntask 0 1\nend\n";

const NAMES: &str = "# 1 3\n# 2 2\n# 3 4\n# 4 1\n";

// The term of the four tasks, and its names.
fn reduced_four(alloc: Global) -> Result<Reduced, Fail> {
    reduced(alloc, &read(alloc, FOUR)?)
}

fn printed(alloc: Global, reduced: &Reduced) -> Result<Report, Fail> {
    let mut report = Report::new(alloc);
    print_named(&reduced.terms, &reduced.names, &mut report)?;
    Ok(report)
}

#[test]
fn prints_a_term_and_its_names(rt: HostRuntime) -> Result<(), Fail> {
    let alloc = rt.alloc();
    let report = printed(alloc, &reduced_four(alloc)?)?;
    let text = format!(in alloc; "{WORKFLOW}{NAMES}")?;
    assert_eq!(rt; report.bytes(), text.as_bytes());
    Ok(())
}

// A workflow file, printed anew.
fn printed_again(alloc: Global, text: &[u8]) -> Result<Report, Fail> {
    let mut report = Report::new(alloc);
    print_workflow(&read_workflow(alloc, text)?, &mut report)?;
    Ok(report)
}

#[test]
fn a_term_with_names_is_a_workflow_file(rt: HostRuntime) -> Result<(), Fail> {
    let alloc = rt.alloc();
    let report = printed(alloc, &reduced_four(alloc)?)?;
    let again = printed_again(alloc, report.bytes())?;
    assert_eq!(rt; again.bytes(), WORKFLOW.as_bytes());
    Ok(())
}

#[test]
fn a_term_and_its_names(rt: HostRuntime) -> Result<(), Fail> {
    let alloc = rt.alloc();
    let graph = read(alloc, FOUR)?;
    let reduced = reduced(alloc, &graph)?;
    assert_eq!(rt; reduced.names.as_slice(), [3, 2, 4, 1].as_slice());
    assert!(rt; has_its_system(alloc, &graph, &reduced)?);
    Ok(())
}

#[rattlefmt::skip]
const TERMS: &[&str] = &[
    "graph 1\ntasks 4\n0 0 1\n2 0 1\n3 0 1\n0 0 1\narcs 4\n3 4 2\n2 4 1\n1 3 6\n1 2 5\nend\n",
    "graph 1\ntasks 4\n0 0 1\n2 0 1\n3 0 1\n0 0 1\narcs 4\n4 2 5\n4 3 6\n2 1 1\n3 1 2\nend\n",
    "graph 1\ntasks 4\n0 0 1\n2 0 1\n3 0 1\n0 0 1\narcs 3\n1 2 5\n2 3 6\n3 4 1\nend\n",
    "graph 1\ntasks 2\n1 0 2\n7 3 1\narcs 5\n1 2 0\n1 2 4\n1 2 0\n0 0 9\n0 1 8\nend\n",
    "graph 1\ntasks 1\n5 0 3\narcs 0\nend\n",
    "graph 1\ntasks 3\n0 0 1\n0 0 1\n0 0 1\narcs 0\nend\n",
    "graph 1\ntasks 0\narcs 1\n0 0 5\nend\n",
    "graph 1\ntasks 0\narcs 3\n0 0 5\n0 0 5\n0 0 7\nend\n",
    "graph 1\ntasks 5\n0 0 1\n1 0 1\n2 0 1\n3 0 1\n4 0 1\narcs 6\n1 2 1\n1 3 2\n2 4 3\n2 5 4\n4 3 5\n5 3 6\nend\n",
];

#[test]
fn a_term_has_the_completed_system(rt: HostRuntime) -> Result<(), Fail> {
    let alloc = rt.alloc();
    for text in TERMS {
        let graph = read(alloc, text)?;
        let reduced = reduced(alloc, &graph)?;
        assert_eq!(rt; reduced.names.len(), graph.tasks().len(), "at {text:?}");
        assert!(rt; has_its_system(alloc, &graph, &reduced)?, "at {text:?}");
    }
    Ok(())
}

#[rattlefmt::skip]
const RESTS: &[(&str, &[(u32, u32)])] = &[
    ("graph 1\ntasks 0\narcs 0\nend\n", &[]),
    ("graph 1\ntasks 4\n0 0 1\n2 0 1\n3 0 1\n0 0 1\narcs 5\n1 2 5\n1 3 6\n2 4 1\n3 4 2\n2 3 1\nend\n",
        &[(0, 1), (1, 2), (1, 3), (2, 3), (2, 4), (3, 4), (4, 0)]),
    ("graph 1\ntasks 5\n0 0 1\n2 0 1\n3 0 1\n0 0 1\n0 0 1\narcs 7\n5 3 1\n3 4 2\n2 4 1\n1 3 6\n1 2 5\n2 5 1\n1 2 0\nend\n",
        &[(0, 1), (1, 2), (1, 3), (2, 3), (2, 4), (3, 4), (4, 0)]),
    ("graph 1\ntasks 4\n0 0 1\n0 0 1\n0 0 1\n0 0 1\narcs 4\n1 3 1\n1 4 1\n2 3 1\n2 4 1\nend\n",
        &[(0, 1), (0, 2), (1, 3), (1, 4), (2, 3), (2, 4), (3, 0), (4, 0)]),
];

#[test]
fn a_rest_in_rising_order(rt: HostRuntime) -> Result<(), Fail> {
    let alloc = rt.alloc();
    for (text, arcs) in RESTS {
        let found = rest_of(alloc, text)?;
        assert_eq!(rt; found.as_slice(), *arcs, "at {text:?}");
    }
    Ok(())
}

fn add_tasks(text: &mut String, count: u32) -> Result<(), Fail> {
    for _ in 0..count {
        text.push_str("1 0 1\n")?;
    }
    Ok(())
}

// Arcs into each branch and out of it.
fn add_branches(alloc: Global, text: &mut String) -> Result<(), Fail> {
    for branch in 2..1002 {
        text.push_str(&format!(in alloc; "1 {branch} 3\n{branch} 1002 4\n")?)?;
    }
    Ok(())
}

// The file of a graph with a thousand tasks between the first and the last.
fn fork(alloc: Global) -> Result<String, Fail> {
    let mut text = String::new(alloc);
    text.push_str("graph 1\ntasks 1002\n")?;
    add_tasks(&mut text, 1002)?;
    text.push_str("arcs 2000\n")?;
    add_branches(alloc, &mut text)?;
    text.push_str("end\n")?;
    Ok(text)
}

fn graph_of_a_fork(alloc: Global) -> Result<Graph, Fail> {
    let text = fork(alloc)?;
    read(alloc, &text)
}

#[test]
fn a_fork_of_a_thousand_branches(rt: HostRuntime) -> Result<(), Fail> {
    let alloc = rt.alloc();
    let graph = graph_of_a_fork(alloc)?;
    let reduced = reduced(alloc, &graph)?;
    assert!(rt; has_its_system(alloc, &graph, &reduced)?);
    Ok(())
}
