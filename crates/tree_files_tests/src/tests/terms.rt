use super::{FIVE, SHARED, read};
use mp_system::replay;
use sp_terms::{TermList, system_of};
use std::alloc::Global;
use std::process::Abort;
use std::test::Fail;
use trees::{Named, Names, Tree, system_of_tree, terms_of_tree};
use workflow_files::read_workflow;

const ROOTS: &str = "tree 1\nnodes 2\n0 3 0 1\n0 4 1 2\nend\n";

// A chain from its root.
const CHAIN: &str = "tree 1\nnodes 3\n0 0 0 1\n1 1 0 1\n2 2 0 1\nend\n";

// A tree, its term as a workflow, and the node that each task is.
struct Case {
    tree: &'static str,
    workflow: &'static str,
    names: &'static [u32],
}

#[rattlefmt::skip]
const CASES: &[Case] = &[
    Case { tree: FIVE, names: &[1, 2, 3, 4, 5], workflow: "workflow 1\ntasks 5\n\
        data 0\ndata 1\ntask 9 1\ndata 5\ntask 0 1\n\
        data 0\ndata 1\ntask 9 1\ndata 5\ntask 0 1\n\
        par 2\ndata 0\ntask 0 1\nend\n" },
    // one node
    Case { tree: "tree 1\nnodes 1\n0 7 2 3\nend\n", names: &[1], workflow: "workflow 1\ntasks 1\ndata 0\ndata 7\ntask 2 3\nend\n" },
    Case { tree: ROOTS, names: &[1, 2],
        workflow: "workflow 1\ntasks 2\ndata 0\ndata 3\ntask 0 1\ndata 0\ndata 4\ntask 1 2\npar 2\nend\n" },
    // the root before its three children, one of which has a child of a higher number
    Case { tree: "tree 1\nnodes 5\n3 1 0 1\n3 2 0 1\n0 3 0 1\n3 4 0 1\n2 5 0 1\nend\n", names: &[1, 5, 2, 4, 3],
        workflow: "workflow 1\ntasks 5\n\
        data 0\ndata 1\ntask 0 1\n\
        data 0\ndata 5\ntask 0 1\ndata 2\ntask 0 1\n\
        data 0\ndata 4\ntask 0 1\n\
        par 3\ndata 3\ntask 0 1\nend\n" },
    Case { tree: CHAIN, names: &[3, 2, 1],
        workflow: "workflow 1\ntasks 3\ndata 0\ndata 2\ntask 0 1\ndata 1\ntask 0 1\ndata 0\ntask 0 1\nend\n" },
    Case { tree: SHARED, names: &[1, 2], workflow: "workflow 2\ntasks 2\ndata 0\ndata 4\ntask 0 0 1\ndata 3\ntask 2 4 1\nend\n" },
    // two roots, each after its child
    Case { tree: "tree 1\nnodes 4\n0 1 5 1\n4 2 6 1\n1 3 7 1\n0 4 8 1\nend\n", names: &[3, 1, 2, 4],
        workflow: "workflow 1\ntasks 4\n\
        data 0\ndata 3\ntask 7 1\ndata 1\ntask 5 1\n\
        data 0\ndata 2\ntask 6 1\ndata 4\ntask 8 1\n\
        par 2\nend\n" },
];

fn named(alloc: Global, text: &str) -> Result<Named, Fail> {
    Ok(terms_of_tree(alloc, &read(alloc, text)?)?)
}

fn names_of(alloc: Global, text: &str) -> Result<Names, Fail> {
    let Named { names, .. } = named(alloc, text)?;
    Ok(names)
}

fn check_positions(rt: &impl Abort, found: &TermList, wanted: &TermList, tree: &str) {
    assert_eq!(rt; found.len(), wanted.len(), "{tree}");
    for k in 1..=wanted.len() {
        assert_eq!(rt; found.at(k), wanted.at(k), "{tree}, at {k}");
    }
}

fn check_terms(rt: &impl Abort, alloc: Global, case: &Case) -> Result<(), Fail> {
    let found = named(alloc, case.tree)?;
    let wanted = read_workflow(alloc, case.workflow.as_bytes())?;
    check_positions(rt, &found.terms, &wanted, case.tree);
    Ok(())
}

#[test]
fn terms_of_trees(rt: HostRuntime) -> Result<(), Fail> {
    for case in CASES {
        check_terms(&rt, rt.alloc(), case)?;
    }
    Ok(())
}

#[test]
fn names_of_the_tasks(rt: HostRuntime) -> Result<(), Fail> {
    for case in CASES {
        let names = names_of(rt.alloc(), case.tree)?;
        assert_eq!(rt; names.as_slice(), case.names, "{}", case.tree);
    }
    Ok(())
}

#[test]
fn names_as_a_vector(rt: HostRuntime) -> Result<(), Fail> {
    for case in CASES {
        let names = names_of(rt.alloc(), case.tree)?.into_vec();
        assert_eq!(rt; names.as_slice(), case.names, "{}", case.tree);
    }
    Ok(())
}

// Trees, orders of the tasks of their terms, and the peaks.
#[rattlefmt::skip]
const PEAKS: &[(&str, &[u32], u64)] = &[
    (FIVE, &[1, 2, 3, 4, 5], 15),
    (FIVE, &[1, 3, 2, 4, 5], 11),
    (ROOTS, &[2, 1], 7),
    (CHAIN, &[1, 2, 3], 3),
    ("tree 1\nnodes 3\n0 1 2 1\n1 4 3 1\n1 2 6 1\nend\n", &[2, 1, 3], 9),
    (SHARED, &[1, 2], 5),
];

// The nodes that the tasks of an order are.
fn renamed(alloc: Global, names: &Names, order: &[u32]) -> Result<Vec<u32>, Fail> {
    let mut found = Vec::new(alloc);
    for task in order {
        let Some(name) = names.as_slice().get((*task as usize).saturating_sub(1)) else {
            return Err(Fail::new("no task has this number"));
        };
        found.push(*name)?;
    }
    Ok(found)
}

// The peak of an order of the tasks of a tree's term.
fn peak_of_tasks(alloc: Global, text: &str, order: &[u32]) -> Result<u64, Fail> {
    let named = named(alloc, text)?;
    let system = system_of(alloc, &named.terms)?;
    Ok(replay(alloc, &system, order)?)
}

fn peak_of_nodes(alloc: Global, tree: &Tree, order: &[u32]) -> Result<u64, Fail> {
    let system = system_of_tree(alloc, tree)?;
    Ok(replay(alloc, &system, order)?)
}

// The peak of the nodes that the tasks of an order are.
fn peak_of_renamed(alloc: Global, text: &str, order: &[u32]) -> Result<u64, Fail> {
    let names = names_of(alloc, text)?;
    let nodes = renamed(alloc, &names, order)?;
    peak_of_nodes(alloc, &read(alloc, text)?, &nodes)
}

#[test]
fn peaks_of_tasks(rt: HostRuntime) -> Result<(), Fail> {
    for (text, order, peak) in PEAKS {
        assert_eq!(rt; peak_of_tasks(rt.alloc(), text, order)?, *peak, "{text}");
    }
    Ok(())
}

#[test]
fn peaks_of_the_nodes_that_tasks_are(rt: HostRuntime) -> Result<(), Fail> {
    for (text, order, peak) in PEAKS {
        assert_eq!(rt; peak_of_renamed(rt.alloc(), text, order)?, *peak, "{text}");
    }
    Ok(())
}

// The file of a tree in which each node is the child of the next, or each but the last a child of the last.
fn large(alloc: Global, count: u64, chain: bool) -> Result<String, Fail> {
    let mut text = format!(in alloc; "tree 1\nnodes {count}\n")?;
    for v in 1..count {
        let parent = if chain { v + 1 } else { count };
        text.push_str(&format!(in alloc; "{parent} 1 0 1\n")?)?;
    }
    text.push_str("0 1 0 1\nend\n")?;
    Ok(text)
}

fn large_named(alloc: Global, chain: bool) -> Result<Named, Fail> {
    let text = large(alloc, 10_000, chain)?;
    named(alloc, &text)
}

fn check_ends(rt: &impl Abort, names: &[u32]) {
    assert_eq!(rt; names.first(), Some(&1));
    assert_eq!(rt; names.last(), Some(&10_000));
}

#[test]
fn large_trees(rt: HostRuntime) -> Result<(), Fail> {
    for (chain, positions) in [(true, 20_001), (false, 30_000)] {
        let named = large_named(rt.alloc(), chain)?;
        assert_eq!(rt; named.terms.len(), positions);
        check_ends(&rt, named.names.as_slice());
    }
    Ok(())
}
