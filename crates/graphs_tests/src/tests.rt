//! Graphs made of tasks and arcs, and what they are refused with.

ghost use Rattle.graphs.specs.Graph.{IsArcWithin};

use graphs::{Arc, Graph, GraphFault, graph_of};
use mp_system::Task;
use std::alloc::Global;
use std::process::Abort;
use std::test::Fail;

fn task(extra: u64, share: u64) -> Task {
    Task {
        extra,
        share,
        time: 1,
    }
}

fn arc(from: u32, to: u32, size: u64) -> Arc {
    Arc { from, to, size }
}

// Two tasks with an arc of size 4 from the first to the second, and another arc. The second task has an extra of 3, and this share.
fn judged(alloc: Global, share: u64, other: Arc) -> Result<Graph, GraphFault>
    requires arc { IsArcWithin 2 other }
{
    let first = Task {
        extra: 0,
        share: 0,
        time: 1,
    };
    let second = Task {
        extra: 3,
        share,
        time: 1,
    };
    let tasks = Vec::from_slice(alloc, &[first, second])?;
    let along = Arc {
        from: 1,
        to: 2,
        size: 4,
    };
    graph_of(alloc, tasks, &[along, other])
}

#[test]
fn a_graph_has_its_tasks_and_arcs(rt: HostRuntime) {
    let other = Arc {
        from: 2,
        to: 0,
        size: 1,
    };
    match judged(rt.alloc(), 4, other) {
        Ok(graph) => {
            assert_eq!(rt; graph.tasks(), [task(0, 0), task(3, 4)].as_slice());
            assert_eq!(rt; graph.arcs(), [arc(1, 2, 4), arc(2, 0, 1)].as_slice());
            let all = [arc(1, 2, 4), arc(2, 0, 1), arc(0, 1, 0)];
            assert_eq!(rt; graph.completed_arcs(), all.as_slice());
        }
        Err(_) => assert!(rt; false),
    }
}

fn refused<R: Abort>(rt: &R, found: Result<Graph, GraphFault>, fault: GraphFault) {
    match found {
        Ok(_) => assert!(rt; false),
        Err(found) => assert_eq!(rt; found, fault),
    }
}

#[test]
fn the_lowest_task_on_a_cycle(rt: HostRuntime) {
    let other = Arc {
        from: 2,
        to: 1,
        size: 1,
    };
    refused(&rt, judged(rt.alloc(), 9, other), GraphFault::Cycle(1));
}

#[test]
fn the_lowest_share_that_does_not_fit(rt: HostRuntime) {
    let other = Arc {
        from: 2,
        to: 0,
        size: 9,
    };
    refused(&rt, judged(rt.alloc(), 5, other), GraphFault::Share(2));
}
