//! Systems whose items one last reader carries, as graphs; and a system with an item that has none.

ghost use Rattle.std.specs.Prelude.{◌≡◌, IfOk};
ghost use Rattle.carried_graphs.specs.Samples.{fork, table};
ghost use Rattle.shared_systems.specs.Paths.{IsRealizer};
ghost use Rattle.carried_graphs_tests.specs.Twins.{twins};

use carried_graphs::{LastReaderRefusal, carried_graph, last_readers};
use graphs::{Arc, Graph, system_of_graph};
use mp_system::{GivenTask, replay};
use shared_systems::laws::order_law;
use shared_systems::{GivenSharedItem, SharedRefusal, SharedSystem, shared_system_of_arrays};
use std::alloc::Global;
use std::process::Abort;
use std::rt::HostRuntime;

// A task that takes this share of its inputs over.
fn task(extra: u64, share: u64) -> GivenTask
    ensures { result ≡ record { extra = extra; share = share; time = 1 } }
{
    GivenTask {
        extra,
        share,
        time: 1,
    }
}

// An item that so many tasks read.
fn item(size: u64, from: u32, readers: u32) -> GivenSharedItem
    ensures { result ≡ record { size = size; from = from; readers = readers } }
{
    GivenSharedItem {
        size,
        from,
        readers,
    }
}

// Tasks 2 and 3 read what task 1 makes, and so does task 4, which reads what they make too.
fn fork(alloc: Global) -> Result<SharedSystem, SharedRefusal>
    ensures { IfOk result (λ system. system ≡ fork) }
{
    let tasks = [task(0, 0), task(1, 0), task(2, 0), task(2, 1)];
    let items = [item(5, 1, 3), item(1, 2, 1), item(3, 3, 1), item(2, 4, 0)];
    shared_system_of_arrays(alloc, &tasks, &items, &[2, 3, 4, 4, 4])
}

// Two tasks read an input, and the second what the first makes.
fn table(alloc: Global) -> Result<SharedSystem, SharedRefusal>
    ensures { IfOk result (λ system. system ≡ table) }
{
    let tasks = [task(1, 0), task(2, 0)];
    let items = [item(7, 0, 2), item(4, 1, 1)];
    shared_system_of_arrays(alloc, &tasks, &items, &[1, 2, 2])
}

// Tasks 2 and 3 read what task 1 makes, the first item task 2 alone, and the second both, side by side.
fn twins(alloc: Global) -> Result<SharedSystem, SharedRefusal>
    ensures { IfOk result (λ system. system ≡ twins) }
{
    let tasks = [task(0, 0), task(1, 0), task(2, 0)];
    let items = [item(4, 1, 1), item(6, 1, 2)];
    shared_system_of_arrays(alloc, &tasks, &items, &[2, 2, 3])
}

// How it ended: with the graph, or with the first item that has no last reader.
fn graph_of(
    alloc: Global,
    system: &SharedSystem,
    first: &[u32],
    second: &[u32],
) -> Result<Graph, Option<u32>>
    requires { IsRealizer system.now first.now second.now }
{
    match last_readers(alloc, system, first, second) {
        Ok(lasts) => match carried_graph(alloc, system, &lasts) {
            Ok(graph) => Ok(graph),
            Err(_) => Err(None),
        },
        Err(LastReaderRefusal::Item(item)) => Err(Some(item)),
        Err(LastReaderRefusal::NoMemory) => Err(None),
    }
}

// Whether the graph has these arcs, and an order the same peak as in the system.
fn agrees(
    alloc: Global,
    system: &SharedSystem,
    graph: &Graph,
    arcs: &[Arc],
    order: &[u32],
    peak: u64,
) -> bool {
    let Ok(own) = system_of_graph(alloc, graph) else {
        return false;
    };
    graph.arcs() == arcs
        && system.peak(alloc, order) == Ok(peak)
        && replay(alloc, &own, order) == Ok(peak)
}

// An arc.
fn arc(from: u32, to: u32, size: u64) -> Arc {
    Arc { from, to, size }
}

fn fork_agrees(alloc: Global) -> bool {
    order_law();
    let Ok(system) = fork(alloc) else {
        return false;
    };
    let Ok(graph) = graph_of(alloc, &system, &[1, 2, 3, 4], &[1, 3, 2, 4]) else {
        return false;
    };
    let arcs = [
        arc(1, 2, 0),
        arc(1, 3, 0),
        arc(1, 4, 5),
        arc(2, 4, 1),
        arc(3, 4, 3),
        arc(4, 0, 2),
    ];
    agrees(alloc, &system, &graph, &arcs, &[1, 2, 3, 4], 12)
}

fn table_agrees(alloc: Global) -> bool {
    order_law();
    let Ok(system) = table(alloc) else {
        return false;
    };
    let Ok(graph) = graph_of(alloc, &system, &[1, 2], &[1, 2]) else {
        return false;
    };
    let arcs = [arc(0, 1, 0), arc(0, 2, 7), arc(1, 2, 4)];
    agrees(alloc, &system, &graph, &arcs, &[1, 2], 13)
}

// The first item of the twins that has no last reader.
fn twins_item(alloc: Global) -> Option<u32> {
    order_law();
    let Ok(system) = twins(alloc) else {
        return None;
    };
    match graph_of(alloc, &system, &[1, 2, 3], &[1, 3, 2]) {
        Ok(_) => None,
        Err(item) => item,
    }
}

#[test]
fn the_join_carries_what_the_branches_read_too(rt: HostRuntime) {
    assert!(rt; fork_agrees(rt.alloc()));
}

#[test]
fn an_input_goes_to_its_last_reader(rt: HostRuntime) {
    assert!(rt; table_agrees(rt.alloc()));
}

#[test]
fn an_item_with_readers_side_by_side_is_refused(rt: HostRuntime) {
    assert_eq!(rt; twins_item(rt.alloc()), Some(2));
}
