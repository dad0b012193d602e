//! Systems and task graphs, in which an item has one reader at most, as shared systems.

use graphs::{Arc, GraphFault, graph_of};
use mp_system::{
    GivenItem, GivenTask, ReplayRefusal, System, SystemRefusal, Task, replay, system_of_arrays,
};
use shared_systems::SharedSystem;
use shared_systems::laws::one_reader_system_law;
use std::alloc::Global;
use std::process::Abort;
use std::rt::HostRuntime;

// Task 1 reads an input of size 2 and makes 5 for task 2, which takes 3 of it over and makes 4, which stays.
fn chain(alloc: Global) -> Result<System, SystemRefusal> {
    let first = GivenTask {
        extra: 0,
        share: 0,
        time: 1,
    };
    let second = GivenTask {
        extra: 2,
        share: 3,
        time: 1,
    };
    let input = GivenItem {
        size: 2,
        from: 0,
        to: 1,
    };
    let between = GivenItem {
        size: 5,
        from: 1,
        to: 2,
    };
    let last = GivenItem {
        size: 4,
        from: 2,
        to: 0,
    };
    system_of_arrays(alloc, &[first, second], &[input, between, last])
}

// The same as a task graph.
fn graph(alloc: Global) -> Result<SharedSystem, GraphFault> {
    let first = Task {
        extra: 0,
        share: 0,
        time: 1,
    };
    let second = Task {
        extra: 2,
        share: 3,
        time: 1,
    };
    let input = Arc {
        from: 0,
        to: 1,
        size: 2,
    };
    let between = Arc {
        from: 1,
        to: 2,
        size: 5,
    };
    let last = Arc {
        from: 2,
        to: 0,
        size: 4,
    };
    let tasks = Vec::from_slice(alloc, &[first, second])?;
    let graph = graph_of(alloc, tasks, &[input, between, last])?;
    let system = SharedSystem::of_graph(alloc, &graph)?;
    Ok(system)
}

// The chain as a shared system; its one order is a traversal, which shows that its tasks can be ordered.
fn shared_chain(alloc: Global) -> Result<SharedSystem, ReplayRefusal> {
    let Ok(system) = chain(alloc) else {
        return Err(ReplayRefusal::NoMemory);
    };
    system.keeps();
    replay(alloc, &system, &[1, 2])?;
    one_reader_system_law();
    let made = SharedSystem::of_system(alloc, &system)?;
    Ok(made)
}

// Whether it has the tasks, the items and the peak of the chain.
fn is_chain(alloc: Global, system: &SharedSystem) -> bool {
    let items = system.items();
    if system.tasks().len() != 2 || items.len() != 3 {
        return false;
    }
    let sizes = [items.size(0), items.size(1), items.size(2)] == [2, 5, 4];
    let producers = [items.producer(0), items.producer(1), items.producer(2)]
        == [None, Some(1), Some(2)];
    let readers = items.readers(0) == [1].as_slice()
        && items.readers(1) == [2].as_slice()
        && items.readers(2).is_empty();
    sizes && producers && readers && system.peak(alloc, &[1, 2]) == Ok(8)
}

#[test]
fn the_consumer_of_an_item_is_its_only_reader(rt: HostRuntime) {
    match shared_chain(rt.alloc()) {
        Ok(system) => assert!(rt; is_chain(rt.alloc(), &system)),
        Err(_) => assert!(rt; false),
    }
}

#[test]
fn the_head_of_an_arc_is_its_only_reader(rt: HostRuntime) {
    match graph(rt.alloc()) {
        Ok(system) => assert!(rt; is_chain(rt.alloc(), &system)),
        Err(_) => assert!(rt; false),
    }
}
