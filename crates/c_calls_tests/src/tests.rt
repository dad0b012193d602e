//! The calls over inputs that are worked by hand. The programs of c/test make them from C, with each refusal.

mod arrays;
mod columns;
mod cores;
mod fronts;
mod readers;
mod shared_plans;

use c_calls::Fault;
use mp_system::{GivenItem, GivenTask};
use shared_systems::GivenSharedItem;
use trees::Node;

fn node(parent: u32, out: u64, extra: u64) -> Node {
    Node {
        parent,
        out,
        extra,
        share: 0,
        time: 1,
    }
}

// Two chains of two nodes below a root; the lower ones need 9 beside the 1 that they leave.
fn five() -> [Node; 5] {
    [
        node(2, 1, 9),
        node(5, 5, 0),
        node(4, 1, 9),
        node(5, 5, 0),
        node(0, 0, 0),
    ]
}

fn no_fault() -> Fault {
    Fault {
        kind: 0,
        at: 0,
        value: 0,
    }
}

fn item(size: u64, from: u32, to: u32) -> GivenItem {
    GivenItem { size, from, to }
}

fn task(extra: u64) -> GivenTask {
    GivenTask {
        extra,
        share: 0,
        time: 1,
    }
}

// Task 1 hands data to 2 and 3, and both hand data to 4.
fn diamond_tasks() -> [GivenTask; 4] {
    [task(0), task(0), task(2), task(0)]
}

fn diamond_items() -> [GivenItem; 6] {
    [
        item(6, 0, 1),
        item(3, 1, 2),
        item(4, 1, 3),
        item(2, 2, 4),
        item(5, 3, 4),
        item(1, 4, 0),
    ]
}

// Three tasks that read one input of 10, and one that takes the 3, 4 and 5 that they leave.
fn fork_tasks() -> [GivenTask; 4] {
    [task(6), task(1), task(0), task(0)]
}

fn fork_items() -> [GivenSharedItem; 5] {
    [
        shared_item(10, 0, 3),
        shared_item(3, 1, 1),
        shared_item(4, 2, 1),
        shared_item(5, 3, 1),
        shared_item(2, 4, 0),
    ]
}

const FORK_READERS: [u32; 6] = [1, 2, 3, 4, 4, 4];

fn shared_item(size: u64, from: u32, readers: u32) -> GivenSharedItem {
    GivenSharedItem {
        size,
        from,
        readers,
    }
}
