//! Nodes that a caller gives, and what they are refused with.

use std::alloc::Global;
use std::process::Abort;
use trees::{Node, NodeTest, NodesRefusal, tree_of_nodes};

const MOST: u64 = 1_099_511_627_776;

fn node(parent: u32, out: u64, extra: u64, share: u64, time: u64) -> Node {
    Node {
        parent,
        out,
        extra,
        share,
        time,
    }
}

fn plain(parent: u32) -> Node {
    node(parent, 1, 1, 0, 1)
}

fn refused<R: Abort>(rt: &R, alloc: Global, nodes: &[Node], refusal: NodesRefusal) {
    match tree_of_nodes(alloc, nodes) {
        Ok(_) => assert!(rt; false),
        Err(found) => assert_eq!(rt; found, refusal),
    }
}

#[test]
fn nodes_in_any_order(rt: HostRuntime) {
    let nodes = [
        plain(0),
        node(1, MOST, MOST, MOST, MOST),
        plain(2),
        node(2, MOST, 0, 0, 1),
    ];
    match tree_of_nodes(rt.alloc(), &nodes) {
        Ok(tree) => assert_eq!(rt; tree.nodes(), nodes.as_slice()),
        Err(_) => assert!(rt; false),
    }
}

// Three nodes, one of which fails a test.
fn check_failed(rt: &impl Abort, alloc: Global, nodes: &[Node; 3], test: NodeTest, node: u32) {
    refused(rt, alloc, nodes, NodesRefusal::Node { test, node });
}

#[test]
fn no_node_is_refused(rt: HostRuntime) {
    refused(&rt, rt.alloc(), &[], NodesRefusal::NoNode);
}

#[test]
fn a_parent_that_is_no_node(rt: HostRuntime) {
    let nodes = [plain(4), plain(0), plain(9)];
    check_failed(&rt, rt.alloc(), &nodes, NodeTest::Parent, 1);
}

#[test]
fn a_parent_is_refused_before_a_size_and_a_time(rt: HostRuntime) {
    let nodes = [plain(0), node(0, MOST + 1, 1, 0, 0), plain(4)];
    check_failed(&rt, rt.alloc(), &nodes, NodeTest::Parent, 3);
}

#[test]
fn a_time_of_0_is_refused_before_a_size(rt: HostRuntime) {
    let nodes = [plain(0), node(0, MOST + 1, 1, 0, 1), node(0, 1, 1, 0, 0)];
    check_failed(&rt, rt.alloc(), &nodes, NodeTest::Time, 3);
}

#[test]
fn a_size_is_refused_before_a_long_time(rt: HostRuntime) {
    let nodes = [plain(0), node(0, 1, MOST + 1, 0, MOST + 1), plain(0)];
    check_failed(&rt, rt.alloc(), &nodes, NodeTest::Size, 2);
}

#[test]
fn a_time_past_the_limit(rt: HostRuntime) {
    let nodes = [plain(0), plain(0), node(0, 1, 1, 0, MOST + 1)];
    check_failed(&rt, rt.alloc(), &nodes, NodeTest::LongTime, 3);
}

#[test]
fn nodes_that_are_a_cycle(rt: HostRuntime) {
    let nodes = [plain(0), plain(3), plain(2)];
    refused(&rt, rt.alloc(), &nodes, NodesRefusal::Cycle(2));
}

#[test]
fn a_share_that_does_not_fit(rt: HostRuntime) {
    let nodes = [node(2, 1, 1, 0, 1), node(0, 0, 3, 2, 1), plain(0)];
    refused(&rt, rt.alloc(), &nodes, NodesRefusal::Share(2));
}
