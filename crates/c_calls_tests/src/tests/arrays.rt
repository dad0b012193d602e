//! Trees and systems worked by hand.

use super::{diamond_items, diamond_tasks, five, no_fault, node};
use c_calls::{
    Claim, best_postorder, certify_tree, check_tree, plan_tree, replay_system, replay_tree,
    spill_tree,
};

#[test]
fn orders_of_five_nodes(rt: HostRuntime) {
    let nodes = five();
    let mut order = [0u32; 5];
    let mut peak = 0;
    let mut fault = no_fault();
    let status = plan_tree(rt.alloc(), &nodes, &mut order, &mut peak, &mut fault);
    assert_eq!(rt; (status, peak), (0, 11));
    let status = best_postorder(rt.alloc(), &nodes, &mut order, &mut peak, &mut fault);
    assert_eq!(rt; (status, peak), (0, 15));
    assert_eq!(rt; order, [1, 2, 3, 4, 5]);
    let status = replay_tree(rt.alloc(), &nodes, &order, &mut peak, &mut fault);
    assert_eq!(rt; (status, peak), (0, 15));
    assert_eq!(rt; (fault.kind, fault.at, fault.value), (0, 0, 0));
}

#[test]
fn a_parent_that_is_no_node(rt: HostRuntime) {
    let nodes = [node(2, 1, 1), node(3, 1, 1)];
    let mut order = [7u32; 2];
    let mut peak = 76;
    let mut fault = no_fault();
    let status = plan_tree(rt.alloc(), &nodes, &mut order, &mut peak, &mut fault);
    assert_eq!(rt; (status, fault.kind, fault.at, fault.value), (3, 12, 2, 0));
    assert_eq!(rt; (peak, order), (76, [7, 7]));
}

#[test]
fn a_certificate_is_accepted(rt: HostRuntime) {
    let nodes = five();
    let mut order = [0u32; 5];
    let mut peak = 0;
    let mut count = 0;
    let mut fault = no_fault();
    let mut claims = [Claim {
        position: 0,
        backward: 0,
        bound: 0,
        rest: 0,
    }; 4];
    let status = certify_tree(
        rt.alloc(),
        &nodes,
        &mut order,
        &mut peak,
        &mut claims,
        &mut count,
        &mut fault,
    );
    assert_eq!(rt; (status, peak, count), (0, 11, 4));
    let status = check_tree(rt.alloc(), &nodes, &order, 11, &claims, &mut fault);
    assert_eq!(rt; status, 0);
    let status = check_tree(rt.alloc(), &nodes, &order, 10, &claims, &mut fault);
    assert_eq!(rt; (status, fault.kind, fault.value), (1, 44, 11));
}

// The block of node 2 is there while 3 and 4 run.
#[test]
fn four_of_a_block_go_to_disk(rt: HostRuntime) {
    let nodes = five();
    let mut amounts = [0u64; 5];
    let mut volume = 0;
    let mut fault = no_fault();
    let status = spill_tree(
        rt.alloc(),
        &nodes,
        &[1, 2, 3, 4, 5],
        11,
        &mut amounts,
        &mut volume,
        &mut fault,
    );
    assert_eq!(rt; (status, volume), (0, 4));
    assert_eq!(rt; amounts, [0, 4, 0, 0, 0]);
}

#[test]
fn the_peak_of_a_diamond(rt: HostRuntime) {
    let tasks = diamond_tasks();
    let items = diamond_items();
    let mut peak = 0;
    let mut fault = no_fault();
    let order = [1, 3, 2, 4];
    let status = replay_system(rt.alloc(), &tasks, &items, &order, &mut peak, &mut fault);
    assert_eq!(rt; (status, peak), (0, 14));
}
