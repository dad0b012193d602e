//! Orders of a tree.

ghost use Rattle.std.specs.Prelude.{◌≡◌, ◌≢◌, length, IfOk, IfErr, OnOk};
ghost use Rattle.c_calls.specs.Answers.{IsBestOrder, IsBestPost};
ghost use Rattle.c_calls.specs.Faults.{IsRefusedFor};
ghost use Rattle.c_calls.specs.Refusals.{IsPlanningRefusal};

use crate::faults::{Fault, refuse};
use crate::refusal::Refusal;
use least_peak::Problem;
use mp_system::laws::traversal_law;
use plans::Plan;
use postorder_best::Post;
use std::alloc::Global;
use trees::{Node, tree_of_nodes};

/// Whether there is just the room that is needed.
pub fn check_room(needed: usize, room: usize) -> Result<(), Refusal>
    ensures room { OnOk result (room ≡ needed) }
    ensures refused { IfErr result (λ e. (room ≢ needed) × (e ≡ Refusal.Room needed)) }
{
    if room != needed {
        return Err(Refusal::Room {
            needed: needed as u64,
        });
    }
    Ok(())
}

fn plan_of(alloc: Global, nodes: &[Node], room: usize) -> Result<Plan, Refusal>
    ensures best { IfOk result (λ plan. IsBestOrder nodes.now plan.order plan.peak) }
    ensures long { IfOk result (λ plan. length plan.order ≡ room) }
    ensures refused { IfErr result (IsPlanningRefusal nodes.now room) }
{
    traversal_law();
    check_room(nodes.len(), room)?;
    let tree = tree_of_nodes(alloc, nodes)?;
    let problem = Problem::of_tree(tree);
    let plan = problem.into_plan(alloc)?;
    Ok(plan)
}

/// A traversal of least peak of the tree of these nodes: the numbers of the nodes, from 1, and the peak. Liu 1987.
pub fn plan_tree(
    alloc: Global,
    nodes: &[Node],
    order: &mut [u32],
    peak: &mut u64,
    fault: &mut Fault,
) -> u32
    // 0: the order is a traversal of the tree's system, with this peak, and none has a lower one
    ensures planned { result ≡ 0 → IsBestOrder nodes.now order.new peak.new }
    // else the nodes are refused, or the room, or memory is wanting
    ensures refused { result ≢ 0 → IsRefusedFor (IsPlanningRefusal nodes.now (length order.old)) result fault.new }
    ensures unchanged { result ≢ 0 → (order.new ≡ order.old) × (peak.new ≡ peak.old) }
    ensures no_fault { result ≡ 0 → fault.new ≡ fault.old }
{
    match plan_of(alloc, nodes, order.len()) {
        Ok(plan) => {
            order.copy_from_slice(plan.order());
            *peak = plan.peak();
            0
        }
        Err(refusal) => refuse(refusal, fault),
    }
}

fn post_of(alloc: Global, nodes: &[Node], room: usize) -> Result<Post, Refusal>
    ensures best { IfOk result (λ post. IsBestPost nodes.now post.order.items post.peak) }
    ensures long { IfOk result (λ post. length post.order.items ≡ room) }
    ensures refused { IfErr result (IsPlanningRefusal nodes.now room) }
{
    traversal_law();
    check_room(nodes.len(), room)?;
    let tree = tree_of_nodes(alloc, nodes)?;
    let post = postorder_best::best_postorder(alloc, &tree)?;
    Ok(post)
}

/// The best postorder of the tree of these nodes, and its peak. Liu 1986.
pub fn best_postorder(
    alloc: Global,
    nodes: &[Node],
    order: &mut [u32],
    peak: &mut u64,
    fault: &mut Fault,
) -> u32
    // 0: the order is the best postorder, with this peak, and no postorder has a lower one
    ensures best { result ≡ 0 → IsBestPost nodes.now order.new peak.new }
    ensures refused { result ≢ 0 → IsRefusedFor (IsPlanningRefusal nodes.now (length order.old)) result fault.new }
    ensures unchanged { result ≢ 0 → (order.new ≡ order.old) × (peak.new ≡ peak.old) }
    ensures no_fault { result ≡ 0 → fault.new ≡ fault.old }
{
    match post_of(alloc, nodes, order.len()) {
        Ok(post) => {
            order.copy_from_slice(&post.order);
            *peak = post.peak;
            0
        }
        Err(refusal) => refuse(refusal, fault),
    }
}
