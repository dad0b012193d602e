//! Plans of a tree with claims that certify them.

ghost use Rattle.std.specs.Prelude.{◌≡◌, ◌≢◌, ◌≤◌, [], length, take, drop, IfOk, IfErr, OnOk};
ghost use Rattle.plans.specs.Plan.{IsPlan};
ghost use Rattle.c_calls.specs.Answers.{IsTreeCertified, IsBestOrder, IsCertificate};
ghost use Rattle.c_calls.specs.Faults.{IsRefusedFor};
ghost use Rattle.c_calls.specs.Refusals.{IsCertifyRefusal, IsCheckRefusal};

use crate::claims::{Claim, hand_out, plan_of_arrays};
use crate::faults::{Fault, refuse};
use crate::orders::check_room;
use crate::refusal::Refusal;
use claim_check::Verdict;
use least_peak::Problem;
use mp_system::laws::traversal_law;
use plans::Plan;
use std::alloc::Global;
use trees::{Node, tree_of_nodes};

fn check_plan(
    alloc: Global,
    nodes: &[Node],
    order: &[u32],
    peak: u64,
    claims: &[Claim],
) -> Result<(), Refusal>
    ensures certified { OnOk result (IsTreeCertified nodes.now order.now peak claims.now) }
    ensures refused { IfErr result (IsCheckRefusal nodes.now order.now peak claims.now) }
{
    let tree = tree_of_nodes(alloc, nodes)?;
    let plan = plan_of_arrays(alloc, order, peak, claims)?;
    plan.keeps();
    let problem = Problem::of_tree(tree);
    match problem.check_alone(alloc, &plan)? {
        Verdict::Yes(_) => Ok(()),
        Verdict::No(objection) => Err(Refusal::Objection(objection)),
    }
}

/// Judges a plan of the tree of these nodes by its claims, whoever made it.
pub fn check_tree(
    alloc: Global,
    nodes: &[Node],
    order: &[u32],
    peak: u64,
    claims: &[Claim],
    fault: &mut Fault,
) -> u32
    // 0: the order is a traversal of the tree's system, with this peak, none has a lower one, and the claims certify it
    ensures certified { result ≡ 0 → IsTreeCertified nodes.now order.now peak claims.now }
    ensures refused { result ≢ 0 → IsRefusedFor (IsCheckRefusal nodes.now order.now peak claims.now) result fault.new }
    ensures no_fault { result ≡ 0 → fault.new ≡ fault.old }
{
    match check_plan(alloc, nodes, order, peak, claims) {
        Ok(()) => 0,
        Err(refusal) => refuse(refusal, fault),
    }
}

fn certified(alloc: Global, nodes: &[Node], room: usize, claim_room: usize) -> Result<Plan, Refusal>
    ensures best { IfOk result (λ plan. IsBestOrder nodes.now plan.order plan.peak) }
    ensures certificate { IfOk result (IsCertificate nodes.now) }
    ensures within { IfOk result IsPlan }
    ensures priority { IfOk result (λ plan. plan.priority ≡ []) }
    ensures long { IfOk result (λ plan. length plan.order ≡ room) }
    ensures fits { IfOk result (λ plan. length plan.claims ≤ claim_room) }
    ensures refused { IfErr result (IsCertifyRefusal nodes.now room claim_room) }
{
    traversal_law();
    check_room(nodes.len(), room)?;
    let tree = tree_of_nodes(alloc, nodes)?;
    let problem = Problem::of_tree(tree);
    let plan = problem.into_plan(alloc)?;
    if claim_room < plan.claims().len() {
        // Room for so many is enough for every certificate of these nodes.
        return Err(Refusal::ClaimRoom {
            needed: 3 * nodes.len() as u64 + 1,
        });
    }
    Ok(plan)
}

/// A traversal of least peak of the tree of these nodes, with claims that certify it at the front of their array, and how many they are.
/// Room for three claims for each node, and one, is always enough (`laws::room_for_claims`).
pub fn certify_tree(
    alloc: Global,
    nodes: &[Node],
    order: &mut [u32],
    peak: &mut u64,
    claims: &mut [Claim],
    count: &mut u64,
    fault: &mut Fault,
) -> u32
    // 0: the order is a traversal of the tree's system, with this peak, none has a lower one, and the first claims certify it
    ensures certified { result ≡ 0 → IsTreeCertified nodes.now order.new peak.new (take count.new claims.new) }
    ensures counted { result ≡ 0 → count.new ≤ length claims.new }
    ensures past { result ≡ 0 → drop count.new claims.new ≡ drop count.new claims.old }
    ensures refused { result ≢ 0 → IsRefusedFor (IsCertifyRefusal nodes.now (length order.old) (length claims.old)) result fault.new }
    ensures unchanged { result ≢ 0 →
        (order.new ≡ order.old) × (peak.new ≡ peak.old) × (claims.new ≡ claims.old) × (count.new ≡ count.old) }
    ensures no_fault { result ≡ 0 → fault.new ≡ fault.old }
{
    match certified(alloc, nodes, order.len(), claims.len()) {
        Ok(plan) => {
            order.copy_from_slice(plan.order());
            *peak = plan.peak();
            hand_out(plan.claims(), claims);
            *count = plan.claims().len() as u64;
            0
        }
        Err(refusal) => refuse(refusal, fault),
    }
}
