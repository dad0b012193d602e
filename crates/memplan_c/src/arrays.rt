//! The calls over arrays.

ghost use Rattle.std.specs.Prelude.{◌≡◌, ◌≢◌, ◌≤◌, length, take, drop};
ghost use Rattle.c_calls.specs.Answers.{IsBestOrder, IsBestPost, IsReplayed, IsTreeSpilled, IsTreeCertified, IsSystemReplayed, IsSharedReplayed};
ghost use Rattle.c_calls.specs.Faults.{IsRefusedFor};
ghost use Rattle.c_calls.specs.Columns.{AreAlongFronts, IsColumnsCallRefusal};
ghost use Rattle.c_calls.specs.Fronts.{AreAnalysed, AreFronts, IsAnalysisRefusal, IsMatrixFrontsRefusal, matrix_given, options_given};
ghost use Rattle.c_calls.specs.Fronts.{IsDegreeCallRefusal, IsDegreeOrder};
ghost use Rattle.c_calls.specs.Refusals.{IsPlanningRefusal, IsReplayRefusal, IsSpillCallRefusal, IsCheckRefusal, IsCertifyRefusal};
ghost use Rattle.c_calls.specs.Answers.{IsSharedPlanned};
ghost use Rattle.c_calls.specs.Refusals.{IsSystemReplayRefusal, IsSharedReplayRefusal, IsSharedPlanRefusal};

use c_calls::{
    Claim, Fault, GivenOptions, best_postorder, certify_tree, check_tree, front_columns,
    matrix_analysis, matrix_fronts, minimum_degree, plan_shared, plan_tree, replay_shared,
    replay_system, replay_tree, spill_tree,
};
use mp_system::{GivenItem, GivenTask};
use shared_systems::GivenSharedItem;
use std::alloc::Global;
use trees::Node;

/// A traversal of least peak of the tree of these nodes: the numbers of the nodes, from 1, and the peak. Liu 1987.
#[unsafe(no_mangle)]
pub extern "C" fn memplan_plan_tree(
    alloc: Global,
    nodes: &[Node],
    order: &mut [u32],
    peak: &mut u64,
    fault: &mut Fault,
) -> u32
    // 0: the order is a traversal of the tree's system, with this peak, and none has a lower one
    ensures planned { result ≡ 0 → IsBestOrder nodes.now order.new peak.new }
    // else the nodes are refused, or the room, or memory is wanting
    ensures refused { result ≢ 0 → IsRefusedFor (IsPlanningRefusal nodes.now (length order.old)) result fault.new }
    ensures unchanged { result ≢ 0 → (order.new ≡ order.old) × (peak.new ≡ peak.old) }
    ensures no_fault { result ≡ 0 → fault.new ≡ fault.old }
{
    plan_tree(alloc, nodes, order, peak, fault)
}

/// The best postorder of the tree of these nodes, and its peak. Liu 1986.
#[unsafe(no_mangle)]
pub extern "C" fn memplan_best_postorder(
    alloc: Global,
    nodes: &[Node],
    order: &mut [u32],
    peak: &mut u64,
    fault: &mut Fault,
) -> u32
    // 0: the order is the best postorder, with this peak, and no postorder has a lower one
    ensures best { result ≡ 0 → IsBestPost nodes.now order.new peak.new }
    ensures refused { result ≢ 0 → IsRefusedFor (IsPlanningRefusal nodes.now (length order.old)) result fault.new }
    ensures unchanged { result ≢ 0 → (order.new ≡ order.old) × (peak.new ≡ peak.old) }
    ensures no_fault { result ≡ 0 → fault.new ≡ fault.old }
{
    best_postorder(alloc, nodes, order, peak, fault)
}

/// The peak of an order of the tree of these nodes, or the first place at which it is no traversal.
#[unsafe(no_mangle)]
pub extern "C" fn memplan_replay_tree(
    alloc: Global,
    nodes: &[Node],
    order: &[u32],
    peak: &mut u64,
    fault: &mut Fault,
) -> u32
    // 0: the order is a traversal of the tree's system, with this peak
    ensures replayed { result ≡ 0 → IsReplayed nodes.now order.now peak.new }
    ensures refused { result ≢ 0 → IsRefusedFor (IsReplayRefusal nodes.now order.now) result fault.new }
    ensures unchanged { result ≢ 0 → peak.new ≡ peak.old }
    ensures no_fault { result ≡ 0 → fault.new ≡ fault.old }
{
    replay_tree(alloc, nodes, order, peak, fault)
}

/// The least that goes to disk where an order of the tree of these nodes runs within a bound: how much of each node's block, and all
/// together. Jacquelin et al. 2011.
#[unsafe(no_mangle)]
pub extern "C" fn memplan_spill_tree(
    alloc: Global,
    nodes: &[Node],
    order: &[u32],
    bound: u64,
    amounts: &mut [u64],
    volume: &mut u64,
    fault: &mut Fault,
) -> u32
    // 0: the amounts are a spill plan of the order, and no spill plan has a lower volume
    ensures spilled { result ≡ 0 → IsTreeSpilled nodes.now order.now bound amounts.new volume.new }
    ensures refused { result ≢ 0 → IsRefusedFor (IsSpillCallRefusal nodes.now order.now bound (length amounts.old)) result fault.new }
    ensures unchanged { result ≢ 0 → (amounts.new ≡ amounts.old) × (volume.new ≡ volume.old) }
    ensures no_fault { result ≡ 0 → fault.new ≡ fault.old }
{
    spill_tree(alloc, nodes, order, bound, amounts, volume, fault)
}

/// Judges a plan of the tree of these nodes by its claims, whoever made it.
#[unsafe(no_mangle)]
pub extern "C" fn memplan_check_tree(
    alloc: Global,
    nodes: &[Node],
    order: &[u32],
    peak: u64,
    claims: &[Claim],
    fault: &mut Fault,
) -> u32
    // 0: the order is a traversal of the tree's system, with this peak, none has a lower one, and the claims certify it
    ensures certified { result ≡ 0 → IsTreeCertified nodes.now order.now peak claims.now }
    ensures refused { result ≢ 0 → IsRefusedFor (IsCheckRefusal nodes.now order.now peak claims.now) result fault.new }
    ensures no_fault { result ≡ 0 → fault.new ≡ fault.old }
{
    check_tree(alloc, nodes, order, peak, claims, fault)
}

/// A traversal of least peak of the tree of these nodes, with claims that certify it at the front of their array, and how many they are.
/// Room for three claims for each node, and one, is always enough (`room_for_claims`, a law of `c_calls`).
#[unsafe(no_mangle)]
pub extern "C" fn memplan_certify_tree(
    alloc: Global,
    nodes: &[Node],
    order: &mut [u32],
    peak: &mut u64,
    claims: &mut [Claim],
    count: &mut u64,
    fault: &mut Fault,
) -> u32
    // 0: the order is a traversal of the tree's system, with this peak, none has a lower one, and the first claims certify it
    ensures certified { result ≡ 0 → IsTreeCertified nodes.now order.new peak.new (take count.new claims.new) }
    ensures counted { result ≡ 0 → count.new ≤ length claims.new }
    ensures past { result ≡ 0 → drop count.new claims.new ≡ drop count.new claims.old }
    ensures refused { result ≢ 0 → IsRefusedFor (IsCertifyRefusal nodes.now (length order.old) (length claims.old)) result fault.new }
    ensures unchanged { result ≢ 0 →
        (order.new ≡ order.old) × (peak.new ≡ peak.old) × (claims.new ≡ claims.old) × (count.new ≡ count.old) }
    ensures no_fault { result ≡ 0 → fault.new ≡ fault.old }
{
    certify_tree(alloc, nodes, order, peak, claims, count, fault)
}

/// The peak of an order of tasks that hand data items to each other, or the first place at which it is no traversal.
#[unsafe(no_mangle)]
pub extern "C" fn memplan_replay_system(
    alloc: Global,
    tasks: &[GivenTask],
    items: &[GivenItem],
    order: &[u32],
    peak: &mut u64,
    fault: &mut Fault,
) -> u32
    // 0: the order is a traversal of the system of these tasks and items, with this peak
    ensures replayed { result ≡ 0 → IsSystemReplayed tasks.now items.now order.now peak.new }
    ensures refused { result ≢ 0 → IsRefusedFor (IsSystemReplayRefusal tasks.now items.now order.now) result fault.new }
    ensures unchanged { result ≢ 0 → peak.new ≡ peak.old }
    ensures no_fault { result ≡ 0 → fault.new ≡ fault.old }
{
    replay_system(alloc, tasks, items, order, peak, fault)
}

/// The peak of an order of tasks that hand data items to each other, each to any number of readers, or the first place at which it is no
/// traversal. The readers of all items stand in one array, item by item.
#[unsafe(no_mangle)]
pub extern "C" fn memplan_replay_shared(
    alloc: Global,
    tasks: &[GivenTask],
    items: &[GivenSharedItem],
    readers: &[u32],
    order: &[u32],
    peak: &mut u64,
    fault: &mut Fault,
) -> u32
    // 0: the order is a traversal of the system of these tasks, items and readers, with this peak
    ensures replayed { result ≡ 0 → IsSharedReplayed tasks.now items.now readers.now order.now peak.new }
    ensures refused { result ≢ 0 → IsRefusedFor (IsSharedReplayRefusal tasks.now items.now readers.now order.now) result fault.new }
    ensures unchanged { result ≢ 0 → peak.new ≡ peak.old }
    ensures no_fault { result ≡ 0 → fault.new ≡ fault.old }
{
    replay_shared(alloc, tasks, items, readers, order, peak, fault)
}

/// An order of tasks that hand data items to each other, each to any number of readers; its peak; and a bound that no order has a peak below.
/// The readers of all items stand in one array, item by item. The plan begins with the order `start`, and is never worse, or with that
/// breadth first where `start` has no place.
#[unsafe(no_mangle)]
pub extern "C" fn memplan_plan_shared(
    alloc: Global,
    tasks: &[GivenTask],
    items: &[GivenSharedItem],
    readers: &[u32],
    start: &[u32],
    effort: u64,
    order: &mut [u32],
    peak: &mut u64,
    bound: &mut u64,
    fault: &mut Fault,
) -> u32
    // 0: the order is a traversal of the system of these tasks, items and readers, with this peak; none has one below the bound, and this
    // one's is no higher than that of the start
    ensures planned { result ≡ 0 → IsSharedPlanned tasks.now items.now readers.now start.now order.new peak.new bound.new }
    // else the room is refused, or the tasks, items and readers, or the start, or memory is wanting
    ensures refused { result ≢ 0 → IsRefusedFor
        (IsSharedPlanRefusal tasks.now items.now readers.now start.now (length order.old)) result fault.new }
    ensures unchanged { result ≢ 0 → (order.new ≡ order.old) × (peak.new ≡ peak.old) × (bound.new ≡ bound.old) }
    ensures no_fault { result ≡ 0 → fault.new ≡ fault.old }
{
    plan_shared(
        alloc, tasks, items, readers, start, effort, order, peak, bound, fault,
    )
}

/// The tree of the fronts of a matrix that is eliminated in an order, or in that of minimum degree where none is given, at the front of the
/// array of nodes; how many fronts there are; and the front of each column. Liu 1990 and 1992.
#[unsafe(no_mangle)]
pub extern "C" fn memplan_fronts(
    alloc: Global,
    base: u32,
    starts: &[u32],
    rows: &[u32],
    order: &[u32],
    options: &GivenOptions,
    nodes: &mut [Node],
    count: &mut u64,
    front_of: &mut [u32],
    fault: &mut Fault,
) -> u32
    // 0: the first nodes are the tree of the fronts of the matrix, and the front of each column is that of its supernode
    ensures fronts { result ≡ 0 →
        AreFronts (matrix_given base starts.now rows.now order.now) (options_given options.now) (take count.new nodes.new) front_of.new }
    // the shape is one that there is
    ensures shape { result ≡ 0 → options.now.shape ≤ 1 }
    ensures counted { result ≡ 0 → count.new ≤ length nodes.new }
    // there are at most as many as columns
    ensures few { result ≡ 0 → count.new ≤ length front_of.new }
    ensures past { result ≡ 0 → drop count.new nodes.new ≡ drop count.new nodes.old }
    ensures refused { result ≢ 0 → IsRefusedFor
        (IsMatrixFrontsRefusal (matrix_given base starts.now rows.now order.now) options.now (length nodes.old) (length front_of.old))
        result fault.new }
    ensures unchanged { result ≢ 0 → (nodes.new ≡ nodes.old) × (count.new ≡ count.old) × (front_of.new ≡ front_of.old) }
    ensures no_fault { result ≡ 0 → fault.new ≡ fault.old }
{
    matrix_fronts(
        alloc, base, starts, rows, order, options, nodes, count, front_of, fault,
    )
}

/// The fronts of a matrix, as `memplan_fronts` writes them, and the columns in the order in which its analysis numbers them: along the
/// postorder of the elimination tree, in which those of each front come after those of its children. Liu 1990 and 1992.
#[unsafe(no_mangle)]
pub extern "C" fn memplan_analyse(
    alloc: Global,
    base: u32,
    starts: &[u32],
    rows: &[u32],
    order: &[u32],
    options: &GivenOptions,
    nodes: &mut [Node],
    count: &mut u64,
    front_of: &mut [u32],
    columns: &mut [u32],
    fault: &mut Fault,
) -> u32
    // 0: the first nodes are the tree of the fronts of the matrix, the front of each column is that of its supernode, and the columns are
    // those of the same analysis
    ensures analysed { result ≡ 0 → AreAnalysed (matrix_given base starts.now rows.now order.now) (options_given options.now)
        (take count.new nodes.new) front_of.new columns.new }
    // the shape is one that there is
    ensures shape { result ≡ 0 → options.now.shape ≤ 1 }
    ensures counted { result ≡ 0 → count.new ≤ length nodes.new }
    // there are at most as many as columns
    ensures few { result ≡ 0 → count.new ≤ length front_of.new }
    ensures past { result ≡ 0 → drop count.new nodes.new ≡ drop count.new nodes.old }
    ensures refused { result ≢ 0 → IsRefusedFor
        (IsAnalysisRefusal (matrix_given base starts.now rows.now order.now) options.now (length nodes.old) (length front_of.old)
        (length columns.old)) result fault.new }
    ensures unchanged { result ≢ 0 →
        (nodes.new ≡ nodes.old) × (count.new ≡ count.old) × (front_of.new ≡ front_of.old) × (columns.new ≡ columns.old) }
    ensures no_fault { result ≡ 0 → fault.new ≡ fault.old }
{
    matrix_analysis(
        alloc, base, starts, rows, order, options, nodes, count, front_of, columns, fault,
    )
}

/// The columns of each front in the order in which they stand, one front after another in their order. Where the columns and their fronts
/// come from `memplan_analyse`, and the order of the fronts is one of their tree, this is an order of elimination with the same fill
/// (`columns_of_analysis`, a law of `c_calls`). Liu 1990 and 1992.
#[unsafe(no_mangle)]
pub extern "C" fn memplan_columns(
    alloc: Global,
    base: u32,
    columns: &[u32],
    front_of: &[u32],
    fronts: &[u32],
    new_columns: &mut [u32],
    fault: &mut Fault,
) -> u32
    // 0: each column and each front is there once, and the new columns are those of each front, front by front
    ensures along { result ≡ 0 → AreAlongFronts base columns.now front_of.now fronts.now new_columns.new }
    ensures refused { result ≢ 0 → IsRefusedFor
        (IsColumnsCallRefusal base columns.now front_of.now fronts.now (length new_columns.old)) result fault.new }
    ensures unchanged { result ≢ 0 → new_columns.new ≡ new_columns.old }
    ensures no_fault { result ≡ 0 → fault.new ≡ fault.old }
{
    front_columns(alloc, base, columns, front_of, fronts, new_columns, fault)
}

/// The columns of a matrix in the order of minimum degree, which `memplan_fronts` takes where none is given. George and Liu 1989.
#[unsafe(no_mangle)]
pub extern "C" fn memplan_minimum_degree(
    alloc: Global,
    base: u32,
    starts: &[u32],
    rows: &[u32],
    columns: &mut [u32],
    fault: &mut Fault,
) -> u32
    // 0: the columns are those of the matrix, in the order of minimum degree
    ensures ordered { result ≡ 0 → IsDegreeOrder base starts.now rows.now columns.new }
    ensures refused { result ≢ 0 → IsRefusedFor (IsDegreeCallRefusal base starts.now rows.now (length columns.old)) result fault.new }
    ensures unchanged { result ≢ 0 → columns.new ≡ columns.old }
    ensures no_fault { result ≡ 0 → fault.new ≡ fault.old }
{
    minimum_degree(alloc, base, starts, rows, columns, fault)
}
