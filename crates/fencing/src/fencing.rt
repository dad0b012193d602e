//! Fences along an order.

ghost use Rattle.std.specs.Prelude.{◌≡◌, ◌+◌, ◌*◌, ◌^◌, ◌<◌, ◌≤◌, All, [], false, length, map, IfOk, IfErr};
ghost use Rattle.std.specs.List.{sum_by};
ghost use Rattle.mp_system.specs.System.{item_size, need_of};
ghost use Rattle.mp_system.specs.Memory.{state_memory};
ghost use Rattle.mp_system.specs.Traversal.{IsTraversal};
ghost use Rattle.fences.specs.Moments.{numbers_of};
ghost use Rattle.fences.specs.JudgedFences.{Certify, with_fences};
ghost use Rattle.fences.specs.Workers.{relieved};
ghost use Rattle.fencing.specs.Needs.{taken_need};
ghost use Rattle.fencing.specs.Takings.{IsCarried, amounts_for, fence_of, fences_left, handed_along, taking_amount};
ghost use Rattle.fencing.specs.Refusal.{IsFencingRefusal};

use crate::NoMemory;
use crate::along::{relieved_peak, takings_along};
use crate::ledger::Taking;
use fences::Fence;
use limits::MOST_POSITIONS;
use mp_system::laws::traversal_law;
use mp_system::{Item, OrderFault, ReplayRefusal, System, replay};
use std::alloc::Global;

/// Fences, and the amounts that are handed on: those of the items, in the order of the items, and behind them those of the fences, in the order of
/// the fences. So `judge_fences` takes them.
#[derive(Drop)]
pub struct Fencing {
    pub fences: Vec<Fence>,
    /// In the unit of the sizes. An item hands on its size, and what its consumer takes of what its producer gave back.
    pub amounts: Vec<u64>,
}

/// Why no fences are made along an order.
#[derive(Clone, Copy, Debug, PartialEq, Eq)]
pub enum FencingRefusal {
    /// The order is no traversal: its first fault.
    Order(OrderFault),
    /// The order's peak, where each task needs less by the room of its worker, is above the bound.
    Bound { peak: u64 },
    /// There would be more items and fences together than the limit `positions`. It does not come where the items and twice the tasks are within
    /// that limit, as they are where the items are the arcs of a task graph.
    ManyFences,
    /// Memory ran out, which says nothing of the order.
    NoMemory,
}

impl From<NoMemory> for FencingRefusal {
    ghost use Rattle.fencing.specs.declared.fencing.FencingRefusal.TheVariants.{NoMemory as OutOfMemory};

    ghost from_gives = { λ _ e. e ≡ OutOfMemory };

    fn from(_no_memory: NoMemory) -> FencingRefusal {
        FencingRefusal::NoMemory
    }
}

impl From<ReplayRefusal> for FencingRefusal {
    ghost use Rattle.fencing.specs.Refusal.{of_replay};

    ghost from_gives = { λ refusal e. e ≡ of_replay refusal };

    fn from(refusal: ReplayRefusal) -> FencingRefusal {
        match refusal {
            ReplayRefusal::Order(fault) => FencingRefusal::Order(fault),
            ReplayRefusal::NoMemory => FencingRefusal::NoMemory,
        }
    }
}

// The sizes of the items, and what is taken along them.
fn item_amounts(alloc: Global, items: &[Item], takings: &[Taking]) -> Result<Vec<u64>, NoMemory>
    requires carried { All (IsCarried items.now) takings.now }
    requires fits { sum_by item_size items.now + sum_by taking_amount takings.now < 2 ^ 64 }
    ensures { IfOk result (λ amounts. amounts.items ≡ handed_along items.now takings.now) }
{
    let mut amounts: Vec<u64> = items.iter().map(|item| item.size).collect(alloc)?;
    for taking in takings {
        if let Some(index) = taking.along {
            amounts[index as usize] += taking.amount;
        }
    }
    Ok(amounts)
}

// Behind these the amounts of the takings that are fences.
fn amounts_of(alloc: Global, items: &[Item], takings: &[Taking]) -> Result<Vec<u64>, NoMemory>
    requires carried { All (IsCarried items.now) takings.now }
    requires fits { sum_by item_size items.now + sum_by taking_amount takings.now < 2 ^ 64 }
    ensures { IfOk result (λ amounts. amounts.items ≡ amounts_for items.now takings.now) }
{
    let mut amounts = item_amounts(alloc, items, takings)?;
    for taking in takings {
        if taking.along.is_none() {
            amounts.push(taking.amount)?;
        }
    }
    Ok(amounts)
}

// A fence for each taking along no item.
fn fences_of(alloc: Global, takings: &[Taking]) -> Result<Vec<Fence>, NoMemory>
    ensures { IfOk result (λ fences. fences.items ≡ map fence_of (fences_left takings.now)) }
{
    let mut fences = Vec::new(alloc);
    for taking in takings {
        if taking.along.is_none() {
            fences.push(Fence {
                from: taking.from,
                to: taking.to,
            })?;
        }
    }
    Ok(fences)
}

/// Fences along a traversal, and amounts, with which no parallel run uses more than the bound, as `judge_fences` judges it: whatever starts the
/// tasks, on however many workers, and however long they take. The order passes the fences, so no run comes to a stop. There are fences for each
/// bound from the order's peak on, at most two for each task, and none where the bound has room for what all tasks need together. Sizes, amounts,
/// peaks, the room and the bound have one unit. Linear in the tasks and items.
///
/// On at most so many workers, room may be set aside for each of them, beside the bound: each task then needs less by that room, and so fewer
/// fences are enough. The peak that the bound has to reach is the one with these needs. Without it the room is 0.
///
/// What the bound leaves at the start is a pool. A task that comes next takes what it needs first of what its suppliers gave back, which is handed
/// on along the items and needs no fence; then out of the pool, as long as there is something, which needs none either; and then of what other
/// tasks gave back, the latest first, with a fence from each of them. At its end it gives back what it held and does not hand on.
pub fn fence_along(
    alloc: Global,
    system: &System,
    order: &[u32],
    room: u64,
    bound: u64,
) -> Result<Fencing, FencingRefusal>
    ensures certified { IfOk result (λ f. Certify (relieved room system.now) f.fences.items f.amounts.items bound) }
    ensures passed { IfOk result (λ f. IsTraversal (with_fences system.now f.fences.items) order.now) }
    ensures few { IfOk result (λ f. length f.fences.items ≤ 2 * length system.now.tasks) }
    ensures none { IfOk result (λ f. state_memory system.now (λ _. false) + sum_by (need_of system.now) (numbers_of system.now) ≤ bound →
        f.fences.items ≡ []) }
    ensures needy { IfOk result (λ f. All (λ fence. 1 ≤ taken_need (relieved room system.now) fence.to) f.fences.items) }
    ensures refused { IfErr result (IsFencingRefusal (relieved room system.now) order.now bound) }
{
    traversal_law();
    system.keeps();
    replay(alloc, system, order)?;
    let peak = relieved_peak(alloc, system, order, room)?;
    if peak > bound {
        return Err(FencingRefusal::Bound { peak });
    }
    let takings = takings_along(alloc, system, order, room, bound)?;
    let fences = fences_of(alloc, &takings)?;
    if system.items().len() + fences.len() > MOST_POSITIONS as usize {
        return Err(FencingRefusal::ManyFences);
    }
    let amounts = amounts_of(alloc, system.items(), &takings)?;
    Ok(Fencing { fences, amounts })
}
