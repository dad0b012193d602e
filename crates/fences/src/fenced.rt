//! Whether fences keep all runs of a system within a bound, as amounts certify it.

ghost use Rattle.std.specs.Prelude.{◌≡◌, ◌+◌, ◌≤◌, ◌↔◌, ◌++◌, ℕ, List, length, map, IsTrue, IfOk, IfErr, MatchOption, MatchResult};
ghost use Rattle.mp_system.specs.System.{TaskSystem};
ghost use Rattle.mp_system.specs.Memory.{peak_of};
ghost use Rattle.mp_system.specs.Traversal.{IsTraversal};
ghost use Rattle.fences.specs.Runs.{NeverStops};
ghost use Rattle.fences.specs.Amounts.{certified_bound};
ghost use Rattle.fences.specs.JudgedFences.{AreFences, AreFew, Certify, FenceFits, FencePasses, IsFencesRefusal, LeaveOrder, PassesBefore, fence_at, fence_item, with_fences};
ghost use Rattle.fences.specs.Workers.{BoundsRunsBeside, relieved};

use crate::NoMemory;
use crate::judged::{AmountTest, AmountsRefusal, judge_amounts};
use crate::laws::{fenced_law, progress_law, workers_law};
use crate::ordered::{OrderFault, order_of};
use limits::MOST_POSITIONS;
use mp_system::{Item, System};
use std::alloc::Global;

/// A fence: a task that waits until another is done, though it needs nothing of it.
#[derive(Clone, Copy, Debug, PartialEq, Eq)]
pub struct Fence {
    /// The number of the task that is to be done first, from 1.
    pub from: u32,
    /// The number of the task that waits for it.
    pub to: u32,
}

/// A test that each fence passes.
#[derive(Clone, Copy, Debug, PartialEq, Eq)]
pub enum FenceTest {
    /// Both numbers are those of tasks.
    Tasks,
    /// They are not the same.
    Apart,
}

/// What is said against fences and the amounts that are handed on along the items and the fences.
#[derive(Clone, Copy, Debug, PartialEq, Eq)]
pub enum FencesRefusal {
    /// There are more items and fences together than the limit `positions`.
    ManyFences,
    /// The first fence, counted from 1, that fails a test, and the first test that it fails.
    Fence { test: FenceTest, fence: u32 },
    /// This item of the system, counted from 1, is the first that one task both produces and consumes, so the task never runs.
    OwnInput(u32),
    /// This task, the lowest such, stands in no list of tasks in which each stands after all that it waits for, so no order runs it.
    Cycle(u32),
    /// There are more or fewer amounts than items and fences.
    Length,
    /// The first item whose amount fails a test, and the test. Items are counted from 1, and the fences after them.
    Item { test: AmountTest, item: u32 },
    /// All amounts together are greater than 2^62.
    Total,
    /// The amounts certify no more than this bound, which is above the one that was asked for.
    Bound(u64),
    /// Memory ran out, which says nothing of the fences.
    NoMemory,
}

impl From<NoMemory> for FencesRefusal {
    ghost use Rattle.fences.specs.declared.fenced.FencesRefusal.TheVariants.{NoMemory as OutOfMemory};

    ghost from_gives = { λ _ e. e ≡ OutOfMemory };

    fn from(_no_memory: NoMemory) -> FencesRefusal {
        FencesRefusal::NoMemory
    }
}

impl From<OrderFault> for FencesRefusal {
    ghost use Rattle.fences.specs.JudgedFences.{of_order};

    ghost from_gives = { λ fault e. e ≡ of_order fault };

    fn from(fault: OrderFault) -> FencesRefusal {
        match fault {
            OrderFault::OwnInput(item) => FencesRefusal::OwnInput(item),
            OrderFault::Cycle(task) => FencesRefusal::Cycle(task),
            OrderFault::NoMemory => FencesRefusal::NoMemory,
        }
    }
}

impl From<AmountsRefusal> for FencesRefusal {
    ghost use Rattle.fences.specs.JudgedFences.{of_amounts};

    ghost from_gives = { λ refusal e. e ≡ of_amounts refusal };

    fn from(refusal: AmountsRefusal) -> FencesRefusal {
        match refusal {
            AmountsRefusal::Length => FencesRefusal::Length,
            AmountsRefusal::Item { test, item } => FencesRefusal::Item { test, item },
            AmountsRefusal::Total => FencesRefusal::Total,
            AmountsRefusal::NoMemory => FencesRefusal::NoMemory,
        }
    }
}

// Whether this is the number of one of so many tasks.
fn is_task(task: u32, count: usize) -> bool
    ensures { IsTrue result ↔ ((1 ≤ task) × (task ≤ count)) }
{
    task != 0 && task as usize <= count
}

// The first test that a fence of a system of so many tasks fails, if it fails one.
fn failed_test(fence: Fence, count: usize) -> Option<FenceTest>
    ensures { (system : TaskSystem) (fences : List Fence) (place : ℕ) →
        length system.tasks ≡ count → fence_at fences place ≡ fence →
        MatchOption result (FenceFits system fences place)
        (λ test. PassesBefore system fences test place × (¬ FencePasses system fences test place)) }
{
    if !is_task(fence.from, count) || !is_task(fence.to, count) {
        return Some(FenceTest::Tasks);
    }
    if fence.from == fence.to {
        return Some(FenceTest::Apart);
    }
    None
}

// Whether each fence passes the tests; else the first that does not.
fn judge_each(system: &System, fences: &[Fence]) -> Result<(), FencesRefusal>
    requires { AreFew system.now fences.now }
    ensures { MatchResult result
        (λ _. AreFences system.now fences.now)
        (λ refusal. (amounts : List ℕ) (bound : ℕ) → IsFencesRefusal system.now fences.now amounts bound refusal) }
{
    let count = system.tasks().len();
    for i in 0..fences.len() {
        if let Some(test) = failed_test(fences[i], count) {
            let fence = i as u32 + 1;
            return Err(FencesRefusal::Fence { test, fence });
        }
    }
    Ok(())
}

// The items of the system with the fences.
fn items_of(alloc: Global, items: &[Item], fences: &[Fence]) -> Result<Vec<Item>, NoMemory>
    ensures { IfOk result (λ made. made.items ≡ items.now ++ map fence_item fences.now) }
{
    let mut made = Vec::from_slice(alloc, items)?;
    for fence in fences {
        made.push(Item {
            size: 0,
            from: Some(fence.from),
            to: Some(fence.to),
        })?;
    }
    Ok(made)
}

// The system with the fences.
fn fenced(alloc: Global, system: &System, fences: &[Fence]) -> Result<System, NoMemory>
    requires { AreFences system.now fences.now }
    ensures { IfOk result (λ fenced. fenced ≡ with_fences system.now fences.now) }
{
    let tasks = Vec::from_slice(alloc, system.tasks())?;
    let items = items_of(alloc, system.items(), fences)?;
    Ok(System::new(tasks, items))
}

// Whether some order passes the fences; the system with them is given.
fn judge_order(
    alloc: Global,
    system: &System,
    fences: &[Fence],
    fenced: &System,
) -> Result<(), FencesRefusal>
    requires fences { AreFences system.now fences.now }
    requires fenced { fenced.now ≡ with_fences system.now fences.now }
    ensures { MatchResult result
        (λ _. LeaveOrder system.now fences.now)
        (λ refusal. (amounts : List ℕ) (bound : ℕ) → IsFencesRefusal system.now fences.now amounts bound refusal) }
{
    order_of(alloc, fenced)?;
    Ok(())
}

// The system with the fences, if some order passes them; else what is said against them.
fn opened(alloc: Global, system: &System, fences: &[Fence]) -> Result<System, FencesRefusal>
    ensures { MatchResult result
        (λ fenced. LeaveOrder system.now fences.now × (fenced ≡ with_fences system.now fences.now))
        (λ refusal. (amounts : List ℕ) (bound : ℕ) → IsFencesRefusal system.now fences.now amounts bound refusal) }
{
    if system.items().len() + fences.len() > MOST_POSITIONS as usize {
        return Err(FencesRefusal::ManyFences);
    }
    judge_each(system, fences)?;
    let fenced = fenced(alloc, system, fences)?;
    judge_order(alloc, system, fences, &fenced)?;
    Ok(fenced)
}

// What amounts certify for the system with the fences, which is given, and passed by some order; else what is said against them.
fn judge_fenced(
    alloc: Global,
    system: &System,
    fences: &[Fence],
    fenced: &System,
    amounts: &[u64],
    room: u64,
    bound: u64,
) -> Result<u64, FencesRefusal>
    requires leave { LeaveOrder system.now fences.now }
    requires fenced { fenced.now ≡ with_fences system.now fences.now }
    ensures certify { IfOk result (λ _. Certify (relieved room system.now) fences.now amounts.now bound) }
    ensures certified { IfOk result (λ certified. certified ≡ certified_bound (relieved room (with_fences system.now fences.now)) amounts.now) }
    ensures runs { IfOk result (λ _. BoundsRunsBeside (with_fences system.now fences.now) room bound) }
    ensures progress { IfOk result (λ _. NeverStops (with_fences system.now fences.now)) }
    ensures order { IfOk result (λ _. (order : List ℕ) × IsTraversal (with_fences system.now fences.now) order) }
    ensures orders { IfOk result (λ _. (order : List ℕ) → IsTraversal (with_fences system.now fences.now) order →
        IsTraversal system.now order × (peak_of system.now order ≤ bound + room)) }
    ensures refused { IfErr result (IsFencesRefusal (relieved room system.now) fences.now amounts.now bound) }
{
    workers_law();
    fenced_law();
    progress_law();
    fenced.keeps();
    let certified = judge_amounts(alloc, fenced, amounts, room)?;
    if certified > bound {
        return Err(FencesRefusal::Bound(certified));
    }
    Ok(certified)
}

/// The bound that amounts certify for a system with fences, where each task needs less by `room`, if it is at most the bound that is asked for;
/// else what is said first against the fences and the amounts. Then along every parallel run that keeps to the fences used memory is at most
/// the bound and the room for each task that runs, whatever starts the tasks, and however long they take; and none comes to a stop before all
/// tasks are done. Each order that passes the fences is one of the system, with a peak within the bound and the room, and there is such an
/// order.
///
/// The room is what is set aside for each worker: with at most W workers the bound is certified beside W times the room, so that fewer fences
/// are enough. With room 0 it is certified for any number of workers.
///
/// There is an amount for each item, in the order of the items, and behind these one for each fence, in the order of the fences: from the
/// size, which is 0 for a fence, to 2^60, and all together at most 2^62. Sizes, amounts, bounds and the room have one unit. Linear in the
/// tasks, items and fences.
pub fn judge_fences(
    alloc: Global,
    system: &System,
    fences: &[Fence],
    amounts: &[u64],
    room: u64,
    bound: u64,
) -> Result<u64, FencesRefusal>
    ensures certify { IfOk result (λ _. Certify (relieved room system.now) fences.now amounts.now bound) }
    ensures certified { IfOk result (λ certified. certified ≡ certified_bound (relieved room (with_fences system.now fences.now)) amounts.now) }
    ensures runs { IfOk result (λ _. BoundsRunsBeside (with_fences system.now fences.now) room bound) }
    ensures progress { IfOk result (λ _. NeverStops (with_fences system.now fences.now)) }
    ensures order { IfOk result (λ _. (order : List ℕ) × IsTraversal (with_fences system.now fences.now) order) }
    ensures orders { IfOk result (λ _. (order : List ℕ) → IsTraversal (with_fences system.now fences.now) order →
        IsTraversal system.now order × (peak_of system.now order ≤ bound + room)) }
    ensures refused { IfErr result (IsFencesRefusal (relieved room system.now) fences.now amounts.now bound) }
{
    let fenced = opened(alloc, system, fences)?;
    judge_fenced(alloc, system, fences, &fenced, amounts, room, bound)
}
