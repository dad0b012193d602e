//! Whether amounts can be handed on along the items of a system, and what they certify.

ghost use Rattle.std.specs.Prelude.{◌≡◌, ◌≤◌, ◌↔◌, ℕ, List, length, sum, IsTrue, IfOk, IfErr, MatchOption, MatchResult};
ghost use Rattle.lists.specs.Numbers.{Each};
ghost use Rattle.mp_system.specs.System.{TaskSystem};
ghost use Rattle.fences.specs.Amounts.{AreHandedOn, certified_bound};
ghost use Rattle.fences.specs.Judged.{AmountFits, AmountPasses, AreAccepted, IsAmountsRefusal, amount_at, item_at, most_handed_on};
ghost use Rattle.fences.specs.Workers.{BoundsRunsBeside, relieved};

use crate::NoMemory;
use crate::bound::bound_of;
use crate::laws::workers_law;
use limits::MOST_TOTAL;
use mp_system::System;
use std::alloc::Global;

// All amounts together are at most so much.
const MOST_HANDED_ON: u64 = 1 << 62;

/// A test that each amount passes.
#[derive(Clone, Copy, Debug, PartialEq, Eq)]
pub enum AmountTest {
    /// It is at least the size of its item.
    Size,
    /// It is at most 2^60.
    Limit,
}

/// Why amounts are not handed on along the items of a system.
#[derive(Clone, Copy, Debug, PartialEq, Eq)]
pub enum AmountsRefusal {
    /// There are more or fewer amounts than items.
    Length,
    /// The first item, counted from 1, whose amount fails a test, and the test.
    Item { test: AmountTest, item: u32 },
    /// All amounts together are greater than 2^62.
    Total,
    /// Memory ran out, which says nothing of the amounts.
    NoMemory,
}

impl From<NoMemory> for AmountsRefusal {
    ghost use Rattle.fences.specs.declared.judged.AmountsRefusal.TheVariants.{NoMemory as OutOfMemory};

    ghost from_gives = { λ _ e. e ≡ OutOfMemory };

    fn from(_no_memory: NoMemory) -> AmountsRefusal {
        AmountsRefusal::NoMemory
    }
}

// The test that an amount fails at an item of this size, if it fails one.
fn failed_test(size: u64, amount: u64) -> Option<AmountTest>
    ensures { (system : TaskSystem) (amounts : List ℕ) (place : ℕ) →
        (item_at system place).size ≡ size → amount_at amounts place ≡ amount →
        MatchOption result (AmountFits system amounts place) (λ test. ¬ AmountPasses system amounts test place) }
{
    if amount < size {
        return Some(AmountTest::Size);
    }
    if amount > MOST_TOTAL {
        return Some(AmountTest::Limit);
    }
    None
}

// Whether each amount passes the tests; else the first item whose amount does not.
fn judge_each(system: &System, amounts: &[u64]) -> Result<(), AmountsRefusal>
    requires { length amounts.now ≡ length system.now.items }
    ensures { MatchResult result
        (λ _. Each (length system.now.items) (AmountFits system.now amounts.now))
        (IsAmountsRefusal system.now amounts.now) }
{
    let items = system.items();
    for i in 0..items.len() {
        if let Some(test) = failed_test(items[i].size, amounts[i]) {
            let item = i as u32 + 1;
            return Err(AmountsRefusal::Item { test, item });
        }
    }
    Ok(())
}

// Whether all amounts together are within the limit.
fn is_within_total(amounts: &[u64]) -> bool
    ensures { IsTrue result ↔ (sum amounts.now ≤ most_handed_on) }
{
    let mut total: u64 = 0;
    for amount in amounts {
        if *amount > MOST_HANDED_ON - total {
            return false;
        }
        total += *amount;
    }
    true
}

// Whether there is an amount for each item, each passes the tests, and all together are within the limit.
fn judge(system: &System, amounts: &[u64]) -> Result<(), AmountsRefusal>
    ensures { MatchResult result (λ _. AreAccepted system.now amounts.now) (IsAmountsRefusal system.now amounts.now) }
{
    if amounts.len() != system.items().len() {
        return Err(AmountsRefusal::Length);
    }
    judge_each(system, amounts)?;
    if !is_within_total(amounts) {
        return Err(AmountsRefusal::Total);
    }
    Ok(())
}

/// The bound that amounts certify, in the unit of the sizes, where each task needs less by `room`: along every parallel run used memory is at
/// most the bound and the room for each task that runs, whatever starts the tasks, and however long they take. So with at most W workers the
/// bound is certified beside W times the room, and with room 0 it is for any number of workers. Else why the amounts are not handed on: the
/// first test that fails, with the first item that fails it. There is an amount for each item, in the order of the items, from its size to
/// 2^60, and all together are at most 2^62. Linear in the tasks and items.
pub fn judge_amounts(
    alloc: Global,
    system: &System,
    amounts: &[u64],
    room: u64,
) -> Result<u64, AmountsRefusal>
    ensures accepted { IfOk result (λ _. AreAccepted system.now amounts.now) }
    ensures handed_on { IfOk result (λ _. AreHandedOn system.now amounts.now) }
    ensures certified { IfOk result (λ bound. bound ≡ certified_bound (relieved room system.now) amounts.now) }
    ensures runs { IfOk result (BoundsRunsBeside system.now room) }
    ensures refused { IfErr result (IsAmountsRefusal system.now amounts.now) }
{
    workers_law();
    system.keeps();
    judge(system, amounts)?;
    let bound = bound_of(alloc, system, amounts, room)?;
    Ok(bound)
}
