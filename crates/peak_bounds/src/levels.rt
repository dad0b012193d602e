//! The memory when a blocker starts, in lowered sizes.

ghost use Rattle.std.specs.Prelude.{◌≡◌, ◌≤◌, ◌^◌, ◌↔◌, IsTrue, length, pos, neg_ℤ, ◌+ℤ◌, ◌≤ℤ◌, if◌then◌else◌};
ghost use Rattle.mp_system.specs.Given.{end_given};
ghost use Rattle.mp_system.specs.Memory.{is_done_or};
ghost use Rattle.mp_system.specs.Replay.{is_marked};
ghost use Rattle.peak_bounds.specs.Moments.{uses_of, is_held_for, lowered_where};
ghost use Rattle.peak_bounds.specs.Judging.{AreUses, AreSmall};

use crate::use_table::UseTable;
use shared_systems::SharedSystem;

// Whether the task of a number is done, where 0 is none.
fn is_done_or(otherwise: bool, task: u32, done: &[bool]) -> bool
    requires { task ≤ length done.now }
    ensures { result ≡ is_done_or otherwise (is_marked done.now) (end_given task) }
{
    if task == 0 {
        return otherwise;
    }
    done[task as usize - 1]
}

// Whether an item is held for a use.
fn is_held(maker: u32, taker: u32, done: &[bool]) -> bool
    requires maker { maker ≤ length done.now }
    requires taker { taker ≤ length done.now }
    ensures { result ≡ is_held_for (is_marked done.now) (record { from = end_given maker; to = end_given taker }) }
{
    is_done_or(true, maker, done) && !is_done_or(false, taker, done)
}

fn size_if(test: bool, size: i64) -> i64
    ensures { result ≡ (if test then size else pos 0) }
{
    if test { size } else { 0 }
}

// The lowered sizes of what is held, together.
fn held_sum(system: &SharedSystem, uses: &UseTable, done: &[bool], lowered: &[i64]) -> i128
    requires uses { AreUses system.now uses.now }
    requires done { length done.now ≡ length system.now.tasks }
    requires lowered { length lowered.now ≡ length (uses_of system.now.items) }
    requires small { AreSmall lowered.now }
    ensures sum { result ≡ lowered_where (is_held_for (is_marked done.now)) (uses_of system.now.items) lowered.now }
    ensures low { neg_ℤ (pos (2 ^ 84)) ≤ℤ result }
    ensures high { result ≤ℤ pos (2 ^ 84) }
{
    system.keeps();
    let mut sum: i128 = 0;
    for k in 0..lowered.len() {
        let held = is_held(uses.makers[k], uses.takers[k], done);
        sum += i128::from(size_if(held, lowered[k]));
    }
    sum
}

/// Whether the memory while a task runs that needs so much beside what is held, in lowered sizes, is at least the bound.
pub fn reaches(
    system: &SharedSystem,
    uses: &UseTable,
    done: &[bool],
    lowered: &[i64],
    need: u64,
    bound: u64,
) -> bool
    requires uses { AreUses system.now uses.now }
    requires done { length done.now ≡ length system.now.tasks }
    requires lowered { length lowered.now ≡ length (uses_of system.now.items) }
    requires small { AreSmall lowered.now }
    ensures { IsTrue result ↔ (pos bound ≤ℤ
        (lowered_where (is_held_for (is_marked done.now)) (uses_of system.now.items) lowered.now +ℤ pos need)) }
{
    let held = held_sum(system, uses, done, lowered);
    i128::from(bound) <= held + i128::from(need)
}
