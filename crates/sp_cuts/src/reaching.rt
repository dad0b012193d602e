//! The staircases of the terms at all positions, read off the sides of their parts while the planner
//! makes them.

ghost use Rattle.std.specs.Prelude.{◌≡◌, ℕ, ◌+◌, ◌*◌, ◌^◌, ◌<◌, ◌≤◌, length, IfOk};
ghost use Rattle.limits.specs.Limits.{most_steps};
ghost use Rattle.sp_terms.specs.SystemOfTerm.{task_count};
ghost use Rattle.sp_terms.specs.Values.{term_of};
ghost use Rattle.sp_cuts.specs.Stairs.{AreStairs, step_total, PassesLimit, both_of, all_of};
ghost use Rattle.sp_cuts.specs.Reaching.{CanBeRun, AreStepsOf, IsLast};
ghost use Rattle.sp_cuts.specs.declared.reaching.StairsRefusal.TheVariants.{NoMemory as OutOfRoom};

use crate::NoMemory;
use crate::laws::one_staircase;
use crate::parts::Part;
use crate::planning::push_position;
use hill_valley::{Ropes, Step};
use limits::MOST_STEPS;
use segment_merge::laws;
use sp_terms::{TermList, laws as term_laws};
use std::alloc::{AllocFailed, Global};
use std::fmt::{self, Display, Formatter, Write};
use std::sync::ledger::Ledger;
use step_count::Steps;

/// How low the memory of a term can come within each bound. Within a bound of at least the memory where
/// a list starts, the least memory that can be reached is the level of the last step whose bound is
/// within it, and the memory where the list starts if there is none. Along a list the bounds rise and
/// the levels fall.
#[derive(Drop)]
pub struct Stairs {
    /// From the first state on.
    pub front: Vec<Step>,
    /// From the last state back.
    pub back: Vec<Step>,
}

/// Why there are no staircases.
#[derive(Clone, Copy, Debug, PartialEq, Eq)]
pub enum StairsRefusal {
    /// All lists together have more than 10,000,000 steps.
    Limit,
    /// Memory ran out, which says nothing of the term.
    NoMemory,
}

impl From<NoMemory> for StairsRefusal {
    ghost from_gives = { λ _ e. e ≡ OutOfRoom };

    fn from(_no_memory: NoMemory) -> StairsRefusal {
        StairsRefusal::NoMemory
    }
}

impl<T: Drop> From<AllocFailed<T>> for StairsRefusal {
    ghost from_gives = { λ _ e. e ≡ OutOfRoom };

    fn from(_failed: AllocFailed<T>) -> StairsRefusal {
        StairsRefusal::NoMemory
    }
}

impl Display for StairsRefusal {
    fn fmt<W: Write>(&self, f: &mut Formatter<W>) -> fmt::Result {
        match self {
            StairsRefusal::Limit => f.write_str("limit steps"),
            StairsRefusal::NoMemory => f.write_str("no memory"),
        }
    }
}

/// The staircases of the term at each position, in the order of the positions. They are read off the
/// sides of each part before these are merged into those of a greater one. There is one such list
/// (`laws::one_staircase`). Time linear in the segments of the sides of each part, beside that of
/// `plan_terms`, whose steps are counted as there; memory for the steps that are given back, an entry
/// for each position, and the ropes. It ends as soon as the steps pass the limit.
pub fn staircases<L: Ledger>(
    alloc: Global,
    terms: &TermList,
    steps: &mut Steps<L>,
) -> Result<Vec<Stairs>, StairsRefusal>
    ensures stairs { IfOk result (λ all. AreStairs terms.now (all_of all.items)) }
    // the limit is passed exactly where this is said
    ensures few { IfOk result (λ all. step_total (all_of all.items) ≤ most_steps) }
    ensures limit { result ≡ Err StairsRefusal.Limit → PassesLimit terms.now }
    ensures steps { (d : ℕ) → task_count (term_of terms.now) < 2 ^ d
        → steps.new ≤ steps.old + task_count (term_of terms.now) * d }
{
    laws::all();
    cut_laws::laws::stands_law();
    term_laws::position_law();
    one_staircase();
    let mut ropes = Ropes::new(alloc);
    let mut stack = Vec::new(alloc);
    let mut found = Vec::new(alloc);
    let mut next = 1;
    let mut total = 0;
    for done in 0..terms.len() {
        let position = terms.at(done + 1);
        next = push_position(alloc, position, next, &mut stack, &mut ropes, steps)?;
        let stairs = last_stairs(alloc, &stack)?;
        total += step_count(&stairs);
        if MOST_STEPS < total {
            return Err(StairsRefusal::Limit);
        }
        found.push(stairs)?;
    }
    Ok(found)
}

// Those of the last part.
fn last_stairs(alloc: Global, parts: &[Part]) -> Result<Stairs, NoMemory>
    requires some { 0 < length parts.now }
    requires room { (p : Part) → IsLast parts.now p → CanBeRun p }
    ensures { IfOk result (λ s. (p : Part) → IsLast parts.now p → AreStepsOf p (both_of s)) }
{
    let part = &parts[parts.len() - 1];
    let front = part.front.steps(alloc, part.initial)?;
    let back = part.back.steps(alloc, part.fin)?;
    Ok(Stairs { front, back })
}

fn step_count(stairs: &Stairs) -> u64
    ensures { result ≡ length stairs.now.front.items + length stairs.now.back.items }
{
    stairs.front.len() as u64 + stairs.back.len() as u64
}
