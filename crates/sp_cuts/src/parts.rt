//! A part: two sides that lead down to one state.

ghost use Rattle.std.specs.Prelude.{◌≡◌, ℕ, ◌≤◌, List, []};
ghost use Rattle.limits.specs.Limits.{most_total};
ghost use Rattle.sp_terms.specs.Term.{hold};
ghost use Rattle.cut_laws.specs.Cuts.{hold_cut};
ghost use Rattle.cut_laws.specs.Standing.{StandsFor};
ghost use Rattle.sp_cuts.specs.Parts.{cut_of, IsPart, hill_between, CanJoin};

use hill_valley::Side;
use mp_system::Task;
use std::alloc::Global;

/// Two sides that lead down to one state of least memory of a term (Liu 1987).
/// All numbers are memory, from 0 to 2^60, in the unit of the term's sizes.
#[derive(Drop)]
pub struct Part {
    /// From the first state down to the cut.
    pub front: Side,
    /// From the last state down to the cut, backwards: its tasks stand in the reverse of the order in which they run.
    pub back: Side,
    /// The memory of the first state.
    pub initial: u64,
    /// The memory of the last state.
    pub fin: u64,
    /// The memory of the cut.
    pub least: u64,
    /// The greatest memory of the order that leads down the front and up the back.
    pub peak: u64,
}

/// The part of a data item of this size, at most 2^60: no task, and one state.
pub fn hold(alloc: Global, size: u64) -> Part
    requires size { size ≤ most_total }
    ensures cut { (lists : List (List ℕ)) → cut_of lists result ≡ hold_cut size }
    ensures peak { result.peak ≡ size }
    ensures stands { (lists : List (List ℕ)) → StandsFor (hold size) [] (cut_of lists result) }
    ensures part { (lists : List (List ℕ)) → IsPart lists result }
{
    cut_laws::laws::composition_law();
    Part {
        front: Side::new(alloc),
        back: Side::new(alloc),
        initial: size,
        fin: size,
        least: size,
        peak: size,
    }
}

/// The memory while a task runs between two parts: what the first one leaves, and what the task needs beside that.
pub fn hill_between(a: &Part, task: &Task, b: &Part) -> u64
    requires joins { CanJoin a.now task.now b.now }
    ensures { result ≡ hill_between a.now task.now b.now }
{
    a.fin + (task.extra + b.initial - task.share)
}
