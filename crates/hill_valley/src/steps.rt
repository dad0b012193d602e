//! The steps of a staircase.

ghost use Rattle.std.specs.Prelude.{◌≡◌, OnOk};
ghost use Rattle.hill_valley.specs.Staircase.{add_step, ends_at};

use crate::NoMemory;

/// A step of a staircase: from this bound on, the side leads down to this level.
#[derive(Clone, Copy)]
pub struct Step {
    /// The least memory within which the level is reached, from 0 to 2^61.
    pub bound: u64,
    /// The level, from 0 to 2^60.
    pub level: u64,
}

// One more step, in place of the last one where that has the same bound.
pub(crate) fn add_step(steps: &mut Vec<Step>, bound: u64, level: u64) -> Result<(), NoMemory>
    ensures { OnOk result (steps.new.items ≡ add_step bound level steps.old.items) }
{
    if ends_at(steps, bound) {
        steps.pop();
    }
    steps.push(Step { bound, level })?;
    Ok(())
}

// The last step has this bound.
fn ends_at(steps: &[Step], bound: u64) -> bool
    ensures { result ≡ ends_at bound steps.now }
{
    match steps.last() {
        Some(last) => last.bound == bound,
        None => false,
    }
}
