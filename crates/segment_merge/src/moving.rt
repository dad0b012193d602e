//! A side that is moved into another.

ghost use Rattle.std.specs.Prelude.{◌≡◌, ◌+◌, ◌≤◌, length, OnOk};
ghost use Rattle.limits.specs.Limits.{most_total};
ghost use Rattle.side_laws.specs.Segments.{net_sum};
ghost use Rattle.hill_valley.specs.Ropes.{Extends};
ghost use Rattle.hill_valley.specs.Side.{profile, HaveRopes, runs_of};
ghost use Rattle.segment_merge.specs.Merging.{move_runs};

use crate::NoMemory;
use hill_valley::{Ropes, Side};
use std::sync::ledger::Ledger;
use step_count::Steps;

/// Moves each segment of one side into another, a step for each. It is joined with one of the same `up`: its list comes first where
/// `before` is true. The ropes of both are of these ropes, and all `net` values sum to at most 2^60. Logarithmic time for each segment.
/// Where memory is wanting segments may be lost, the ropes may hold more, and what was counted stays.
pub fn move_all<L: Ledger>(
    from: Side,
    into: &mut Side,
    before: bool,
    ropes: &mut Ropes,
    steps: &mut Steps<L>,
) -> Result<(), NoMemory>
    requires from { HaveRopes ropes.old from }
    requires into { HaveRopes ropes.old into.old }
    requires net { net_sum (profile from) + net_sum (profile into.old) ≤ most_total }
    ensures segments { OnOk result (runs_of ropes.new into.new ≡ move_runs before (runs_of ropes.old from) (runs_of ropes.old into.old)) }
    ensures net { OnOk result (net_sum (profile into.new) ≡ net_sum (profile from) + net_sum (profile into.old)) }
    ensures ropes { HaveRopes ropes.new into.new }
    ensures kept { Extends ropes.old ropes.new }
    ensures steps { OnOk result (steps.new ≡ steps.old + length from) }
    ensures most_steps { steps.new ≤ steps.old + length from }
    ensures ticks_stay { steps.old ≤ steps.new }
{
    count_moves(from.len(), steps);
    into.merge(from, ropes, before)
}

// A step for each segment that is moved.
fn count_moves<L: Ledger>(segments: u64, steps: &mut Steps<L>)
    ensures { steps.new ≡ steps.old + segments }
{
    for _ in 0..segments {
        steps.tick();
    }
}
