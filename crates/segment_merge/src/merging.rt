//! The longest side takes in the sides before it, the nearest first, and then those after it.

ghost use Rattle.std.specs.Prelude.{◌≡◌, ℕ, ◌+◌, ◌-◌, ◌≤◌, ◌<◌, [], ◌∷◌, ◌++◌, length, reverse, get_or, IfOk, OnOk, OnErr};
ghost use Rattle.limits.specs.Limits.{most_total};
ghost use Rattle.side_laws.specs.Segments.{net_sum, lowest, top};
ghost use Rattle.side_laws.specs.Merging.{AreStuckAt, IsLeastTogether, IsInterleaving, merge_segments};
ghost use Rattle.hill_valley.specs.Ropes.{Extends};
ghost use Rattle.hill_valley.specs.Side.{profile, IsSide, HaveRopes, runs_of, tasks_of};
ghost use Rattle.segment_merge.specs.Merging.{insert_runs, merge_runs, all_tasks_of, all_runs_of, profiles, AllHaveRopes, AllSides};
ghost use Rattle.segment_merge.specs.Merging.{net_sum_all, segment_count, longest};

use crate::NoMemory;
use crate::moving::move_all;
use hill_valley::{Ropes, Side, laws as run_laws};
use side_laws::laws;
use std::alloc::Global;
use std::mem;
use std::sync::ledger::Ledger;
use step_count::Steps;

/// The segments of all sides in rising order of `up`, a tie to the earlier side. Those of one `up` are joined to one, with
/// the sum of their `net` values and their lists in the order of the sides. The ropes of the sides are of these ropes, and
/// all `net` values sum to at most 2^60. Each segment that is moved from one side into another is a step: those of all sides
/// but the longest. Where memory is wanting the ropes may hold more, and what was counted stays.
pub fn merge<L: Ledger>(
    alloc: Global,
    sides: Vec<Side>,
    ropes: &mut Ropes,
    steps: &mut Steps<L>,
) -> Result<Side, NoMemory>
    requires ropes { AllHaveRopes ropes.old sides.items }
    requires net { net_sum_all sides.items ≤ most_total }
    ensures segments { IfOk result (λ side. runs_of ropes.new side ≡ merge_runs (all_runs_of ropes.old sides.items)) }
    // the merged list has the tasks of all sides, those of each in their order
    ensures interleaved { IfOk result (λ side.
        IsInterleaving (all_tasks_of (all_runs_of ropes.old sides.items)) (tasks_of (runs_of ropes.new side))) }
    ensures net { IfOk result (λ side. net_sum (profile side) ≡ net_sum_all sides.items) }
    ensures profile { IfOk result (λ side. profile side ≡ merge_segments (profiles sides.items)) }
    // under every limit, the lowest level is where all sides together are stuck, whichever of them goes on
    ensures lowest { IfOk result (λ side. (limit level : ℕ) → net_sum_all sides.items ≤ level
        → AreStuckAt limit level (profiles sides.items) (lowest limit level (profile side))) }
    // the top is the least memory within which all sides together pass
    ensures top { IfOk result (λ side. (level : ℕ) → net_sum_all sides.items ≤ level
        → IsLeastTogether level (profiles sides.items) (top level (profile side))) }
    ensures ropes { IfOk result (λ side. HaveRopes ropes.new side) }
    ensures kept { Extends ropes.old ropes.new }
    // one step for each segment of all sides but the longest
    ensures steps { OnOk result (steps.new + longest sides.items ≡ steps.old + segment_count sides.items) }
    ensures most_steps { steps.new + longest sides.items ≤ steps.old + segment_count sides.items }
    ensures ticks_stay { steps.old ≤ steps.new }
{
    run_laws::runs();
    laws::merging();
    let mut sides = sides;
    let place = longest_place(&sides);
    let (before, rest) = sides.split_at_mut(place);
    let Some((longest, after)) = rest.split_first_mut() else {
        return Ok(Side::new(alloc));
    };
    let mut merged = mem::replace(longest, Side::new(alloc));
    take_before(alloc, before, &mut merged, ropes, steps)?;
    take_after(alloc, after, &mut merged, ropes, steps)?;
    Ok(merged)
}

// How many sides stand before the first longest one, and 0 where there are none.
fn longest_place(sides: &[Side]) -> usize
    ensures within { result ≤ length sides.now - 1 }
    ensures longest { longest sides.now ≡ length (get_or sides.now result []) }
    ensures sides { AllSides sides.now }
{
    let mut place = 0;
    let mut most = 0;
    for (i, side) in sides.iter().enumerate() {
        side.keeps();
        let len = side.len();
        if most < len {
            place = i;
            most = len;
        }
    }
    place
}

// Moves earlier sides into one, the nearest first.
fn take_before<L: Ledger>(
    alloc: Global,
    sides: &mut [Side],
    into: &mut Side,
    ropes: &mut Ropes,
    steps: &mut Steps<L>,
) -> Result<(), NoMemory>
    requires sides { AllHaveRopes ropes.old sides.old }
    requires into { HaveRopes ropes.old into.old }
    requires net { net_sum_all sides.old + net_sum (profile into.old) ≤ most_total }
    ensures segments { OnOk result (
        runs_of ropes.new into.new ≡ insert_runs (merge_runs (all_runs_of ropes.old sides.old)) (runs_of ropes.old into.old)) }
    ensures net { OnOk result (net_sum (profile into.new) ≡ net_sum_all sides.old + net_sum (profile into.old)) }
    ensures ropes { HaveRopes ropes.new into.new }
    ensures kept { Extends ropes.old ropes.new }
    ensures steps { OnOk result (steps.new ≡ steps.old + segment_count sides.old) }
    ensures most_steps { steps.new ≤ steps.old + segment_count sides.old }
    ensures ticks_stay { steps.old ≤ steps.new }
{
    run_laws::runs();
    for place in sides.iter_mut().rev() {
        let side = mem::replace(place, Side::new(alloc));
        side.keeps();
        move_all(side, into, true, ropes, steps)?;
    }
    Ok(())
}

// Moves later sides into one, the nearest first.
fn take_after<L: Ledger>(
    alloc: Global,
    sides: &mut [Side],
    into: &mut Side,
    ropes: &mut Ropes,
    steps: &mut Steps<L>,
) -> Result<(), NoMemory>
    requires sides { AllHaveRopes ropes.old sides.old }
    requires into { HaveRopes ropes.old into.old }
    requires net { net_sum_all sides.old + net_sum (profile into.old) ≤ most_total }
    ensures segments { OnOk result (
        runs_of ropes.new into.new ≡ insert_runs (runs_of ropes.old into.old) (merge_runs (all_runs_of ropes.old sides.old))) }
    ensures ropes { HaveRopes ropes.new into.new }
    ensures kept { Extends ropes.old ropes.new }
    ensures steps { OnOk result (steps.new ≡ steps.old + segment_count sides.old) }
    ensures most_steps { steps.new ≤ steps.old + segment_count sides.old }
    ensures ticks_stay { steps.old ≤ steps.new }
{
    run_laws::runs();
    for place in sides.iter_mut() {
        let side = mem::replace(place, Side::new(alloc));
        side.keeps();
        into.keeps();
        move_all(side, into, false, ropes, steps)?;
    }
    into.keeps();
    Ok(())
}
