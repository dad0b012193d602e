//! A side put behind another.

ghost use Rattle.std.specs.Prelude.{◌≡◌, ◌+◌, ◌≤◌, max, min, [], ◌∷◌, length, OnOk};
ghost use Rattle.limits.specs.Limits.{most_total};
ghost use Rattle.side_laws.specs.Segments.{net_sum, StartsAbove, last_up};
ghost use Rattle.hill_valley.specs.Ropes.{IsRope, Extends};
ghost use Rattle.hill_valley.specs.Side.{profile, HaveRopes, run_of, runs_of};
ghost use Rattle.segment_merge.specs.Crossing.{append_runs};
ghost use Rattle.sp_cuts.specs.Parts.{CountsFewer};

use crate::NoMemory;
use hill_valley::{Ropes, Seg, Side};
use segment_merge::{laws, move_all};
use std::mem;
use std::sync::ledger::Ledger;
use step_count::Steps;

// Puts the segments of `far` behind those of `near`. Those that are not higher than the last of `near` are joined to it, and are gone
// for good. The rest is higher throughout, so that either side can be moved into the other.
pub(crate) fn append_side<L: Ledger>(
    mut far: Side,
    near: &mut Side,
    ropes: &mut Ropes,
    steps: &mut Steps<L>,
) -> Result<(), NoMemory>
    requires far { HaveRopes ropes.old far }
    requires near { HaveRopes ropes.old near.old }
    requires net { net_sum (profile far) + net_sum (profile near.old) ≤ most_total }
    ensures segments { OnOk result (runs_of ropes.new near.new ≡ append_runs (runs_of ropes.old far) (runs_of ropes.old near.old)) }
    ensures ropes { OnOk result (HaveRopes ropes.new near.new) }
    ensures kept { Extends ropes.old ropes.new }
    ensures far_steps { steps.new ≤ steps.old + length far }
    ensures near_steps { steps.new ≤ steps.old + max 1 (length near.old) }
    ensures counted { OnOk result
        (CountsFewer (length near.old) (max 1 (length near.old)) (length near.new) steps.old steps.new) }
{
    laws::all();
    while let Some(seg) = far.take_first_within(near.last_up()) {
        near.append(ropes, seg.up, seg.net, seg.tasks)?;
    }
    join_sides(far, near, ropes, steps)?;
    Ok(())
}

// Puts a segment in front of those of `far`. Those that are not higher are joined to it, and are gone for good.
pub(crate) fn put_before<L: Ledger>(
    first: Seg,
    far: &mut Side,
    ropes: &mut Ropes,
    steps: &mut Steps<L>,
) -> Result<(), NoMemory>
    requires rope { IsRope ropes.old first.tasks }
    requires far { HaveRopes ropes.old far.old }
    requires up { first.up ≤ most_total }
    requires net { net_sum (profile far.old) + first.net ≤ most_total }
    ensures segments { OnOk result (runs_of ropes.new far.new ≡ append_runs (runs_of ropes.old far.old) (run_of ropes.old first ∷ [])) }
    ensures ropes { OnOk result (HaveRopes ropes.new far.new) }
    ensures kept { Extends ropes.old ropes.new }
    ensures steps { steps.new ≤ steps.old + min (length far.old) 1 }
    ensures counted { OnOk result (CountsFewer 0 1 (length far.new) steps.old steps.new) }
{
    laws::all();
    let mut net = first.net;
    let mut tasks = first.tasks;
    while let Some(seg) = far.take_first_within(first.up) {
        net += seg.net;
        tasks = ropes.join(tasks, seg.tasks)?;
    }
    far.keeps();
    count_first(far, steps);
    let up = first.up;
    far.insert(ropes, Seg { up, net, tasks }, true)?;
    Ok(())
}

// One segment in front of others, or they behind it, is one step, whichever is moved, and none where there are no others.
fn count_first<L: Ledger>(others: &Side, steps: &mut Steps<L>)
    ensures { steps.new ≡ steps.old + min (length others.now) 1 }
{
    if 0 < others.len() {
        steps.tick();
    }
}

// Puts `far`, which is higher throughout, behind `near`: the shorter side is moved.
fn join_sides<L: Ledger>(
    far: Side,
    near: &mut Side,
    ropes: &mut Ropes,
    steps: &mut Steps<L>,
) -> Result<(), NoMemory>
    requires far { HaveRopes ropes.old far }
    requires near { HaveRopes ropes.old near.old }
    requires net { net_sum (profile far) + net_sum (profile near.old) ≤ most_total }
    requires higher { StartsAbove (last_up (profile near.old)) (profile far) }
    ensures segments { OnOk result (runs_of ropes.new near.new ≡ append_runs (runs_of ropes.old far) (runs_of ropes.old near.old)) }
    ensures ropes { OnOk result (HaveRopes ropes.new near.new) }
    ensures kept { Extends ropes.old ropes.new }
    ensures far_steps { steps.new ≤ steps.old + length far }
    ensures near_steps { steps.new ≤ steps.old + length near.old }
    ensures counted { OnOk result (steps.new ≡ steps.old + min (length near.old) (length far)) }
    ensures length { OnOk result (length near.new ≡ length near.old + length far) }
{
    laws::all();
    near.keeps();
    far.keeps();
    if near.len() < far.len() {
        let lower = mem::replace(near, far);
        move_all(lower, near, true, ropes, steps)?;
    } else {
        move_all(far, near, false, ropes, steps)?;
    }
    Ok(())
}
