//! A side that goes on over a hill to another side.

ghost use Rattle.std.specs.Prelude.{◌≡◌, ◌+◌, ◌≤◌, min, length, List, IfOk, OnOk};
ghost use Rattle.limits.specs.Limits.{most_total};
ghost use Rattle.side_laws.specs.Segments.{net_sum, top};
ghost use Rattle.hill_valley.specs.Ropes.{list_of, IsRope, Extends};
ghost use Rattle.hill_valley.specs.Side.{profile, HaveRopes, Run, runs_of, append_run};
ghost use Rattle.segment_merge.specs.Crossing.{append_runs, hill_run, cross_hill_runs};
ghost use Rattle.cut_laws.specs.Cuts.{over_task};
ghost use Rattle.sp_cuts.specs.Parts.{CountsFewer};

use crate::NoMemory;
use crate::behind::{append_side, put_before};
use hill_valley::{Rope, Ropes, Seg, Side};
use segment_merge::laws;
use std::mem;
use std::sync::ledger::Ledger;
use step_count::Steps;

// A way over a hill that has come down to a level.
#[derive(Clone, Copy)]
pub(crate) struct Over {
    // the greatest memory on it
    pub hill: u64,
    pub level: u64,
    pub tasks: Rope,
}

// The way up a side, and then the task.
pub(crate) fn way_over(side: &Side, task: u32, ropes: &mut Ropes) -> Result<Rope, NoMemory>
    requires { HaveRopes ropes.old side.now }
    ensures list { IfOk result (λ rope. list_of ropes.new rope ≡ over_task (runs_of ropes.old side.now) task) }
    ensures rope { IfOk result (λ rope. IsRope ropes.new rope) }
    ensures kept { Extends ropes.old ropes.new }
{
    laws::all();
    let down = side.tasks(ropes)?;
    let up = ropes.flip(down);
    let last = ropes.one(task);
    ropes.join(up, last)
}

// Goes on from the end of `near` at the level `end` over the way, and down `far`.
pub(crate) fn lead_over<L: Ledger>(
    near: &mut Side,
    mut far: Side,
    end: u64,
    over: Over,
    ropes: &mut Ropes,
    steps: &mut Steps<L>,
) -> Result<(), NoMemory>
    requires near { HaveRopes ropes.old near.old }
    requires far { HaveRopes ropes.old far }
    requires rope { IsRope ropes.old over.tasks }
    requires net { net_sum (profile near.old) + end ≤ most_total }
    requires room { net_sum (profile far) ≤ over.level }
    requires falls { over.level ≤ end + net_sum (profile far) }
    requires rises { end ≤ over.hill }
    requires top { top over.level (profile far) ≤ most_total }
    requires hill { over.hill ≤ most_total }
    ensures segments { OnOk result (runs_of ropes.new near.new
        ≡ cross_hill_runs end over.hill over.level (list_of ropes.old over.tasks) (runs_of ropes.old far) (runs_of ropes.old near.old)) }
    ensures ropes { OnOk result (HaveRopes ropes.new near.new) }
    ensures kept { Extends ropes.old ropes.new }
    ensures steps { steps.new ≤ steps.old + min (length far) (length near.old + 1) }
    ensures counted { OnOk result (CountsFewer (length near.old) (length near.old + 1) (length near.new) steps.old steps.new) }
{
    laws::all();
    let over = go_above(&mut far, ropes, end, over)?;
    near.append(ropes, over.hill - end, end - over.level, over.tasks)?;
    append_side(far, near, ropes, steps)?;
    Ok(())
}

// The same, told of `far`: a way without a side before it is put in front of it, where it stands.
pub(crate) fn lead_back<L: Ledger>(
    near: Side,
    far: &mut Side,
    end: u64,
    over: Over,
    ropes: &mut Ropes,
    steps: &mut Steps<L>,
) -> Result<(), NoMemory>
    requires near { HaveRopes ropes.old near }
    requires far { HaveRopes ropes.old far.old }
    requires rope { IsRope ropes.old over.tasks }
    requires net { net_sum (profile near) + end ≤ most_total }
    requires room { net_sum (profile far.old) ≤ over.level }
    requires falls { over.level ≤ end + net_sum (profile far.old) }
    requires rises { end ≤ over.hill }
    requires top { top over.level (profile far.old) ≤ most_total }
    requires hill { over.hill ≤ most_total }
    ensures segments { OnOk result (runs_of ropes.new far.new
        ≡ cross_hill_runs end over.hill over.level (list_of ropes.old over.tasks) (runs_of ropes.old far.old) (runs_of ropes.old near)) }
    ensures ropes { OnOk result (HaveRopes ropes.new far.new) }
    ensures kept { Extends ropes.old ropes.new }
    ensures steps { steps.new ≤ steps.old + min (length far.old) (length near + 1) }
    ensures counted { OnOk result (CountsFewer (length near) (length near + 1) (length far.new) steps.old steps.new) }
{
    laws::all();
    if 0 < near.len() {
        let last = mem::replace(far, near);
        lead_over(far, last, end, over, ropes, steps)?;
        return Ok(());
    }
    let over = go_above(far, ropes, end, over)?;
    let way = Seg {
        up: over.hill - end,
        net: end - over.level,
        tasks: over.tasks,
    };
    put_before(way, far, ropes, steps)?;
    Ok(())
}

// Goes on along a side as long as it is higher than `end`.
fn go_above(far: &mut Side, ropes: &mut Ropes, end: u64, over: Over) -> Result<Over, NoMemory>
    requires far { HaveRopes ropes.old far.old }
    requires rope { IsRope ropes.old over.tasks }
    requires room { net_sum (profile far.old) ≤ over.level }
    requires falls { over.level ≤ end + net_sum (profile far.old) }
    requires rises { end ≤ over.hill }
    requires top { top over.level (profile far.old) ≤ most_total }
    requires hill { over.hill ≤ most_total }
    ensures crossing { IfOk result (λ way. (near : List Run) →
        cross_hill_runs end over.hill over.level (list_of ropes.old over.tasks) (runs_of ropes.old far.old) near
        ≡ append_runs (runs_of ropes.new far.new) (append_run (hill_run end way.hill way.level (list_of ropes.new way.tasks)) near)) }
    ensures low { IfOk result (λ way. way.level ≤ end) }
    ensures room { IfOk result (λ way. net_sum (profile far.new) ≤ way.level) }
    ensures rises { IfOk result (λ way. end ≤ way.hill) }
    ensures hill { IfOk result (λ way. way.hill ≤ most_total) }
    ensures rope { IfOk result (λ way. IsRope ropes.new way.tasks) }
    ensures far { IfOk result (λ way. HaveRopes ropes.new far.new) }
    ensures fewer { IfOk result (λ way. length far.new ≤ length far.old) }
    ensures kept { Extends ropes.old ropes.new }
{
    laws::all();
    let mut hill = over.hill;
    let mut level = over.level;
    let mut tasks = over.tasks;
    while end < level {
        match far.take_first() {
            Some(seg) => {
                hill = hill.max(level + seg.up);
                level -= seg.net;
                tasks = ropes.join(tasks, seg.tasks)?;
            }
            None => break,
        }
    }
    Ok(Over { hill, level, tasks })
}
