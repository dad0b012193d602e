//! A side with its ropes, for the tests alone: what each call requires is checked here.

ghost use Rattle.std.specs.Prelude.{◌≡◌, ◌+◌, ◌≤◌, List, IfOk};
ghost use Rattle.std.specs.Bool.{OnTrue};
ghost use Rattle.limits.specs.Limits.{most_total};
ghost use Rattle.side_laws.specs.Segments.{net_sum};
ghost use Rattle.hill_valley.specs.declared.side.Seg.{Seg};
ghost use Rattle.hill_valley.specs.Ropes.{Extends};
ghost use Rattle.hill_valley.specs.Side.{profile, HaveRopes};

use crate::tests::plain::PlainSeg;
use hill_valley::{NoMemory, Ropes, Seg, Side, laws};
use limits::MOST_TOTAL;
use std::alloc::Global;
use std::marker::Model;

/// A segment of one task: its `up`, its `net`, and the task.
pub type One = (u64, u64, u32);

#[derive(Drop)]
pub struct RopedSide {
    ropes: Ropes,
    side: Side,
    net: u64,
}

impl Model for RopedSide {
    ghost Value = { List Seg };

    ghost view = { λ b. b.side };

    ghost invariant = { λ b. HaveRopes b.ropes b.side × (net_sum (profile b.side) ≡ b.net) × (b.net ≤ most_total) };
}

// Each level is as much above the sum of the `net` values as `more` says.
impl RopedSide {
    pub fn new(alloc: Global) -> RopedSide {
        RopedSide {
            ropes: Ropes::new(alloc),
            side: Side::new(alloc),
            net: 0,
        }
    }

    pub fn len(&self) -> u64 {
        self.side.len()
    }

    pub fn append(&mut self, up: u64, down: u64, task: u32) -> Result<(), NoMemory> {
        if fits(self.net, up, down) {
            let tasks = self.ropes.one(task);
            self.side.append(&mut self.ropes, up, down, tasks)?;
            self.net += down;
        }
        Ok(())
    }

    pub fn insert(&mut self, up: u64, net: u64, task: u32, before: bool) -> Result<(), NoMemory> {
        if fits(self.net, up, net) {
            let tasks = self.ropes.one(task);
            self.side
                .insert(&mut self.ropes, Seg { up, net, tasks }, before)?;
            self.net += net;
        }
        Ok(())
    }

    // Merges in a side of these segments, in rising order of `up`. One that is too large is left out, which the comparison shows.
    pub fn merge(self, alloc: Global, ones: &[One], before: bool) -> Result<RopedSide, NoMemory> {
        laws::runs();
        let RopedSide {
            mut ropes,
            mut side,
            net,
        } = self;
        let (other, net) = side_of(alloc, &mut ropes, net, ones)?;
        side.merge(other, &mut ropes, before)?;
        Ok(RopedSide { ropes, side, net })
    }

    pub fn take_first(&mut self, alloc: Global) -> Result<Option<PlainSeg>, NoMemory> {
        let Some(Seg { up, net, tasks }) = self.side.take_first() else {
            return Ok(None);
        };
        self.net -= net;
        let tasks = self.ropes.list(alloc, tasks)?;
        Ok(Some(PlainSeg { up, net, tasks }))
    }

    // A level from which the side can be run.
    pub fn level(&self, more: u64) -> u64
        ensures room { net_sum (profile self.now) ≤ result }
        ensures within { result ≤ most_total }
    {
        self.net.saturating_add(more).min(MOST_TOTAL)
    }

    pub fn lowest(&self, more: u64, bound: i64) -> u64 {
        self.side.lowest(self.level(more), bound)
    }

    pub fn top(&self, more: u64) -> u64 {
        self.side.top(self.level(more))
    }

    // The tasks of all segments.
    pub fn tasks(&mut self, alloc: Global) -> Result<Vec<u32>, NoMemory> {
        let tasks = self.side.tasks(&mut self.ropes)?;
        self.ropes.list(alloc, tasks)
    }

    // The `up` and the `net` of the first segments, as long as they start at `stop` or above.
    pub fn numbers(
        &self,
        alloc: Global,
        more: u64,
        stop: u64,
    ) -> Result<Vec<(u64, u64)>, NoMemory> {
        let mut numbers = Vec::new(alloc);
        self.side
            .push_numbers(self.level(more), stop, &mut numbers)?;
        numbers.iter().map(|n| (n.up, n.net)).collect(alloc)
    }

    // The bound and the level of each step.
    pub fn steps(&self, alloc: Global, more: u64) -> Result<Vec<(u64, u64)>, NoMemory> {
        let steps = self.side.steps(alloc, self.level(more))?;
        steps
            .iter()
            .map(|step| (step.bound, step.level))
            .collect(alloc)
    }
}

// A side of this sum can take in such a segment. One that is too large is left out, which the comparison shows.
fn fits(sum: u64, up: u64, net: u64) -> bool
    ensures { OnTrue result ((up ≤ most_total) × (sum + net ≤ most_total)) }
{
    up <= MOST_TOTAL && sum <= MOST_TOTAL && net <= MOST_TOTAL - sum
}

// The side of these segments, and the sum of `net` and of theirs. One that is too large is left out.
fn side_of(
    alloc: Global,
    ropes: &mut Ropes,
    net: u64,
    ones: &[One],
) -> Result<(Side, u64), NoMemory>
    requires { net ≤ most_total }
    ensures ropes { IfOk result (λ r. HaveRopes ropes.new r.0) }
    ensures net { IfOk result (λ r. net_sum (profile r.0) + net ≡ r.1) }
    ensures within { IfOk result (λ r. r.1 ≤ most_total) }
    ensures kept { Extends ropes.old ropes.new }
{
    laws::runs();
    let mut side = Side::new(alloc);
    let mut sum = net;
    for &(up, down, task) in ones {
        if fits(sum, up, down) {
            let tasks = ropes.one(task);
            side.append(ropes, up, down, tasks)?;
            sum += down;
        }
    }
    Ok((side, sum))
}
