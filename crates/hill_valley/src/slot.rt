//! No segment or one, in place: most sides never have more.

ghost use Rattle.std.specs.Prelude.{◌≡◌, ◌+◌, ◌≤◌, [], ◌∷◌, ◌++◌, length, IfOk, OnOk, MatchOption};
ghost use Rattle.limits.specs.Limits.{most_total};
ghost use Rattle.side_laws.specs.Segments.{net_sum, lowest, top, last_up};
ghost use Rattle.hill_valley.specs.Ropes.{list_of, IsRope, Extends};
ghost use Rattle.hill_valley.specs.Side.{profile, IsSide, HaveRopes, run_of, runs_of, tasks_of, insert_run};
ghost use Rattle.hill_valley.specs.Numbers.{segments_listed, first_down_to};
ghost use Rattle.hill_valley.specs.Staircase.{AreSteps};
ghost use Rattle.hill_valley.specs.Descents.{first_up};
ghost use Rattle.hill_valley.specs.Rows.{segs_in};

use crate::NoMemory;
use crate::numbers::Numbers;
use crate::ropes::{Rope, Ropes};
use crate::row::{Row, joined};
use crate::side::{Seg, Segments};
use crate::steps::Step;
use std::alloc::Global;
use std::marker::Model;

// What the calls say is as for a side.
#[derive(Drop)]
pub(crate) struct Slot {
    segment: Option<Seg>,
}

impl Model for Slot {
    ghost use Rattle.std.specs.Prelude.{List};
    ghost use Rattle.std.specs.Option.{option_to_list};
    ghost use Rattle.hill_valley.specs.declared.side.Seg.{Seg};
    ghost use Rattle.hill_valley.specs.Side.{profile, IsSide};

    ghost Value = { List Seg };

    ghost view = { λ s. option_to_list s.segment };

    ghost invariant = { λ s. IsSide (profile (option_to_list s.segment)) };
}

impl Slot {
    #[inline]
    pub fn new() -> Slot
        ensures empty { result ≡ [] }
    {
        Slot { segment: None }
    }

    #[inline]
    pub fn keeps(&self)
        ensures { IsSide (profile self.now) }
    {
        let _ = &self.segment;
    }

    #[inline]
    pub fn len(&self) -> u64
        ensures len { result ≡ length self.now }
    {
        if self.segment.is_some() { 1 } else { 0 }
    }

    #[inline]
    pub fn first_up(&self) -> Option<u64>
        ensures value { result ≡ first_up self.now }
    {
        match self.segment {
            Some(seg) => Some(seg.up),
            None => None,
        }
    }

    #[inline]
    pub fn last_up(&self) -> u64
        ensures value { result ≡ last_up (profile self.now) }
    {
        match self.segment {
            Some(seg) => seg.up,
            None => 0,
        }
    }

    #[inline]
    pub fn take_first(&mut self) -> Option<Seg>
        ensures first { MatchOption result ((self.old ≡ []) × (self.new ≡ [])) (λ s. self.old ≡ s ∷ self.new) }
    {
        self.segment.take()
    }

    // What the slot becomes with one more segment: a slot still, or a row of two.
    pub fn with(&self, ropes: &mut Ropes, seg: Seg, before: bool) -> Result<Segments, NoMemory>
        requires rope { IsRope ropes.old seg.tasks }
        requires ropes { HaveRopes ropes.old self.now }
        requires up { seg.up ≤ most_total }
        requires net { net_sum (profile self.now) + seg.net ≤ most_total }
        ensures segments { IfOk result (λ segments.
            runs_of ropes.new (segs_in segments) ≡ insert_run before (run_of ropes.old seg) (runs_of ropes.old self.now)) }
        ensures ropes { IfOk result (λ segments. HaveRopes ropes.new (segs_in segments)) }
        ensures kept { Extends ropes.old ropes.new }
    {
        match self.segment {
            None => Ok(Segments::Slot(Slot { segment: Some(seg) })),
            Some(own) if own.up == seg.up => {
                let whole = joined(ropes, own, seg, before)?;
                Ok(Segments::Slot(Slot {
                    segment: Some(whole),
                }))
            }
            Some(own) if own.up < seg.up => Ok(Segments::Row(pair(ropes.alloc(), own, seg)?)),
            Some(own) => Ok(Segments::Row(pair(ropes.alloc(), seg, own)?)),
        }
    }

    #[inline]
    pub fn tasks(&self, ropes: &Ropes) -> Rope
        requires ropes { HaveRopes ropes.now self.now }
        ensures list { list_of ropes.now result ≡ tasks_of (runs_of ropes.now self.now) }
        ensures rope { IsRope ropes.now result }
    {
        match self.segment {
            Some(seg) => seg.tasks,
            None => ropes.empty(),
        }
    }

    // The limit is above the bound that the level is to stay within.
    pub fn lowest(&self, level: u64, limit: u64) -> u64
        requires room { net_sum (profile self.now) ≤ level }
        requires level { level ≤ most_total }
        ensures lowest { result ≡ lowest limit level (profile self.now) }
    {
        match self.segment {
            Some(seg) if level + seg.up < limit => level - seg.net,
            _ => level,
        }
    }

    #[inline]
    pub fn top(&self, level: u64) -> u64
        requires room { net_sum (profile self.now) ≤ level }
        requires level { level ≤ most_total }
        ensures top { result ≡ top level (profile self.now) }
    {
        match self.segment {
            Some(seg) => level + seg.up,
            None => level,
        }
    }

    #[inline]
    pub fn push_numbers(
        &self,
        level: u64,
        stop: u64,
        numbers: &mut Vec<Numbers>,
    ) -> Result<(), NoMemory>
        requires room { net_sum (profile self.now) ≤ level }
        ensures numbers { OnOk result (
            segments_listed numbers.new.items ≡ segments_listed numbers.old.items ++ first_down_to stop level (profile self.now)) }
    {
        if let Some(Seg { up, net, .. }) = self.segment
            && stop <= level
        {
            numbers.push(Numbers { up, net })?;
        }
        Ok(())
    }

    pub fn steps(&self, alloc: Global, level: u64) -> Result<Vec<Step>, NoMemory>
        requires room { net_sum (profile self.now) ≤ level }
        requires level { level ≤ most_total }
        ensures steps { IfOk result (λ steps. AreSteps level (profile self.now) steps.items) }
    {
        let mut steps = Vec::new(alloc);
        if let Some(Seg { up, net, .. }) = self.segment
            && 0 < net
        {
            steps.push(Step {
                bound: level + up,
                level: level - net,
            })?;
        }
        Ok(steps)
    }
}

// Two segments in a row, with room for as many more.
fn pair(alloc: Global, first: Seg, second: Seg) -> Result<Row, NoMemory>
    requires side { IsSide (profile (first ∷ second ∷ [])) }
    ensures segments { IfOk result (λ row. row ≡ first ∷ second ∷ []) }
{
    let mut row = Row::with_room(alloc, 4)?;
    row.push(first)?;
    row.push(second)?;
    Ok(row)
}
