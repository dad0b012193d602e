//! Segments in an ordered map, for many of them that come and go anywhere.

ghost use Rattle.std.specs.Prelude.{◌≡◌, ◌+◌, ◌<◌, ◌≤◌, ◌^◌, [], ◌∷◌, ◌++◌, length, IfOk, IfSome, OnOk, OnErr, MatchOption};
ghost use Rattle.std.specs.Option.{option_map};
ghost use Rattle.limits.specs.Limits.{most_total};
ghost use Rattle.side_laws.specs.Segments.{net_sum, lowest, top, last_up};
ghost use Rattle.hill_valley.specs.Ropes.{list_of, IsRope, Extends};
ghost use Rattle.hill_valley.specs.Side.{profile, IsSide, HaveRopes, run_of, runs_of, tasks_of, insert_run};
ghost use Rattle.hill_valley.specs.Numbers.{segments_listed, first_down_to};
ghost use Rattle.hill_valley.specs.Staircase.{AreSteps};
ghost use Rattle.hill_valley.specs.Descents.{list_seen, list_joined, first_up};

use crate::NoMemory;
use crate::numbers::Numbers;
use crate::ropes::{Rope, Ropes};
use crate::side::Seg;
use crate::steps::{Step, add_step};
use side_laws::laws;
use std::alloc::Global;
use std::collections::BTreeMap;
use std::marker::Model;

// What the map has at an `up`.
#[derive(Clone, Copy)]
struct Descent {
    net: u64,
    tasks: Rope,
}

// Segments in rising order of `up`. What the calls say is as for a side.
#[derive(Drop)]
pub(crate) struct Tree {
    segments: BTreeMap<u64, Descent>,
}

impl Model for Tree {
    ghost use Rattle.std.specs.Prelude.{List};
    ghost use Rattle.hill_valley.specs.declared.side.Seg.{Seg};
    ghost use Rattle.hill_valley.specs.Side.{profile, IsSide};
    ghost use Rattle.hill_valley.specs.Descents.{segs_of};

    ghost Value = { List Seg };

    ghost view = { λ s. segs_of s.segments.entries };

    ghost invariant = { λ s. IsSide (profile (segs_of s.segments.entries)) };
}

impl Tree {
    pub fn new(alloc: Global) -> Tree
        ensures empty { result ≡ [] }
    {
        Tree {
            segments: BTreeMap::new(alloc),
        }
    }

    pub fn keeps(&self)
        ensures { IsSide (profile self.now) }
    {
        let _ = &self.segments;
    }

    pub fn len(&self) -> u64
        ensures len { result ≡ length self.now }
    {
        self.segments.len() as u64
    }

    pub fn first_up(&self) -> Option<u64>
        ensures value { result ≡ first_up self.now }
    {
        match self.segments.first_key_value() {
            Some((up, _)) => Some(*up),
            None => None,
        }
    }

    pub fn last_up(&self) -> u64
        ensures value { result ≡ last_up (profile self.now) }
    {
        match self.segments.last_key_value() {
            Some((up, _)) => *up,
            None => 0,
        }
    }

    pub fn take_first(&mut self) -> Option<Seg>
        ensures first { MatchOption result ((self.old ≡ []) × (self.new ≡ [])) (λ s. self.old ≡ s ∷ self.new) }
    {
        let (up, Descent { net, tasks }) = self.segments.pop_first()?;
        Some(Seg { up, net, tasks })
    }

    // A segment behind all others.
    pub fn push(&mut self, seg: Seg) -> Result<(), NoMemory>
        requires side { IsSide (profile (self.old ++ seg ∷ [])) }
        ensures segments { OnOk result (self.new ≡ self.old ++ seg ∷ []) }
    {
        let Seg { up, net, tasks } = seg;
        self.segments.insert(up, Descent { net, tasks })?;
        Ok(())
    }

    pub fn insert(&mut self, ropes: &mut Ropes, seg: Seg, before: bool) -> Result<(), NoMemory>
        requires rope { IsRope ropes.old seg.tasks }
        requires ropes { HaveRopes ropes.old self.old }
        requires up { seg.up ≤ most_total }
        requires net { net_sum (profile self.old) + seg.net ≤ most_total }
        ensures segments { OnOk result (
            runs_of ropes.new self.new ≡ insert_run before (run_of ropes.old seg) (runs_of ropes.old self.old)) }
        ensures ropes { HaveRopes ropes.new self.new }
        ensures err { OnErr result (self.new ≡ self.old) }
        ensures kept { Extends ropes.old ropes.new }
    {
        laws::inserting();
        let own = self.segments.get(&seg.up).copied();
        let descent = joined(ropes, own, seg, before)?;
        self.segments.insert(seg.up, descent)?;
        Ok(())
    }

    pub fn tasks(&self, ropes: &mut Ropes) -> Result<Rope, NoMemory>
        requires ropes { HaveRopes ropes.old self.now }
        ensures list { IfOk result (λ rope. list_of ropes.new rope ≡ tasks_of (runs_of ropes.old self.now)) }
        ensures rope { IfOk result (λ rope. IsRope ropes.new rope) }
        ensures kept { Extends ropes.old ropes.new }
    {
        let mut tasks = ropes.empty();
        for (_up, descent) in self.segments.iter() {
            tasks = ropes.join(tasks, descent.tasks)?;
        }
        Ok(tasks)
    }

    // The limit is above the bound that the level is to stay within.
    pub fn lowest(&self, level: u64, limit: u64) -> u64
        requires room { net_sum (profile self.now) ≤ level }
        requires level { level ≤ most_total }
        ensures lowest { result ≡ lowest limit level (profile self.now) }
    {
        let mut at = level;
        for (up, descent) in self.segments.iter() {
            if limit <= at + *up {
                break;
            }
            at -= descent.net;
        }
        at
    }

    pub fn top(&self, level: u64) -> u64
        requires room { net_sum (profile self.now) ≤ level }
        requires level { level ≤ most_total }
        ensures top { result ≡ top level (profile self.now) }
    {
        let mut at = level;
        let mut highest = level;
        for (up, descent) in self.segments.iter() {
            highest = highest.max(at + *up);
            at -= descent.net;
        }
        highest
    }

    pub fn push_numbers(
        &self,
        level: u64,
        stop: u64,
        numbers: &mut Vec<Numbers>,
    ) -> Result<(), NoMemory>
        requires room { net_sum (profile self.now) ≤ level }
        ensures numbers { OnOk result (
            segments_listed numbers.new.items ≡ segments_listed numbers.old.items ++ first_down_to stop level (profile self.now)) }
    {
        let mut at = level;
        for (up, descent) in self.segments.iter() {
            if at < stop {
                break;
            }
            numbers.push(Numbers {
                up: *up,
                net: descent.net,
            })?;
            at -= descent.net;
        }
        Ok(())
    }

    pub fn steps(&self, alloc: Global, level: u64) -> Result<Vec<Step>, NoMemory>
        requires room { net_sum (profile self.now) ≤ level }
        requires level { level ≤ most_total }
        ensures steps { IfOk result (λ steps. AreSteps level (profile self.now) steps.items) }
    {
        let mut steps = Vec::new(alloc);
        let mut at = level;
        let mut most = level;
        for (up, descent) in self.segments.iter() {
            most = most.max(at + *up);
            at -= descent.net;
            if 0 < descent.net {
                add_step(&mut steps, most, at)?;
            }
        }
        Ok(steps)
    }
}

// What the map is to have at the `up` of a segment, where it has `own` there so far.
fn joined(
    ropes: &mut Ropes,
    own: Option<Descent>,
    seg: Seg,
    before: bool,
) -> Result<Descent, NoMemory>
    requires rope { IsRope ropes.old seg.tasks }
    requires own { IfSome own (λ d. IsRope ropes.old d.tasks × (d.net + seg.net < 2 ^ 64)) }
    ensures value { IfOk result (λ d.
        list_seen ropes.new d ≡ list_joined before (seg.net, list_of ropes.old seg.tasks) (option_map (list_seen ropes.old) own)) }
    ensures rope { IfOk result (λ d. IsRope ropes.new d.tasks) }
    ensures kept { Extends ropes.old ropes.new }
{
    match own {
        Some(descent) => {
            let (first, second) = if before {
                (seg.tasks, descent.tasks)
            } else {
                (descent.tasks, seg.tasks)
            };
            let tasks = ropes.join(first, second)?;
            Ok(Descent {
                net: descent.net + seg.net,
                tasks,
            })
        }
        None => Ok(Descent {
            net: seg.net,
            tasks: seg.tasks,
        }),
    }
}
