//! Segments in a row, for few of them, or where they come and go at the ends.

ghost use Rattle.std.specs.Prelude.{◌≡◌, ◌+◌, ◌<◌, ◌≤◌, [], ◌∷◌, ◌++◌, length, IfOk, OnOk, OnErr, MatchOption};
ghost use Rattle.limits.specs.Limits.{most_total};
ghost use Rattle.side_laws.specs.Segments.{net_sum, lowest, top, last_up, IsRising};
ghost use Rattle.hill_valley.specs.Ropes.{list_of, IsRope, Extends};
ghost use Rattle.hill_valley.specs.Side.{profile, IsSide, HaveRopes, run_of, runs_of, tasks_of, join_runs, insert_run};
ghost use Rattle.hill_valley.specs.Numbers.{segments_listed, first_down_to};
ghost use Rattle.hill_valley.specs.Staircase.{AreSteps};
ghost use Rattle.hill_valley.specs.Descents.{first_up};
ghost use Rattle.hill_valley.specs.Places.{IsPlace, IsGap, IsThere};

use crate::NoMemory;
use crate::numbers::Numbers;
use crate::ropes::{Rope, Ropes};
use crate::side::Seg;
use crate::steps::{Step, add_step};
use crate::tree::Tree;
use side_laws::laws;
use std::alloc::Global;
use std::collections::VecDeque;
use std::marker::Model;

// The longest row among whose segments one is put in. Each of them moves half of the row at most.
const LONGEST: usize = 512;

// Segments in rising order of `up`. What the calls say is as for a side.
#[derive(Drop)]
pub(crate) struct Row {
    segments: VecDeque<Seg>,
}

impl Model for Row {
    ghost use Rattle.std.specs.Prelude.{List};
    ghost use Rattle.hill_valley.specs.declared.side.Seg.{Seg};
    ghost use Rattle.hill_valley.specs.Side.{profile, IsSide};

    ghost Value = { List Seg };

    ghost view = { λ r. r.segments.items };

    ghost invariant = { λ r. IsSide (profile r.segments.items) };
}

impl Row {
    // With room for this many segments.
    pub fn with_room(alloc: Global, count: u64) -> Result<Row, NoMemory>
        ensures empty { IfOk result (λ row. row ≡ []) }
    {
        let segments = VecDeque::with_capacity(alloc, count as usize)?;
        Ok(Row { segments })
    }

    #[inline]
    pub fn keeps(&self)
        ensures { IsSide (profile self.now) }
    {
        let _ = &self.segments;
    }

    #[inline]
    pub fn len(&self) -> u64
        ensures len { result ≡ length self.now }
    {
        self.segments.len() as u64
    }

    #[inline]
    pub fn first_up(&self) -> Option<u64>
        ensures value { result ≡ first_up self.now }
    {
        match self.segments.front() {
            Some(seg) => Some(seg.up),
            None => None,
        }
    }

    #[inline]
    pub fn last_up(&self) -> u64
        ensures value { result ≡ last_up (profile self.now) }
    {
        match self.segments.back() {
            Some(seg) => seg.up,
            None => 0,
        }
    }

    #[inline]
    pub fn take_first(&mut self) -> Option<Seg>
        ensures first { MatchOption result ((self.old ≡ []) × (self.new ≡ [])) (λ s. self.old ≡ s ∷ self.new) }
    {
        self.segments.pop_front()
    }

    // A segment behind all others.
    pub fn push(&mut self, seg: Seg) -> Result<(), NoMemory>
        requires side { IsSide (profile (self.old ++ seg ∷ [])) }
        ensures segments { OnOk result (self.new ≡ self.old ++ seg ∷ []) }
    {
        self.segments.push_back(seg)?;
        Ok(())
    }

    // A segment before all others.
    fn put_first(&mut self, seg: Seg) -> Result<(), NoMemory>
        requires side { IsSide (profile (seg ∷ self.old)) }
        ensures segments { OnOk result (self.new ≡ seg ∷ self.old) }
        ensures err { OnErr result (self.new ≡ self.old) }
    {
        self.segments.push_front(seg)?;
        Ok(())
    }

    // A segment before all others needs no search, and that is where most are put in.
    pub fn insert(&mut self, ropes: &mut Ropes, seg: Seg, before: bool) -> Result<(), NoMemory>
        requires rope { IsRope ropes.old seg.tasks }
        requires ropes { HaveRopes ropes.old self.old }
        requires up { seg.up ≤ most_total }
        requires net { net_sum (profile self.old) + seg.net ≤ most_total }
        ensures segments { OnOk result (
            runs_of ropes.new self.new ≡ insert_run before (run_of ropes.old seg) (runs_of ropes.old self.old)) }
        ensures ropes { HaveRopes ropes.new self.new }
        ensures err { OnErr result (self.new ≡ self.old) }
        ensures kept { Extends ropes.old ropes.new }
    {
        laws::inserting();
        self.keeps();
        match self.first_up() {
            Some(first) if seg.up < first => {
                self.put_first(seg)?;
                Ok(())
            }
            _ => {
                self.insert_among(ropes, seg, before)?;
                Ok(())
            }
        }
    }

    fn insert_among(&mut self, ropes: &mut Ropes, seg: Seg, before: bool) -> Result<(), NoMemory>
        requires rope { IsRope ropes.old seg.tasks }
        requires ropes { HaveRopes ropes.old self.old }
        requires up { seg.up ≤ most_total }
        requires net { net_sum (profile self.old) + seg.net ≤ most_total }
        ensures segments { OnOk result (
            runs_of ropes.new self.new ≡ insert_run before (run_of ropes.old seg) (runs_of ropes.old self.old)) }
        ensures ropes { HaveRopes ropes.new self.new }
        ensures err { OnErr result (self.new ≡ self.old) }
        ensures kept { Extends ropes.old ropes.new }
    {
        laws::inserting();
        let at = place_of(&self.segments, seg.up);
        match own_at(&self.segments, at, seg.up) {
            Some(own) => {
                let whole = joined(ropes, own, seg, before)?;
                self.segments[at] = whole;
            }
            None => self.segments.insert(at, seg)?,
        }
        Ok(())
    }

    // The segment would go in among those of a long row.
    pub fn is_long_for(&self, up: u64) -> bool {
        LONGEST < self.segments.len()
            && up < self.last_up()
            && self.first_up().is_some_and(|first| first < up)
    }

    // The same segments as a tree.
    pub fn to_tree(&self) -> Result<Tree, NoMemory>
        ensures same { IfOk result (λ tree. tree ≡ self.now) }
    {
        let mut tree = Tree::new(*self.segments.allocator());
        for seg in self.segments.iter() {
            tree.push(*seg)?;
        }
        Ok(tree)
    }

    pub fn tasks(&self, ropes: &mut Ropes) -> Result<Rope, NoMemory>
        requires ropes { HaveRopes ropes.old self.now }
        ensures list { IfOk result (λ rope. list_of ropes.new rope ≡ tasks_of (runs_of ropes.old self.now)) }
        ensures rope { IfOk result (λ rope. IsRope ropes.new rope) }
        ensures kept { Extends ropes.old ropes.new }
    {
        let mut tasks = ropes.empty();
        for seg in self.segments.iter() {
            tasks = ropes.join(tasks, seg.tasks)?;
        }
        Ok(tasks)
    }

    // The limit is above the bound that the level is to stay within.
    pub fn lowest(&self, level: u64, limit: u64) -> u64
        requires room { net_sum (profile self.now) ≤ level }
        requires level { level ≤ most_total }
        ensures lowest { result ≡ lowest limit level (profile self.now) }
    {
        let mut at = level;
        for seg in self.segments.iter() {
            if limit <= at + seg.up {
                break;
            }
            at -= seg.net;
        }
        at
    }

    pub fn top(&self, level: u64) -> u64
        requires room { net_sum (profile self.now) ≤ level }
        requires level { level ≤ most_total }
        ensures top { result ≡ top level (profile self.now) }
    {
        let mut at = level;
        let mut highest = level;
        for seg in self.segments.iter() {
            highest = highest.max(at + seg.up);
            at -= seg.net;
        }
        highest
    }

    pub fn push_numbers(
        &self,
        level: u64,
        stop: u64,
        numbers: &mut Vec<Numbers>,
    ) -> Result<(), NoMemory>
        requires room { net_sum (profile self.now) ≤ level }
        ensures numbers { OnOk result (
            segments_listed numbers.new.items ≡ segments_listed numbers.old.items ++ first_down_to stop level (profile self.now)) }
    {
        let mut at = level;
        for seg in self.segments.iter() {
            if at < stop {
                break;
            }
            numbers.push(Numbers {
                up: seg.up,
                net: seg.net,
            })?;
            at -= seg.net;
        }
        Ok(())
    }

    pub fn steps(&self, alloc: Global, level: u64) -> Result<Vec<Step>, NoMemory>
        requires room { net_sum (profile self.now) ≤ level }
        requires level { level ≤ most_total }
        ensures steps { IfOk result (λ steps. AreSteps level (profile self.now) steps.items) }
    {
        let mut steps = Vec::new(alloc);
        let mut at = level;
        let mut most = level;
        for seg in self.segments.iter() {
            most = most.max(at + seg.up);
            at -= seg.net;
            if 0 < seg.net {
                add_step(&mut steps, most, at)?;
            }
        }
        Ok(steps)
    }
}

// How many segments of the row go up less than `up`.
fn place_of(row: &VecDeque<Seg>, up: u64) -> usize
    ensures place { IsPlace up result row.now.items }
{
    let mut low = 0;
    let mut high = row.len();
    while low < high {
        let middle = low + (high - low) / 2;
        if row[middle].up < up {
            low = middle + 1;
        } else {
            high = middle;
        }
    }
    low
}

// The segment at the place of `up`, where it goes up as much.
fn own_at(row: &VecDeque<Seg>, at: usize, up: u64) -> Option<Seg>
    requires place { IsPlace up at row.now.items }
    requires rising { IsRising (profile row.now.items) }
    ensures own { MatchOption result (IsGap up at row.now.items) (IsThere up at row.now.items) }
{
    let own = *row.get(at)?;
    if own.up == up { Some(own) } else { None }
}

// Two segments of one `up` as one.
pub(crate) fn joined(ropes: &mut Ropes, own: Seg, seg: Seg, before: bool) -> Result<Seg, NoMemory>
    requires own { IsRope ropes.old own.tasks }
    requires rope { IsRope ropes.old seg.tasks }
    requires net { own.net + seg.net ≤ most_total }
    ensures run { IfOk result (λ s. run_of ropes.new s ≡ join_runs before (run_of ropes.old seg) (run_of ropes.old own)) }
    ensures rope { IfOk result (λ s. IsRope ropes.new s.tasks) }
    ensures kept { Extends ropes.old ropes.new }
{
    let (first, second) = if before {
        (seg.tasks, own.tasks)
    } else {
        (own.tasks, seg.tasks)
    };
    let tasks = ropes.join(first, second)?;
    Ok(Seg {
        up: own.up,
        net: own.net + seg.net,
        tasks,
    })
}
