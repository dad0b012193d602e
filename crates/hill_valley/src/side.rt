//! Sides: a slot for one segment, rows of few, ordered maps of many.

ghost use Rattle.std.specs.Prelude.{◌≡◌, ℕ, ◌+◌, ◌-◌, ◌<◌, ◌≤◌, ◌^◌, max, if◌then◌else◌, nat_lt, [], ◌∷◌, ◌++◌, length, ◌↔◌, IfOk, IfSome};
ghost use Rattle.std.specs.Prelude.{OnOk, OnErr, MatchOption};
ghost use Rattle.limits.specs.Limits.{most_total};
ghost use Rattle.side_laws.specs.Segments.{net_sum, lowest, top, Passes, StartsAbove, last_up};
ghost use Rattle.side_laws.specs.Merging.{AreStuckAt, IsLeastTogether};
ghost use Rattle.hill_valley.specs.Ropes.{list_of, IsRope, Extends};
ghost use Rattle.hill_valley.specs.Side.{limit_from, numbers, profile, IsSide, HaveRopes, run_of, runs_of, tasks_of, insert_run, move_runs};
ghost use Rattle.hill_valley.specs.Side.{append_run};
ghost use Rattle.hill_valley.specs.Numbers.{segments_listed, first_down_to};
ghost use Rattle.hill_valley.specs.Staircase.{AreSteps};
ghost use Rattle.hill_valley.specs.Descents.{first_up};
ghost use Rattle.hill_valley.specs.Merging.{IsNextMoved};

use crate::NoMemory;
use crate::numbers::Numbers;
use crate::ropes::{Rope, Ropes};
use crate::row::{Row, joined};
use crate::slot::Slot;
use crate::steps::Step;
use crate::tree::Tree;
use side_laws::laws;
use std::alloc::Global;
use std::marker::Model;

// A side of at most so many segments goes into another one by one, in place.
const FEW: u64 = 4;

// A longer side, with at least an eighth as many segments as the other, goes into it in one pass over both.
const ALIKE: u64 = 8;

/// A segment: a run of tasks over a hill and down to a valley.
#[derive(Clone, Copy)]
pub struct Seg {
    /// The greatest memory of the segment above the level at which it starts, from 0 to 2^60.
    pub up: u64,
    /// How much lower the level is after it, from 0 to 2^60.
    pub net: u64,
    /// Its tasks, in the order in which they run.
    pub tasks: Rope,
}

/// Segments that lead from a level of memory down, each over a higher hill than the one before: the `up` values rise
/// strictly. Each `up` is at most 2^60, and so is the sum of all `net` values.
#[derive(Drop)]
pub struct Side {
    segments: Segments,
}

// Each has the segments in rising order of `up`.
#[derive(Drop)]
pub(crate) enum Segments {
    Slot(Slot),
    Row(Row),
    Tree(Tree),
}

impl Model for Side {
    ghost use Rattle.std.specs.Prelude.{List};
    ghost use Rattle.hill_valley.specs.declared.side.Seg.{Seg};
    ghost use Rattle.hill_valley.specs.Rows.{segs_in};

    ghost Value = { List Seg };

    ghost view = { λ s. segs_in s.segments };
}

impl Side {
    /// A side of no segments.
    #[inline(always)]
    pub fn new(alloc: Global) -> Side
        ensures empty { result ≡ [] }
    {
        Side {
            segments: Segments::Slot(Slot::new()),
        }
    }

    /// What every value of this type keeps; a proof that needs it calls it. It does nothing.
    pub fn keeps(&self)
        ensures { IsSide (profile self.now) }
    {
        match &self.segments {
            Segments::Slot(slot) => slot.keeps(),
            Segments::Row(row) => row.keeps(),
            Segments::Tree(tree) => tree.keeps(),
        }
    }

    /// How many segments the side has.
    #[inline(always)]
    pub fn len(&self) -> u64
        ensures len { result ≡ length self.now }
    {
        match &self.segments {
            Segments::Slot(slot) => slot.len(),
            Segments::Row(row) => row.len(),
            Segments::Tree(tree) => tree.len(),
        }
    }

    /// Takes the first segment out, the one of the least `up`. None exactly where the side has none. Logarithmic time.
    #[inline(always)]
    pub fn take_first(&mut self) -> Option<Seg>
        ensures first { MatchOption result ((self.old ≡ []) × (self.new ≡ [])) (λ s. self.old ≡ s ∷ self.new) }
        // what is left leads on from where the first segment ends
        ensures lowest { IfSome result (λ s. (limit level : ℕ)
            → lowest limit level (profile self.old)
            ≡ (if nat_lt (level + s.up) limit then lowest limit (level - s.net) (profile self.new) else level)) }
        ensures top { IfSome result (λ s. (level : ℕ)
            → top level (profile self.old) ≡ max (level + s.up) (top (level - s.net) (profile self.new))) }
        // what holds of every side
        ensures side { IsSide (profile self.old) }
    {
        self.keeps();
        match &mut self.segments {
            Segments::Slot(slot) => slot.take_first(),
            Segments::Row(row) => row.take_first(),
            Segments::Tree(tree) => tree.take_first(),
        }
    }

    /// Takes the first segment out, if it goes up by at most `most`. Logarithmic time.
    #[inline(always)]
    pub fn take_first_within(&mut self, most: u64) -> Option<Seg>
        ensures first { MatchOption result
            ((self.new ≡ self.old) × StartsAbove most (profile self.old))
            (λ s. (self.old ≡ s ∷ self.new) × (s.up ≤ most)) }
        // what holds of every side
        ensures side { IsSide (profile self.old) }
    {
        match self.first_up() {
            Some(up) if up <= most => self.take_first(),
            _ => None,
        }
    }

    /// Puts a segment at its place by `up`, and joins it with one of the same `up`: the new one's list comes first where
    /// `before` is true. Its rope and those of the side are of these ropes. Logarithmic time. Where memory is wanting the
    /// side stays as it is, while the ropes may hold more.
    pub fn insert(&mut self, ropes: &mut Ropes, seg: Seg, before: bool) -> Result<(), NoMemory>
        requires rope { IsRope ropes.old seg.tasks }
        requires ropes { HaveRopes ropes.old self.old }
        requires up { seg.up ≤ most_total }
        requires net { net_sum (profile self.old) + seg.net ≤ most_total }
        ensures segments { OnOk result (
            runs_of ropes.new self.new ≡ insert_run before (run_of ropes.old seg) (runs_of ropes.old self.old)) }
        ensures net { OnOk result (net_sum (profile self.new) ≡ net_sum (profile self.old) + seg.net) }
        // the new side goes down as the segment and the old side go down together
        ensures lowest { OnOk result ((limit level : ℕ) → net_sum (profile self.old) + seg.net ≤ level
            → AreStuckAt limit level ((numbers seg ∷ []) ∷ profile self.old ∷ []) (lowest limit level (profile self.new))) }
        ensures top { OnOk result ((level : ℕ) → net_sum (profile self.old) + seg.net ≤ level
            → IsLeastTogether level ((numbers seg ∷ []) ∷ profile self.old ∷ []) (top level (profile self.new))) }
        ensures ropes { HaveRopes ropes.new self.new }
        ensures err { OnErr result (self.new ≡ self.old) }
        ensures kept { Extends ropes.old ropes.new }
    {
        laws::inserting();
        laws::merging();
        self.keeps();
        self.make_room(seg.up)?;
        self.put(ropes, seg, before)
    }

    /// Adds a run of tasks at the end that goes `up` above the level there and ends `down` lower. Where the last segment
    /// goes at least as high, the run is joined to it. The ropes are as for [`Side::insert`]. Logarithmic time. Where
    /// memory is wanting the side stays as it is, while the ropes may hold more.
    pub fn append(
        &mut self,
        ropes: &mut Ropes,
        up: u64,
        down: u64,
        tasks: Rope,
    ) -> Result<(), NoMemory>
        requires rope { IsRope ropes.old tasks }
        requires ropes { HaveRopes ropes.old self.old }
        requires up { up ≤ most_total }
        requires net { net_sum (profile self.old) + down ≤ most_total }
        ensures segments { OnOk result (
            runs_of ropes.new self.new
            ≡ append_run (record { up = up; net = down; tasks = list_of ropes.old tasks }) (runs_of ropes.old self.old)) }
        ensures tasks { OnOk result (
            tasks_of (runs_of ropes.new self.new) ≡ tasks_of (runs_of ropes.old self.old) ++ list_of ropes.old tasks) }
        ensures net { OnOk result (net_sum (profile self.new) ≡ net_sum (profile self.old) + down) }
        // within a bound: `down` lower where all segments before pass and the run does too, and else the same
        ensures lowest { OnOk result ((limit level : ℕ) → net_sum (profile self.old) + down ≤ level
            → let most = top level (profile self.old) in
            let low = lowest limit level (profile self.old) in
            lowest limit level (profile self.new) ≡ (if nat_lt (max most (low + up)) limit then low - down else low)) }
        ensures top { OnOk result ((level : ℕ) → net_sum (profile self.old) + down ≤ level
            → top level (profile self.new) ≡ max (top level (profile self.old)) (level - net_sum (profile self.old) + up)) }
        ensures ropes { HaveRopes ropes.new self.new }
        ensures err { OnErr result (self.new ≡ self.old) }
        ensures kept { Extends ropes.old ropes.new }
    {
        laws::appending();
        self.keeps();
        let seg = Seg {
            up: self.last_up().max(up),
            net: down,
            tasks,
        };
        self.insert(ropes, seg, false)
    }

    /// Moves each segment of another side into this one. It is joined with one of the same `up`: its list comes first where
    /// `before` is true. The ropes of both are of these ropes, and all `net` values sum to at most 2^60. Logarithmic time for
    /// each segment of the other side. Where memory is wanting segments of this side may be lost, and the ropes may hold more.
    pub fn merge(&mut self, other: Side, ropes: &mut Ropes, before: bool) -> Result<(), NoMemory>
        requires other { HaveRopes ropes.old other }
        requires ropes { HaveRopes ropes.old self.old }
        requires net { net_sum (profile other) + net_sum (profile self.old) ≤ most_total }
        ensures segments { OnOk result (
            runs_of ropes.new self.new ≡ move_runs before (runs_of ropes.old other) (runs_of ropes.old self.old)) }
        ensures net { OnOk result (net_sum (profile self.new) ≡ net_sum (profile other) + net_sum (profile self.old)) }
        ensures ropes { HaveRopes ropes.new self.new }
        ensures kept { Extends ropes.old ropes.new }
    {
        laws::inserting();
        if other.len() <= FEW || other.len().saturating_mul(ALIKE) < self.len() {
            self.take_in(other, ropes, before)
        } else {
            self.weave(other, ropes, before)
        }
    }

    /// The `up` of the last segment, the greatest, and 0 where there is none. Logarithmic time.
    #[inline(always)]
    pub fn last_up(&self) -> u64
        ensures value { result ≡ last_up (profile self.now) }
    {
        match &self.segments {
            Segments::Slot(slot) => slot.last_up(),
            Segments::Row(row) => row.last_up(),
            Segments::Tree(tree) => tree.last_up(),
        }
    }

    /// The tasks of all segments, in order, as one list. The ropes of the side are of these ropes. Linear time.
    #[inline(always)]
    pub fn tasks(&self, ropes: &mut Ropes) -> Result<Rope, NoMemory>
        requires ropes { HaveRopes ropes.old self.now }
        ensures list { IfOk result (λ rope. list_of ropes.new rope ≡ tasks_of (runs_of ropes.old self.now)) }
        ensures rope { IfOk result (λ rope. IsRope ropes.new rope) }
        ensures kept { Extends ropes.old ropes.new }
    {
        match &self.segments {
            Segments::Slot(slot) => Ok(slot.tasks(ropes)),
            Segments::Row(row) => row.tasks(ropes),
            Segments::Tree(tree) => tree.tasks(ropes),
        }
    }

    /// The level at which the next segment would pass the bound, or the level after the last segment where none would.
    /// The segments are run from `level`, which is at least the sum of the `net` values and at most 2^60. Linear time.
    pub fn lowest(&self, level: u64, bound: i64) -> u64
        requires room { net_sum (profile self.now) ≤ level }
        requires level { level ≤ most_total }
        ensures lowest { result ≡ lowest (limit_from bound) level (profile self.now) }
    {
        let limit = limit_above(bound);
        match &self.segments {
            Segments::Slot(slot) => slot.lowest(level, limit),
            Segments::Row(row) => row.lowest(level, limit),
            Segments::Tree(tree) => tree.lowest(level, limit),
        }
    }

    /// The greatest of the level and of the memories that the segments reach when they are run from it. The level is as for
    /// [`Side::lowest`]. Linear time.
    #[inline(always)]
    pub fn top(&self, level: u64) -> u64
        requires room { net_sum (profile self.now) ≤ level }
        requires level { level ≤ most_total }
        ensures top { result ≡ top level (profile self.now) }
        // under a limit above the level all segments pass exactly where this number is below it
        ensures passes { (limit : ℕ) → (result < limit) ↔ ((level < limit) × Passes limit level (profile self.now)) }
    {
        laws::one_side();
        match &self.segments {
            Segments::Slot(slot) => slot.top(level),
            Segments::Row(row) => row.top(level),
            Segments::Tree(tree) => tree.top(level),
        }
    }

    /// Puts the numbers of the first segments behind the others, as long as they start at `stop` or above: all of them for a `stop` of 0.
    /// The segments are run from `level`, which is at least the sum of the `net` values. Linear time in those that are put there.
    /// Where memory is wanting some may be put there.
    #[inline(always)]
    pub fn push_numbers(
        &self,
        level: u64,
        stop: u64,
        numbers: &mut Vec<Numbers>,
    ) -> Result<(), NoMemory>
        requires room { net_sum (profile self.now) ≤ level }
        ensures numbers { OnOk result (
            segments_listed numbers.new.items ≡ segments_listed numbers.old.items ++ first_down_to stop level (profile self.now)) }
    {
        match &self.segments {
            Segments::Slot(slot) => slot.push_numbers(level, stop, numbers),
            Segments::Row(row) => row.push_numbers(level, stop, numbers),
            Segments::Tree(tree) => tree.push_numbers(level, stop, numbers),
        }
    }

    /// The steps of the side from a level, which is as for [`Side::lowest`]. Linear time.
    pub fn steps(&self, alloc: Global, level: u64) -> Result<Vec<Step>, NoMemory>
        requires room { net_sum (profile self.now) ≤ level }
        requires level { level ≤ most_total }
        ensures steps { IfOk result (λ steps. AreSteps level (profile self.now) steps.items) }
    {
        match &self.segments {
            Segments::Slot(slot) => slot.steps(alloc, level),
            Segments::Row(row) => row.steps(alloc, level),
            Segments::Tree(tree) => tree.steps(alloc, level),
        }
    }

    // The `up` of the first segment.
    #[inline(always)]
    fn first_up(&self) -> Option<u64>
        ensures value { result ≡ first_up self.now }
        ensures side { IsSide (profile self.now) }
    {
        self.keeps();
        match &self.segments {
            Segments::Slot(slot) => slot.first_up(),
            Segments::Row(row) => row.first_up(),
            Segments::Tree(tree) => tree.first_up(),
        }
    }

    // Puts the segment in as the side is.
    fn put(&mut self, ropes: &mut Ropes, seg: Seg, before: bool) -> Result<(), NoMemory>
        requires rope { IsRope ropes.old seg.tasks }
        requires ropes { HaveRopes ropes.old self.old }
        requires up { seg.up ≤ most_total }
        requires net { net_sum (profile self.old) + seg.net ≤ most_total }
        ensures segments { OnOk result (
            runs_of ropes.new self.new ≡ insert_run before (run_of ropes.old seg) (runs_of ropes.old self.old)) }
        ensures ropes { HaveRopes ropes.new self.new }
        ensures err { OnErr result (self.new ≡ self.old) }
        ensures kept { Extends ropes.old ropes.new }
    {
        match &mut self.segments {
            Segments::Slot(slot) => {
                self.segments = slot.with(ropes, seg, before)?;
                Ok(())
            }
            Segments::Row(row) => row.insert(ropes, seg, before),
            Segments::Tree(tree) => tree.insert(ropes, seg, before),
        }
    }

    // Puts the segments of another side in, one after another.
    fn take_in(&mut self, mut other: Side, ropes: &mut Ropes, before: bool) -> Result<(), NoMemory>
        requires other { HaveRopes ropes.old other }
        requires ropes { HaveRopes ropes.old self.old }
        requires net { net_sum (profile other) + net_sum (profile self.old) ≤ most_total }
        ensures segments { OnOk result (
            runs_of ropes.new self.new ≡ move_runs before (runs_of ropes.old other) (runs_of ropes.old self.old)) }
        ensures ropes { HaveRopes ropes.new self.new }
        ensures kept { Extends ropes.old ropes.new }
    {
        while let Some(seg) = other.take_first() {
            self.insert(ropes, seg, before)?;
        }
        Ok(())
    }

    // Makes one row of both sides, in one pass.
    fn weave(&mut self, mut other: Side, ropes: &mut Ropes, before: bool) -> Result<(), NoMemory>
        requires other { HaveRopes ropes.old other }
        requires ropes { HaveRopes ropes.old self.old }
        requires net { net_sum (profile other) + net_sum (profile self.old) ≤ most_total }
        ensures segments { OnOk result (
            runs_of ropes.new self.new ≡ move_runs before (runs_of ropes.old other) (runs_of ropes.old self.old)) }
        ensures ropes { HaveRopes ropes.new self.new }
        ensures kept { Extends ropes.old ropes.new }
    {
        laws::inserting();
        self.keeps();
        other.keeps();
        let count = self.len().saturating_add(other.len());
        let mut row = Row::with_room(ropes.alloc(), count)?;
        while let Some(seg) = take_lesser(self, &mut other, ropes, before)? {
            row.push(seg)?;
        }
        self.segments = Segments::Row(row);
        Ok(())
    }

    // Makes a tree of a row that is too long for a segment of this `up`.
    fn make_room(&mut self, up: u64) -> Result<(), NoMemory>
        ensures same { self.new ≡ self.old }
    {
        if let Segments::Row(row) = &self.segments
            && row.is_long_for(up)
        {
            self.segments = Segments::Tree(row.to_tree()?);
        }
        Ok(())
    }
}

// The least memory above the bound.
fn limit_above(bound: i64) -> u64
    ensures { result ≡ limit_from bound }
{
    if bound < 0 { 0 } else { bound as u64 + 1 }
}

// Takes the first segment of both sides, by `up`. Where each has one of this `up`, they become one.
fn take_lesser(
    own: &mut Side,
    other: &mut Side,
    ropes: &mut Ropes,
    before: bool,
) -> Result<Option<Seg>, NoMemory>
    requires other { HaveRopes ropes.old other.old }
    requires own { HaveRopes ropes.old own.old }
    requires net { net_sum (profile other.old) + net_sum (profile own.old) ≤ most_total }
    ensures next { IfOk result (IsNextMoved before ropes.old ropes.new other.old own.old other.new own.new) }
    ensures rope { IfOk result (λ next. IfSome next (λ s. IsRope ropes.new s.tasks)) }
    ensures fewer { IfOk result (λ next. IfSome next (λ _. length other.new + length own.new < length other.old + length own.old)) }
    ensures net { net_sum (profile other.new) + net_sum (profile own.new) ≤ net_sum (profile other.old) + net_sum (profile own.old) }
    ensures other { HaveRopes ropes.new other.new }
    ensures own { HaveRopes ropes.new own.new }
    ensures kept { Extends ropes.old ropes.new }
{
    own.keeps();
    let Some(up) = own.first_up() else {
        return Ok(other.take_first());
    };
    match other.take_first_within(up) {
        None => Ok(own.take_first()),
        Some(seg) if seg.up < up => Ok(Some(seg)),
        Some(seg) => match own.take_first() {
            Some(first) => Ok(Some(joined(ropes, first, seg, before)?)),
            None => Ok(Some(seg)),
        },
    }
}
