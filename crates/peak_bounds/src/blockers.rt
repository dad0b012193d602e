//! The judge of blockers, one after the other.

ghost use Rattle.std.specs.Prelude.{◌≡◌, ◌+◌, ◌<◌, ◌≤◌, [], IfOk, OnOk, MatchOption, length};
ghost use Rattle.peak_bounds.specs.EventSets.{EventSetValue};
ghost use Rattle.peak_bounds.specs.Evidence.{use_count, set_tasks, lowered_by, blocker_at};
ghost use Rattle.peak_bounds.specs.Judging.{AreUses, AreSpare};
ghost use Rattle.peak_bounds.specs.Judged.{HaveLengths, IsCommon, IsFormed, PassesAtMoment, FailsAtMoment, IsFoundIn};

use crate::NoMemory;
use crate::evidence::{Blocker, BlockerTest, EventSet, Objection};
use crate::fitting::{Fitting, fit_with, fitting_of};
use crate::levels::reaches;
use crate::marks::{Marks, SetMarks, set_marks};
use crate::needs::all_needs;
use crate::spare::{Lowered, base_sizes, open_tasks_rise, put_amounts, take_back};
use crate::use_table::UseTable;
use shared_systems::SharedSystem;
use std::alloc::Global;

/// What is the same for all blockers of a set.
#[derive(Drop)]
pub struct Common {
    pub uses: UseTable,
    /// The lowered sizes that the set tells.
    pub sizes: Vec<i64>,
    /// What each task leaves beyond what it takes up in these sizes, by its number; that of 0 is nobody's.
    pub spare: Vec<i128>,
    pub fitting: Fitting,
    pub marks: SetMarks,
    /// What each task needs beside the items that are there when it starts, by its number.
    pub needs: Vec<u64>,
}

// The tasks of the set.
fn tasks_of(alloc: Global, blockers: &[Blocker]) -> Result<Vec<u32>, NoMemory>
    ensures { (set : EventSetValue) → set.blockers ≡ blockers.now → IfOk result (λ tasks. tasks.items ≡ set_tasks set) }
{
    let mut tasks = Vec::with_capacity(alloc, blockers.len())?;
    for blocker in blockers {
        tasks.push(blocker.task())?;
    }
    Ok(tasks)
}

/// What is the same for all blockers of a set, with the uses of all items. Linear.
pub fn common_of(
    alloc: Global,
    system: &SharedSystem,
    set: &EventSet,
    bound: u64,
    uses: UseTable,
) -> Result<Common, NoMemory>
    requires uses { AreUses system.now uses }
    requires formed { IsFormed system.now set.now bound }
    ensures { IfOk result (IsCommon system.now set.now) }
{
    let tasks = tasks_of(alloc, set.blockers())?;
    let Lowered { sizes, spare } = base_sizes(alloc, &uses, system.tasks().len(), set.base())?;
    let marks = set_marks(alloc, system, &uses, set.event(), &tasks)?;
    let fitting = fitting_of(alloc, system.items(), &sizes)?;
    let needs = all_needs(alloc, system)?;
    Ok(Common {
        uses,
        sizes,
        spare,
        fitting,
        marks,
        needs,
    })
}

// The first test of its moment that the blocker after i others fails, if it fails one, with its lowered sizes.
fn judge_moment(
    system: &SharedSystem,
    set: &EventSet,
    bound: u64,
    common: &Common,
    i: usize,
    sizes: &[i64],
    spare: &[i128],
    marks: &mut Marks,
) -> Result<Option<BlockerTest>, NoMemory>
    requires common { IsCommon system.now set.now common.now }
    requires formed { IsFormed system.now set.now bound }
    requires i { i < length set.now.blockers }
    requires sizes { sizes.now ≡ lowered_by (use_count system.now) set.now.base (blocker_at set.now (i + 1)).amounts }
    requires spare { AreSpare common.now.uses sizes.now spare.now }
    requires spare_len { length spare.now ≡ length system.now.tasks + 1 }
    requires lengths { HaveLengths (length system.now.tasks) marks.old }
    ensures found { IfOk result (λ found. MatchOption found
        (PassesAtMoment system.now set.now bound (i + 1))
        (λ test. FailsAtMoment system.now set.now bound test (i + 1))) }
    ensures lengths { OnOk result (HaveLengths (length system.now.tasks) marks.new) }
{
    let blocker = &set.blockers()[i];
    if !fit_with(system.items(), &common.fitting, sizes, blocker.amounts()) {
        return Ok(Some(BlockerTest::Sizes));
    }
    let task = blocker.task();
    marks.mark(system, &common.uses, set.event(), &common.marks, task)?;
    if !open_tasks_rise(&marks.done, &marks.waiting, spare) {
        return Ok(Some(BlockerTest::Open));
    }
    let need = common.needs[task as usize];
    if !reaches(system, &common.uses, &marks.done, sizes, need, bound) {
        return Ok(Some(BlockerTest::Level));
    }
    Ok(None)
}

// The same, with the lowered sizes of the set, which are so again in the end.
fn judge_blocker(
    system: &SharedSystem,
    set: &EventSet,
    bound: u64,
    common: &Common,
    i: usize,
    sizes: &mut [i64],
    spare: &mut [i128],
    marks: &mut Marks,
) -> Result<Option<BlockerTest>, NoMemory>
    requires common { IsCommon system.now set.now common.now }
    requires formed { IsFormed system.now set.now bound }
    requires i { i < length set.now.blockers }
    requires sizes { sizes.old ≡ common.now.sizes.items }
    requires spare { AreSpare common.now.uses sizes.old spare.old }
    requires spare_len { length spare.old ≡ length system.now.tasks + 1 }
    requires lengths { HaveLengths (length system.now.tasks) marks.old }
    ensures found { IfOk result (λ found. MatchOption found
        (PassesAtMoment system.now set.now bound (i + 1))
        (λ test. FailsAtMoment system.now set.now bound test (i + 1))) }
    ensures sizes { OnOk result (sizes.new ≡ common.now.sizes.items) }
    ensures spare { OnOk result (AreSpare common.now.uses sizes.new spare.new) }
    ensures lengths { OnOk result (HaveLengths (length system.now.tasks) marks.new) }
{
    let own = set.blockers()[i].amounts();
    put_amounts(&common.uses, sizes, spare, own);
    let found = judge_moment(system, set, bound, common, i, sizes, spare, marks)?;
    take_back(&common.uses, sizes, spare, own, &common.sizes);
    Ok(found)
}

/// What is said against the blockers after so many and up to others, if anything is.
pub fn judge_part(
    alloc: Global,
    system: &SharedSystem,
    set: &EventSet,
    bound: u64,
    common: &Common,
    from: usize,
    to: usize,
) -> Result<Option<Objection>, NoMemory>
    requires common { IsCommon system.now set.now common.now }
    requires formed { IsFormed system.now set.now bound }
    requires to { to ≤ length set.now.blockers }
    ensures { IfOk result (IsFoundIn system.now set.now bound from to) }
{
    let mut sizes = Vec::from_slice(alloc, &common.sizes)?;
    let mut spare = Vec::from_slice(alloc, &common.spare)?;
    let mut marks = Marks::new(alloc, system.tasks().len())?;
    for i in from..to {
        let found = judge_blocker(
            system, set, bound, common, i, &mut sizes, &mut spare, &mut marks,
        )?;
        if let Some(test) = found {
            let place = i as u64 + 1;
            return Ok(Some(Objection::Blocker { test, place }));
        }
    }
    Ok(None)
}
