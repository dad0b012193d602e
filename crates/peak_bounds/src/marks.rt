//! Which tasks are done for certain when a blocker starts, and which wait.

ghost use Rattle.std.specs.Prelude.{◌≡◌, ◌⊎◌, ◌≤◌, ◌↔◌, ℕ, true, false, List, All, IfOk, OnOk, length};
ghost use Rattle.mp_system.specs.Memory.{stands_in};
ghost use Rattle.mp_system.specs.Replay.{is_marked};
ghost use Rattle.graphs.specs.Graph.{IsAmong};
ghost use Rattle.shared_systems.specs.Shared.{SharedTaskSystem, HasTask};
ghost use Rattle.shared_systems.specs.Paths.{ComesAfter};
ghost use Rattle.peak_bounds.specs.declared.step.Event.TheVariants.{Last};
ghost use Rattle.peak_bounds.specs.Evidence.{IsBeforeOne, IsAfterOne, HasRun};
ghost use Rattle.peak_bounds.specs.Judging.{AreUses};
ghost use Rattle.peak_bounds.specs.Judged.{IsBeyond, AreSetMarks, AreMarks, HaveLengths};

use crate::NoMemory;
use crate::search::spread;
use crate::step::Event;
use crate::use_table::UseTable;
use shared_systems::SharedSystem;
use std::alloc::Global;

/// Marks that depend on a set alone, one for each task.
#[derive(Drop)]
pub struct SetMarks {
    /// Where one of the set starts first, which tasks come after one of them; where one starts last, which come before one.
    pub beyond: Vec<bool>,
    /// Those, and the tasks of the set.
    pub all: Vec<bool>,
}

/// Marks that depend on the blocker too, and the work of a search for them.
#[derive(Drop)]
pub struct Marks {
    /// Which tasks have run for certain.
    pub done: Vec<bool>,
    /// Which tasks wait for certain.
    pub waiting: Vec<bool>,
    pub work: Vec<u32>,
}

// A mark for each of so many tasks: whether it is one of these.
fn marked(alloc: Global, count: usize, tasks: &[u32]) -> Result<Vec<bool>, NoMemory>
    requires { All (IsAmong count) tasks.now }
    ensures len { IfOk result (λ marks. length marks.items ≡ count) }
    ensures marks { IfOk result (λ marks. (v : ℕ) → is_marked marks.items v ≡ stands_in tasks.now v) }
{
    let mut marks: Vec<bool> = vec![in alloc; false; count]?;
    for task in tasks {
        marks[*task as usize - 1] = true;
    }
    Ok(marks)
}

// Takes all marks away.
fn unmark(marks: &mut [bool])
    ensures { (v : ℕ) → is_marked marks.new v ≡ false }
{
    for mark in marks.iter_mut() {
        *mark = false;
    }
}

// Marks those too that one of the tasks of the work comes after.
fn mark_earlier(
    system: &SharedSystem,
    uses: &UseTable,
    marks: &mut [bool],
    work: &mut Vec<u32>,
) -> Result<(), NoMemory>
    requires uses { AreUses system.now uses.now }
    requires len { length marks.old ≡ length system.now.tasks }
    requires tasks { All (HasTask system.now) work.old.items }
    requires listed { (v : ℕ) → is_marked marks.old v ≡ true → stands_in work.old.items v ≡ true }
    ensures sound { OnOk result ((v : ℕ) → is_marked marks.new v ≡ true →
        (is_marked marks.old v ≡ true) ⊎ IsBeforeOne system.now work.old.items v) }
    ensures all { OnOk result ((v : ℕ) → (is_marked marks.old v ≡ true) ⊎ IsBeforeOne system.now work.old.items v →
        is_marked marks.new v ≡ true) }
{
    system.keeps();
    spread(&uses.takers, &uses.makers, &uses.taken, marks, work)
}

// Marks those too that come after one of the tasks of the work.
fn mark_later(
    system: &SharedSystem,
    uses: &UseTable,
    marks: &mut [bool],
    work: &mut Vec<u32>,
) -> Result<(), NoMemory>
    requires uses { AreUses system.now uses.now }
    requires len { length marks.old ≡ length system.now.tasks }
    requires tasks { All (HasTask system.now) work.old.items }
    requires listed { (v : ℕ) → is_marked marks.old v ≡ true → stands_in work.old.items v ≡ true }
    ensures sound { OnOk result ((v : ℕ) → is_marked marks.new v ≡ true →
        (is_marked marks.old v ≡ true) ⊎ IsAfterOne system.now work.old.items v) }
    ensures all { OnOk result ((v : ℕ) → (is_marked marks.old v ≡ true) ⊎ IsAfterOne system.now work.old.items v →
        is_marked marks.new v ≡ true) }
{
    system.keeps();
    spread(&uses.makers, &uses.takers, &uses.made, marks, work)
}

// Marks those too that are beyond the tasks of the work.
fn mark_beyond(
    system: &SharedSystem,
    uses: &UseTable,
    event: Event,
    marks: &mut [bool],
    work: &mut Vec<u32>,
) -> Result<(), NoMemory>
    requires uses { AreUses system.now uses.now }
    requires len { length marks.old ≡ length system.now.tasks }
    requires tasks { All (HasTask system.now) work.old.items }
    requires listed { (v : ℕ) → is_marked marks.old v ≡ true → stands_in work.old.items v ≡ true }
    ensures sound { OnOk result ((v : ℕ) → is_marked marks.new v ≡ true →
        (is_marked marks.old v ≡ true) ⊎ IsBeyond system.now event work.old.items v) }
    ensures all { OnOk result ((v : ℕ) → (is_marked marks.old v ≡ true) ⊎ IsBeyond system.now event work.old.items v →
        is_marked marks.new v ≡ true) }
{
    match event {
        Event::First => mark_later(system, uses, marks, work),
        Event::Last => mark_earlier(system, uses, marks, work),
    }
}

// Marks those too that are beyond these tasks.
fn with_beyond(
    alloc: Global,
    system: &SharedSystem,
    uses: &UseTable,
    event: Event,
    marks: Vec<bool>,
    tasks: &[u32],
) -> Result<Vec<bool>, NoMemory>
    requires uses { AreUses system.now uses.now }
    requires len { length marks.items ≡ length system.now.tasks }
    requires tasks { All (HasTask system.now) tasks.now }
    requires listed { (v : ℕ) → is_marked marks.items v ≡ true → stands_in tasks.now v ≡ true }
    ensures len { IfOk result (λ all. length all.items ≡ length system.now.tasks) }
    ensures sound { IfOk result (λ all. (v : ℕ) → is_marked all.items v ≡ true →
        (is_marked marks.items v ≡ true) ⊎ IsBeyond system.now event tasks.now v) }
    ensures all { IfOk result (λ all. (v : ℕ) → (is_marked marks.items v ≡ true) ⊎ IsBeyond system.now event tasks.now v →
        is_marked all.items v ≡ true) }
{
    let mut marks = marks;
    let mut work = Vec::from_slice(alloc, tasks)?;
    mark_beyond(system, uses, event, &mut marks, &mut work)?;
    Ok(marks)
}

/// The marks that depend on a set of these tasks alone.
pub fn set_marks(
    alloc: Global,
    system: &SharedSystem,
    uses: &UseTable,
    event: Event,
    tasks: &[u32],
) -> Result<SetMarks, NoMemory>
    requires uses { AreUses system.now uses.now }
    requires tasks { All (HasTask system.now) tasks.now }
    ensures { IfOk result (AreSetMarks system.now event tasks.now) }
{
    let count = system.tasks().len();
    let none: Vec<bool> = vec![in alloc; false; count]?;
    let beyond = with_beyond(alloc, system, uses, event, none, tasks)?;
    let listed = marked(alloc, count, tasks)?;
    let all = with_beyond(alloc, system, uses, event, listed, tasks)?;
    Ok(SetMarks { beyond, all })
}

// Marks just those that a task comes after.
fn mark_before(
    system: &SharedSystem,
    uses: &UseTable,
    task: u32,
    marks: &mut [bool],
    work: &mut Vec<u32>,
) -> Result<(), NoMemory>
    requires uses { AreUses system.now uses.now }
    requires task { HasTask system.now task }
    requires len { length marks.old ≡ length system.now.tasks }
    ensures sound { OnOk result ((v : ℕ) → is_marked marks.new v ≡ true → ComesAfter system.now v task) }
    ensures all { OnOk result ((v : ℕ) → ComesAfter system.now v task → is_marked marks.new v ≡ true) }
{
    unmark(marks);
    work.clear();
    work.push(task)?;
    mark_earlier(system, uses, marks, work)
}

// Marks just a task and those that come after it.
fn mark_from(
    system: &SharedSystem,
    uses: &UseTable,
    task: u32,
    marks: &mut [bool],
    work: &mut Vec<u32>,
) -> Result<(), NoMemory>
    requires uses { AreUses system.now uses.now }
    requires task { HasTask system.now task }
    requires len { length marks.old ≡ length system.now.tasks }
    ensures sound { OnOk result ((v : ℕ) → is_marked marks.new v ≡ true → (v ≡ task) ⊎ ComesAfter system.now task v) }
    ensures all { OnOk result ((v : ℕ) → (v ≡ task) ⊎ ComesAfter system.now task v → is_marked marks.new v ≡ true) }
{
    unmark(marks);
    marks[task as usize - 1] = true;
    work.clear();
    work.push(task)?;
    mark_later(system, uses, marks, work)
}

// Marks the other tasks of the set, and those that come before one of it.
fn mark_others(set: &SetMarks, task: u32, marks: &mut [bool])
    requires task { (1 ≤ task) × (task ≤ length marks.old) }
    requires beyond { length set.now.beyond.items ≡ length marks.old }
    requires all { length set.now.all.items ≡ length marks.old }
    ensures { (system : SharedTaskSystem) (tasks : List ℕ) → AreSetMarks system Last tasks set.now →
        (v : ℕ) → (is_marked marks.new v ≡ true) ↔ HasRun system Last tasks task v }
{
    marks.copy_from_slice(&set.all);
    let place = task as usize - 1;
    marks[place] = set.beyond[place];
}

impl Marks {
    /// Marks for so many tasks.
    pub fn new(alloc: Global, count: usize) -> Result<Marks, NoMemory>
        ensures { IfOk result (HaveLengths count) }
    {
        Ok(Marks {
            done: vec![in alloc; false; count]?,
            waiting: vec![in alloc; false; count]?,
            work: Vec::new(alloc),
        })
    }

    /// Marks which tasks have run for certain when this one of a set starts as the first of it, or as the last, and which wait for certain.
    pub fn mark(
        &mut self,
        system: &SharedSystem,
        uses: &UseTable,
        event: Event,
        set: &SetMarks,
        task: u32,
    ) -> Result<(), NoMemory>
        requires uses { AreUses system.now uses.now }
        requires task { HasTask system.now task }
        requires lengths { HaveLengths (length system.now.tasks) self.old }
        requires beyond { length set.now.beyond.items ≡ length system.now.tasks }
        requires all { length set.now.all.items ≡ length system.now.tasks }
        ensures { OnOk result ((tasks : List ℕ) → AreSetMarks system.now event tasks set.now →
            AreMarks system.now event tasks task self.new) }
    {
        match event {
            Event::First => {
                self.waiting.copy_from_slice(&set.all);
                mark_before(system, uses, task, &mut self.done, &mut self.work)
            }
            Event::Last => {
                mark_others(set, task, &mut self.done);
                mark_from(system, uses, task, &mut self.waiting, &mut self.work)
            }
        }
    }
}
