//! Whether fences forbid no run of a system: what they let a task wait for comes before it anyway, as it makes what the task reads, or what is
//! read by those who make that, and so on.

ghost use Rattle.std.specs.Prelude.{◌≡◌, ℕ, ◌+◌, ◌<◌, ◌≤◌, ◌^◌, All, length, slice_index, IsTrue, IfOk, IfSome, OnOk};
ghost use Rattle.row_table.specs.Rows.{row_at};
ghost use Rattle.shared_systems.specs.Shared.{SharedTaskSystem, HasTask, shared_item_at};
ghost use Rattle.shared_systems.specs.Paths.{ComesAfter};
ghost use Rattle.fences.specs.Before.{AreReadings, AreSharedPlaces, IsBefore, IsFound, IsImplied, IsReading, IsSearch, reading_at};
ghost use Rattle.fences.specs.Implied.{AreImplied};

use crate::NoMemory;
use crate::fenced::Fence;
use row_table::RowTable;
use row_table::laws::numbers_law;
use shared_systems::{SharedItems, SharedSystem};
use std::alloc::Global;

// How many tasks and readings are looked at for one fence, and how many more for each reader that is to be found.
const LOOKS: usize = 200;

const READER_LOOKS: usize = 4;

// A task reads the item at a place, from 0.
#[derive(Clone, Copy)]
struct Reading {
    item: u32,
    reader: u32,
}

// All readings, and by the numbers of the tasks which of them are theirs.
#[derive(Drop)]
struct Readings {
    all: Vec<Reading>,
    rows: RowTable,
}

// A search backwards from a task: those that were found, of which the first so many have been looked at; and for each task the last one from
// which it was found.
#[derive(Drop)]
struct Search {
    task: u32,
    found: Vec<u32>,
    next: usize,
    marks: Vec<u32>,
}

// The readings of the item at a place.
fn push_readings(all: &mut Vec<Reading>, system: &SharedSystem, i: usize) -> Result<(), NoMemory>
    requires item { i < length system.now.items }
    requires all { All (IsReading system.now) all.old.items }
    ensures all { OnOk result (All (IsReading system.now) all.new.items) }
    ensures many { OnOk result (length all.new.items ≡ length all.old.items + length (shared_item_at system.now.items i).readers) }
{
    for reader in system.items().readers(i) {
        all.push(Reading {
            item: i as u32,
            reader: *reader,
        })?;
    }
    Ok(())
}

// The readings of all items.
fn all_readings(alloc: Global, system: &SharedSystem) -> Result<Vec<Reading>, NoMemory>
    ensures all { IfOk result (λ all. All (IsReading system.now) all.items) }
    ensures few { IfOk result (λ all. length all.items < 2 ^ 32) }
{
    let mut all = Vec::new(alloc);
    for i in 0..system.items().len() {
        push_readings(&mut all, system, i)?;
    }
    Ok(all)
}

// Which readings are those of each task, by its number, which is below the count.
fn rows_of(alloc: Global, all: &[Reading], count: u32) -> Result<RowTable, NoMemory>
    requires below { All (λ reading. reading.reader < count) all.now }
    requires few { length all.now < 2 ^ 32 }
    ensures long { IfOk result (λ rows. length rows ≡ count) }
    ensures rows { IfOk result (λ rows. (v : ℕ) → v < count →
        All (λ k. (k < length all.now) × ((reading_at all.now k).reader ≡ v)) (row_at rows v)) }
{
    numbers_law();
    let readers: Vec<u32> = all.iter().map(|reading| reading.reader).collect(alloc)?;
    let rows = RowTable::group(alloc, &readers, count, 0)?;
    Ok(rows)
}

fn readings_of(alloc: Global, system: &SharedSystem) -> Result<Readings, NoMemory>
    ensures { IfOk result (AreReadings system.now) }
{
    let all = all_readings(alloc, system)?;
    let rows = rows_of(alloc, &all, system.tasks().len() as u32 + 1)?;
    Ok(Readings { all, rows })
}

// The places, from 0, of the items with several readers.
fn shared_places(alloc: Global, items: &SharedItems) -> Result<Vec<u32>, NoMemory>
    requires { length items.now < 2 ^ 32 }
    ensures { IfOk result (λ places. AreSharedPlaces items.now places.items) }
{
    let mut places = Vec::new(alloc);
    for i in 0..items.len() {
        if items.readers(i).len() > 1 {
            places.push(i as u32)?;
        }
    }
    Ok(places)
}

impl Readings {
    // The place of the item that is read.
    fn item(&self, k: u32) -> usize
        requires { k < length self.now.all.items }
        ensures { result ≡ (reading_at self.now.all.items k).item }
    {
        self.all[k as usize].item as usize
    }

    // How many items a task reads.
    fn count(&self, task: u32) -> usize
        requires { task < length self.now.rows }
        ensures { result ≡ length (row_at self.now.rows task) }
    {
        self.rows.row(task).len()
    }
}

impl Search {
    fn new(alloc: Global, system: &SharedSystem) -> Result<Search, NoMemory>
        ensures { IfOk result (IsSearch system.now) }
    {
        Ok(Search {
            task: 0,
            found: Vec::new(alloc),
            next: 0,
            marks: vec![in alloc; 0; system.tasks().len() + 1]?,
        })
    }

    // Begins at a task, if it does not go on from there.
    fn begin(&mut self, system: &SharedSystem, task: u32) -> Result<(), NoMemory>
        requires task { HasTask system.now task }
        requires search { IsSearch system.now self.old }
        ensures task { OnOk result (self.new.task ≡ task) }
        ensures search { OnOk result (IsSearch system.now self.new) }
    {
        if self.task != task {
            self.task = task;
            self.next = 0;
            self.found.clear();
            self.found.push(task)?;
        }
        Ok(())
    }

    // Finds who makes an item, if somebody does, and was not found before.
    fn find(&mut self, maker: Option<u32>) -> Result<(), NoMemory>
        requires { IfSome maker (λ u. u < length self.old.marks.items) }
        ensures task { self.new.task ≡ self.old.task }
        ensures search { (system : SharedTaskSystem) → IsSearch system self.old → IfSome maker (IsBefore system self.old.task) →
            OnOk result (IsSearch system self.new) }
    {
        let Some(task) = maker else {
            return Ok(());
        };
        if self.marks[task as usize] == self.task {
            return Ok(());
        }
        self.marks[task as usize] = self.task;
        self.found.push(task)?;
        Ok(())
    }

    // Finds those who make what a task reads that was found.
    fn look(
        &mut self,
        system: &SharedSystem,
        readings: &Readings,
        reader: u32,
    ) -> Result<(), NoMemory>
        requires readings { AreReadings system.now readings.now }
        requires reader { IsFound system.now self.old.task reader }
        requires search { IsSearch system.now self.old }
        ensures task { self.new.task ≡ self.old.task }
        ensures search { OnOk result (IsSearch system.now self.new) }
    {
        for k in readings.rows.row(reader) {
            let item = readings.item(*k);
            self.find(system.items().producer(item))?;
        }
        Ok(())
    }

    // The next one that is to be looked at.
    fn next_found(&self) -> Option<u32>
        ensures { (system : SharedTaskSystem) → IsSearch system self.now → IfSome result (IsFound system self.now.task) }
    {
        if self.next >= self.found.len() {
            return None;
        }
        Some(self.found[self.next])
    }

    // Looks at so many tasks and readings at most, those first that are fewer steps away.
    fn go_on(
        &mut self,
        system: &SharedSystem,
        readings: &Readings,
        looks: usize,
    ) -> Result<(), NoMemory>
        requires readings { AreReadings system.now readings.now }
        requires search { IsSearch system.now self.old }
        ensures task { self.new.task ≡ self.old.task }
        ensures search { OnOk result (IsSearch system.now self.new) }
    {
        let mut left = looks;
        for _ in 0..looks {
            let Some(reader) = self.next_found() else {
                break;
            };
            let more = readings.count(reader);
            if more >= left {
                break;
            }
            left = left - more - 1;
            self.next = self.next.saturating_add(1);
            self.look(system, readings, reader)?;
        }
        Ok(())
    }

    // Whether a task was found.
    fn is_marked(&self, task: u32) -> bool
        ensures { IsTrue result → slice_index self.now.marks.items task ≡ self.now.task }
    {
        (task as usize) < self.marks.len() && self.marks[task as usize] == self.task
    }

    // Whether all of these were.
    fn are_marked(&self, tasks: &[u32]) -> bool
        ensures { IsTrue result → All (λ u. slice_index self.now.marks.items u ≡ self.now.task) tasks.now }
    {
        for task in tasks {
            if !self.is_marked(*task) {
                return false;
            }
        }
        true
    }

    // Whether a task comes before the one from which the search began, as far as it goes.
    fn comes_before(
        &mut self,
        system: &SharedSystem,
        readings: &Readings,
        task: u32,
    ) -> Result<bool, NoMemory>
        requires readings { AreReadings system.now readings.now }
        requires task { 1 ≤ self.old.task }
        requires search { IsSearch system.now self.old }
        ensures before { IfOk result (λ yes. IsTrue yes → ComesAfter system.now task self.old.task) }
        ensures search { OnOk result (IsSearch system.now self.new) }
    {
        self.go_on(system, readings, LOOKS)?;
        Ok(self.is_marked(task))
    }

    // Whether all of these do.
    fn come_before(
        &mut self,
        system: &SharedSystem,
        readings: &Readings,
        tasks: &[u32],
    ) -> Result<bool, NoMemory>
        requires readings { AreReadings system.now readings.now }
        requires task { 1 ≤ self.old.task }
        requires search { IsSearch system.now self.old }
        ensures before { IfOk result (λ yes. IsTrue yes → All (λ u. ComesAfter system.now u self.old.task) tasks.now) }
        ensures search { OnOk result (IsSearch system.now self.new) }
    {
        let looks = tasks
            .len()
            .saturating_mul(READER_LOOKS)
            .saturating_add(LOOKS);
        self.go_on(system, readings, looks)?;
        Ok(self.are_marked(tasks))
    }
}

// Whether what a fence waits for comes before its task, as far as the search goes.
fn is_implied(
    system: &SharedSystem,
    readings: &Readings,
    places: &[u32],
    search: &mut Search,
    fence: Fence,
) -> Result<bool, NoMemory>
    requires readings { AreReadings system.now readings.now }
    requires places { AreSharedPlaces system.now.items places.now }
    requires search { IsSearch system.now search.old }
    ensures implied { IfOk result (λ yes. IsTrue yes → IsImplied system.now fence) }
    ensures search { OnOk result (IsSearch system.now search.new) }
{
    let count = system.tasks().len();
    if fence.from == 0 || fence.to == 0 || fence.to as usize > count {
        return Ok(false);
    }
    search.begin(system, fence.to)?;
    if fence.from as usize <= count {
        return search.comes_before(system, readings, fence.from);
    }
    let k = fence.from as usize - count - 1;
    if k >= places.len() {
        return Ok(false);
    }
    let readers = system.items().readers(places[k] as usize);
    search.come_before(system, readings, readers)
}

/// Whether the fences forbid no run of the system, as each of them lets a task wait only for tasks and joins that come before it anyway. Yes is
/// certain; no where it is not so, and where a search backwards from the task, over what makes the items that it reads, does not find the task, or
/// all readers before the join, among the few tasks that it looks at: so the whole is near linear. Fences to one task that stand one behind the
/// other go on with one search.
pub fn are_implied(alloc: Global, system: &SharedSystem, fences: &[Fence]) -> Result<bool, NoMemory>
    ensures { IfOk result (λ yes. IsTrue yes → AreImplied system.now fences.now) }
{
    let places = shared_places(alloc, system.items())?;
    let readings = readings_of(alloc, system)?;
    let mut search = Search::new(alloc, system)?;
    for i in 0..fences.len() {
        let implied = is_implied(system, &readings, &places, &mut search, fences[i])?;
        if !implied {
            return Ok(false);
        }
    }
    Ok(true)
}
