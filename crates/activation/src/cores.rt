ghost use Rattle.std.specs.Prelude.{◌≡◌, ◌≢◌, ◌==◌, nat_eq, ◌*◌, ◌<◌, ◌≤◌, ℕ, true, false, if◌then◌else◌, [], length, slice_index};
ghost use Rattle.std.specs.Prelude.{slice_index_or, count_by, vec_capacity, IfOk, IfErr, IsTrue, IfSome, IfNone, ◌↔◌};
ghost use Rattle.std.specs.Bool.{OnTrue, OnFalse};
ghost use Rattle.std.specs.List.{IsDistinct};
ghost use Rattle.limits.specs.Limits.{most_time, most_workers};
ghost use Rattle.shared_systems.specs.Shared.{HasTask, shared_task_at};
ghost use Rattle.shared_systems.specs.OneReader.{shared_of};
ghost use Rattle.shared_systems.specs.SharedMemory.{shared_peak_of};
ghost use Rattle.mp_system.specs.Memory.{stands_in};
ghost use Rattle.shared_systems.specs.SharedTraversal.{IsSharedTraversal};
ghost use Rattle.activation.specs.Machine.{CoreValue, IsSetting, MayActivate, MayStart, MayFinish, state_after, start_state, is_running};
ghost use Rattle.activation.specs.Machine.{is_done, booked_memory, used_memory};
ghost use Rattle.activation.specs.Safe.{IsSafe};
ghost use Rattle.activation.specs.Schedule.{StandsBefore};
ghost use Rattle.activation.specs.Refusal.{IsCoreRefusal};
ghost use Rattle.activation.specs.Tables.{AreCoreTables, IsNumbering, is_startable, is_edge};

use crate::NoMemory;
use crate::consumers::consumer_rows;
use crate::events::{Event, EventKind, Phase};
use crate::laws::{event_law, start_law};
use crate::places::{is_number, places_of};
use crate::rank_set::RankSet;
use crate::readings::{readings_of, take_readers};
use crate::refusal::CoreRefusal;
use crate::running::RunningTasks;
use crate::start::{start_memory, times_of};
use crate::sums::needs_of;
use crate::waiting::{list_ready, release, waiting_of};
use mp_system::{System, replay};
use row_table::RowTable;
use shared_systems::SharedSystem;
use shared_systems::laws::{one_reader_law, one_reader_system_law, order_law};
use std::alloc::Global;
use std::marker::Model;
use std::snapshot::Snapshot;

/// The activation core of a system, an order, a bound on memory and so many workers. Whoever runs the tasks embeds it: it activates the
/// next task where its need fits, and starts and finishes the tasks that it is told, where they may. All its calls but `new` take no
/// memory. Agullo et al. 2016.
#[derive(Drop)]
pub struct Core {
    // The system, for contracts alone: it takes no memory.
    system: Snapshot<SharedSystem>,
    order: Vec<u32>,
    bound: u64,
    workers: u32,
    // By the places of the order, along which the tasks are activated, and mostly started and finished.
    times: Vec<u64>,
    needs: Vec<u64>,
    frees: Vec<u64>,
    consumers: RowTable,
    waiting: Vec<u64>,
    startable: RankSet,
    readings: RowTable,
    // By the items with several readers, which are numbered from 0.
    left: Vec<u32>,
    sizes: Vec<u64>,
    // By the tasks.
    places: Vec<u32>,
    phases: Vec<Phase>,
    activated: usize,
    running: RunningTasks,
    booked: u64,
    used: u64,
}

impl Model for Core {
    ghost Value = { CoreValue };

    ghost view = { λ m. record {
      setting = record { system = m.system.value; order = m.order.items; bound = m.bound; workers = m.workers };
      state = record { activated = m.activated; phases = m.phases.items };
    } };

    ghost invariant = { λ m. AreCoreTables
        (record { system = m.system.value; order = m.order.items; bound = m.bound; workers = m.workers })
        (record { activated = m.activated; phases = m.phases.items })
        (record {
          fixed = record {
            times = m.times.items;
            needs = m.needs.items;
            frees = m.frees.items;
            places = m.places.items;
            consumers = m.consumers;
            readings = m.readings;
            sizes = m.sizes.items;
          };
          waiting = m.waiting.items;
          startable = m.startable;
          left = m.left.items;
          running = m.running;
          booked = m.booked;
          used = m.used;
        }) };
}

impl Core {
    /// The core at its start. The order is one of activation: a traversal whose peak is within the bound.
    /// There are 1 to 4,096 workers. Near linear in the tasks, the items and
    /// the readers of all items.
    pub fn new(
        alloc: Global,
        system: &SharedSystem,
        order: &[u32],
        bound: u64,
        workers: u32,
    ) -> Result<Core, CoreRefusal>
        requires { (1 ≤ workers) × (workers ≤ most_workers) }
        ensures setting { IfOk result (λ core.
            core.setting ≡ record { system = system.now; order = order.now; bound = bound; workers = workers }) }
        ensures start { IfOk result (λ core. core.state ≡ start_state core.setting) }
        ensures within { IfOk result (λ core. IsSetting core.setting) }
        ensures refused { IfErr result (IsCoreRefusal system.now order.now bound) }
    {
        let peak = system.peak(alloc, order)?;
        if bound < peak {
            return Err(CoreRefusal::BoundBelow { bound, peak });
        }
        Ok(Core::at_start(alloc, system, order, bound, workers)?)
    }

    /// The core at its start, as [`new`](Core::new) gives it, of a system in which each item has at most one consumer. It makes the shared
    /// system only once the order is known to be a traversal.
    pub fn of_system(
        alloc: Global,
        system: &System,
        order: &[u32],
        bound: u64,
        workers: u32,
    ) -> Result<Core, CoreRefusal>
        requires { (1 ≤ workers) × (workers ≤ most_workers) }
        ensures setting { IfOk result (λ core.
            core.setting ≡ record { system = shared_of system.now; order = order.now; bound = bound; workers = workers }) }
        ensures start { IfOk result (λ core. core.state ≡ start_state core.setting) }
        ensures within { IfOk result (λ core. IsSetting core.setting) }
        ensures refused { IfErr result (IsCoreRefusal (shared_of system.now) order.now bound) }
    {
        one_reader_law();
        one_reader_system_law();
        system.keeps();
        let peak = replay(alloc, system, order)?;
        if bound < peak {
            return Err(CoreRefusal::BoundBelow { bound, peak });
        }
        let shared = SharedSystem::of_system(alloc, system)?;
        Ok(Core::at_start(alloc, &shared, order, bound, workers)?)
    }

    // The core of a setting at its start.
    fn at_start(
        alloc: Global,
        system: &SharedSystem,
        order: &[u32],
        bound: u64,
        workers: u32,
    ) -> Result<Core, NoMemory>
        requires traversal { IsSharedTraversal system.now order.now }
        requires bound { shared_peak_of system.now order.now ≤ bound }
        requires workers { (1 ≤ workers) × (workers ≤ most_workers) }
        ensures setting { IfOk result (λ m.
            m.setting ≡ record { system = system.now; order = order.now; bound = bound; workers = workers }) }
        ensures start { IfOk result (λ m. m.state ≡ start_state m.setting) }
    {
        start_law();
        order_law();
        let count = system.tasks().len();
        let times = times_of(alloc, system, order)?;
        let needs = needs_of(alloc, system, order)?;
        let waiting = waiting_of(alloc, system, order)?;
        let places = places_of(alloc, system, order)?;
        let startable = RankSet::new(alloc, count)?;
        let consumers = consumer_rows(alloc, system, &places)?;
        let readings = readings_of(alloc, system, &places)?;
        let running = RunningTasks::new(alloc, workers as usize, count)?;
        let phases = vec![in alloc; Phase::Idle; count]?;
        let memory = start_memory(system);
        let order = Vec::from_slice(alloc, order)?;
        Ok(Core {
            system: Snapshot::of(system),
            order,
            bound,
            workers,
            times,
            needs: needs.needs,
            frees: needs.frees,
            consumers,
            waiting,
            startable,
            readings: readings.rows,
            left: readings.left,
            sizes: readings.sizes,
            places,
            phases,
            activated: 0,
            running,
            booked: memory,
            used: memory,
        })
    }

    /// Activates the next task of the order, where its need fits under the bound beside what is booked.
    pub fn activate(&mut self) -> Option<u32>
        ensures setting { self.new.setting ≡ self.old.setting }
        ensures some { IfSome result (λ t. MayActivate self.old.setting self.old.state t) }
        ensures next { IfSome result (λ t. self.new.state ≡ state_after self.old.state EventKind.Activate t) }
        ensures none { IfNone result ((t : ℕ) → MayActivate self.old.setting self.old.state t → ⊥) }
        ensures unchanged { IfNone result (self.new ≡ self.old) }
    {
        event_law();
        let place = self.activated;
        if place == self.order.len() {
            return None;
        }
        let task = self.order[place];
        let need = self.needs[place];
        if self.bound - self.booked < need {
            return None;
        }
        self.activated += 1;
        self.booked += need;
        self.startable.put(place, self.waiting[place] == 0);
        Some(task)
    }

    /// Whether the task at a place of the order may start as soon as a worker is free.
    pub(crate) fn is_startable(&self, place: u32) -> bool
        requires { place < length self.now.setting.order }
        ensures { result ≡ is_startable self.now.setting self.now.state (slice_index self.now.setting.order place) }
    {
        self.startable.has(place as usize)
    }

    // Whether it may start now.
    fn may_start_at(&self, place: u32) -> bool
        requires { place < length self.now.setting.order }
        ensures { IsTrue result ↔ MayStart self.now.setting self.now.state (slice_index self.now.setting.order place) }
    {
        self.running.has_room() && self.is_startable(place)
    }

    /// Whether a task may start now: `start` answers yes just then.
    pub fn may_start(&self, task: u32) -> bool
        ensures { IsTrue result ↔ MayStart self.now.setting self.now.state task }
    {
        is_number(task, self.phases.len()) && self.may_start_at(self.place_of(task))
    }

    /// Of the tasks that may start now the one that stands first in the order. Until something is started, finished or activated it is
    /// the same. So whoever activates while a task may be, starts what this tells while it tells any, and then waits for a task to
    /// finish, needs no list of tasks. In constant time.
    pub fn next_startable(&self) -> Option<u32>
        ensures task { IfSome result (HasTask self.now.setting.system) }
        ensures some { IfSome result (MayStart self.now.setting self.now.state) }
        ensures first { IfSome result (λ t. (u : ℕ) → MayStart self.now.setting self.now.state u → u ≢ t →
            StandsBefore self.now.setting.order t u) }
        ensures none { IfNone result ((t : ℕ) → MayStart self.now.setting self.now.state t → ⊥) }
    {
        if !self.running.has_room() {
            return None;
        }
        let place = self.startable.first()?;
        Some(self.order[place])
    }

    /// Starts the task at a place of the order, where it may start.
    pub(crate) fn start_at(&mut self, place: u32) -> bool
        requires { place < length self.old.setting.order }
        ensures setting { self.new.setting ≡ self.old.setting }
        ensures legal { IsTrue result ↔ MayStart self.old.setting self.old.state (slice_index self.old.setting.order place) }
        ensures next { OnTrue result (self.new.state ≡ state_after self.old.state EventKind.Start
            (slice_index self.old.setting.order place)) }
        ensures unchanged { OnFalse result (self.new ≡ self.old) }
    {
        event_law();
        if !self.may_start_at(place) {
            return false;
        }
        let task = self.order[place as usize];
        let need = self.needs[place as usize];
        self.phases[task as usize - 1] = Phase::Running;
        self.running.add(task);
        self.used += need;
        self.startable.put(place as usize, false);
        true
    }

    /// Starts an activated task whose suppliers are done, where a worker is free.
    pub fn start(&mut self, task: u32) -> bool
        ensures setting { self.new.setting ≡ self.old.setting }
        ensures legal { IsTrue result ↔ MayStart self.old.setting self.old.state task }
        ensures next { OnTrue result (self.new.state ≡ state_after self.old.state EventKind.Start task) }
        ensures unchanged { OnFalse result (self.new ≡ self.old) }
    {
        if !is_number(task, self.phases.len()) {
            return false;
        }
        let place = self.place_of(task);
        self.start_at(place)
    }

    /// Ends the task at a place of the order, where it runs.
    pub(crate) fn finish_at(&mut self, place: u32) -> bool
        requires { place < length self.old.setting.order }
        ensures setting { self.new.setting ≡ self.old.setting }
        ensures legal { IsTrue result ↔ MayFinish self.old.setting self.old.state (slice_index self.old.setting.order place) }
        ensures next { OnTrue result (self.new.state ≡ state_after self.old.state EventKind.Finish
            (slice_index self.old.setting.order place)) }
        ensures unchanged { OnFalse result (self.new ≡ self.old) }
    {
        event_law();
        let task = self.order[place as usize];
        let at = task as usize - 1;
        if !self.phases[at].is_running() {
            return false;
        }
        let fixed = self.frees[place as usize];
        let last_read = take_readers(self.readings.row(place), &self.sizes, &mut self.left);
        let frees = fixed + last_read;
        self.phases[at] = Phase::Done;
        self.running.remove(task);
        self.booked -= frees;
        self.used -= frees;
        let consumers = self.consumers.row(place);
        release(consumers, &mut self.waiting);
        list_ready(
            consumers,
            &self.waiting,
            self.activated,
            &mut self.startable,
        );
        true
    }

    /// Ends a running task. An item that it reads goes if all its other readers are done. Linear in the readers of what it makes and in the
    /// items with several readers that it reads.
    pub fn finish(&mut self, task: u32) -> bool
        ensures setting { self.new.setting ≡ self.old.setting }
        ensures legal { IsTrue result ↔ MayFinish self.old.setting self.old.state task }
        ensures next { OnTrue result (self.new.state ≡ state_after self.old.state EventKind.Finish task) }
        ensures unchanged { OnFalse result (self.new ≡ self.old) }
    {
        if !is_number(task, self.phases.len()) {
            return false;
        }
        let place = self.place_of(task);
        self.finish_at(place)
    }

    /// Used memory: the items that are present, and the needs of the running tasks.
    pub fn used(&self) -> u64
        ensures { result ≡ used_memory self.now.setting self.now.state }
    {
        self.used
    }

    /// Booked memory: the items that are present, and the needs of the activated tasks that are not done.
    pub fn booked(&self) -> u64
        ensures { result ≡ booked_memory self.now.setting self.now.state }
    {
        self.booked
    }

    /// How many tasks are activated.
    pub fn activated(&self) -> u32
        ensures { result ≡ self.now.state.activated }
    {
        order_law();
        self.activated as u32
    }

    /// The running tasks, each once, in any order.
    pub fn running(&self) -> &[u32]
        ensures once { IsDistinct nat_eq result.now }
        ensures each { (t : ℕ) → stands_in result.now t ≡ is_running self.now.state t }
    {
        self.running.as_slice()
    }

    /// Whether a task is done; a number that is no task's is not.
    pub fn is_done(&self, task: u32) -> bool
        ensures { result ≡ is_done self.now.state task }
    {
        is_number(task, self.phases.len()) && self.phases[task as usize - 1].is_done()
    }

    /// What every core keeps; a proof that needs it calls it. It does nothing.
    pub fn keeps(&self)
        // the order is a traversal whose peak is within the bound, and there is a worker
        ensures setting { IsSetting self.now.setting }
        ensures few_workers { self.now.setting.workers ≤ most_workers }
        // running and done tasks are activated and ready, no more tasks run than there are workers, and memory is within the bound
        ensures safe { IsSafe self.now.setting self.now.state }
    {
        let _ = &self.order;
    }

    /// How many tasks there are.
    pub(crate) fn tasks(&self) -> usize
        ensures { result ≡ length self.now.setting.system.tasks }
    {
        self.phases.len()
    }

    /// How many workers there are.
    pub(crate) fn workers(&self) -> usize
        ensures { result ≡ self.now.setting.workers }
    {
        self.workers as usize
    }

    /// The task that stands at this place of the order, counted from 0.
    pub(crate) fn task_at(&self, place: u32) -> u32
        requires { place < length self.now.setting.order }
        ensures { result ≡ slice_index self.now.setting.order place }
    {
        self.order[place as usize]
    }

    /// Where a task stands in the order, counted from 0.
    pub(crate) fn place_of(&self, task: u32) -> u32
        requires { HasTask self.now.setting.system task }
        ensures within { result < length self.now.setting.order }
        ensures there { slice_index self.now.setting.order result ≡ task }
    {
        self.places[task as usize - 1]
    }

    /// How long the task at a place of the order takes.
    pub(crate) fn time_at(&self, place: u32) -> u64
        requires { place < length self.now.setting.order }
        ensures time { result ≡ (shared_task_at self.now.setting.system (slice_index self.now.setting.order place)).time }
        ensures long { result ≤ most_time }
    {
        self.times[place as usize]
    }

    /// Puts the rank of a place of the order into the set of those whose tasks are startable, or takes it out.
    pub(crate) fn refresh(&self, place: u32, ranks: &[u32], ready: &mut RankSet)
        requires place { place < length self.now.setting.order }
        requires ranks { IsNumbering (length self.now.setting.order) ranks.now }
        requires long { length ready.old ≡ length self.now.setting.order }
        ensures long { length ready.new ≡ length ready.old }
        ensures marks { (k : ℕ) → k < length self.now.setting.order → slice_index_or ready.new (slice_index ranks.now k) false
            ≡ (if place == k then is_startable self.now.setting self.now.state (slice_index self.now.setting.order k)
            else slice_index_or ready.old (slice_index ranks.now k) false) }
    {
        ready.put(ranks[place as usize] as usize, self.is_startable(place));
    }

    /// Does so for the places of the tasks that consume an output of the task at this one.
    pub(crate) fn refresh_consumers(&self, place: u32, ranks: &[u32], ready: &mut RankSet)
        requires place { place < length self.now.setting.order }
        requires ranks { IsNumbering (length self.now.setting.order) ranks.now }
        requires long { length ready.old ≡ length self.now.setting.order }
        ensures long { length ready.new ≡ length ready.old }
        ensures consumers { (k : ℕ) → k < length self.now.setting.order →
            0 < count_by (is_edge (slice_index self.now.setting.order place) (slice_index self.now.setting.order k))
            self.now.setting.system.items →
            slice_index_or ready.new (slice_index ranks.now k) false
            ≡ is_startable self.now.setting self.now.state (slice_index self.now.setting.order k) }
        ensures others { (k : ℕ) → k < length self.now.setting.order →
            count_by (is_edge (slice_index self.now.setting.order place) (slice_index self.now.setting.order k))
            self.now.setting.system.items ≡ 0 →
            slice_index_or ready.new (slice_index ranks.now k) false ≡ slice_index_or ready.old (slice_index ranks.now k) false }
    {
        for consumer in self.consumers.row(place) {
            self.refresh(*consumer, ranks, ready);
        }
    }
}
