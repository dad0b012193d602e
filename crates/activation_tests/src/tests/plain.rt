//! A plain, slow simulator, straight from the rule: lists of tasks, and a look at every task for each event.

ghost use Rattle.std.specs.Prelude.{◌<◌, length};

use activation::{Event, EventKind, NoMemory, Trace};
use mp_system::Task;
use shared_systems::{SharedItems, SharedSystem};
use std::alloc::Global;

/// What a run is given.
#[derive(Clone, Copy)]
pub struct Given<'a> {
    pub system: &'a SharedSystem,
    pub order: &'a [u32],
    pub bound: u64,
    pub workers: u32,
    pub priority: &'a [u32],
}

// A run between two events: each running task with the moment at which it is due.
#[derive(Drop)]
struct PlainRun {
    time: u64,
    activated: Vec<u32>,
    running: Vec<(u32, u64)>,
    done: Vec<u32>,
}

// Whether an item is there: its producer is done, and not all of its readers are.
fn is_held(items: &SharedItems, i: usize, done: &[u32]) -> bool
    requires { i < length items.now }
{
    let readers = items.readers(i);
    items.producer(i).is_none_or(|task| done.contains(&task))
        && (readers.is_empty() || !readers.iter().all(|task| done.contains(task)))
}

fn task_of(system: &SharedSystem, number: u32) -> Option<Task> {
    system.tasks().get(number.checked_sub(1)? as usize).copied()
}

// What a task needs while it runs, beside the items that are there.
fn need(system: &SharedSystem, number: u32) -> u64 {
    let Some(task) = task_of(system, number) else {
        return 0;
    };
    let mut sum = task.extra;
    let items = system.items();
    for i in 0..items.len() {
        if items.producer(i) == Some(number) {
            sum = sum.saturating_add(items.size(i));
        }
    }
    sum.saturating_sub(task.share)
}

impl PlainRun {
    fn due(&self, task: u32) -> Option<u64> {
        self.running.iter().find(|it| it.0 == task).map(|it| it.1)
    }

    fn is_ready(&self, system: &SharedSystem, task: u32) -> bool {
        let items = system.items();
        for i in 0..items.len() {
            let made = items
                .producer(i)
                .is_none_or(|from| self.done.contains(&from));
            if items.readers(i).contains(&task) && !made {
                return false;
            }
        }
        true
    }

    // The items that are present, and what these tasks need.
    fn memory(&self, system: &SharedSystem, tasks: &[u32]) -> u64 {
        let mut sum: u64 = 0;
        let items = system.items();
        for i in 0..items.len() {
            if is_held(items, i, &self.done) {
                sum = sum.saturating_add(items.size(i));
            }
        }
        for task in tasks {
            sum = sum.saturating_add(need(system, *task));
        }
        sum
    }

    fn used(&self, alloc: Global, system: &SharedSystem) -> Result<u64, NoMemory> {
        let running: Vec<u32> = self.running.iter().map(|it| it.0).collect(alloc)?;
        Ok(self.memory(system, &running))
    }

    fn booked(&self, alloc: Global, system: &SharedSystem) -> Result<u64, NoMemory> {
        let mut left = Vec::from_slice(alloc, &self.activated)?;
        left.retain(|task| !self.done.contains(task));
        Ok(self.memory(system, &left))
    }

    // The first task of the order that is due now.
    fn next_due(&self, given: Given) -> Option<u32> {
        let mut order = given.order.iter().copied();
        order.find(|task| self.due(*task).is_some_and(|due| due <= self.time))
    }

    // The next task of the order, where its need fits.
    fn next_fitting(&self, alloc: Global, given: Given) -> Result<Option<u32>, NoMemory> {
        let Some(task) = given.order.get(self.activated.len()) else {
            return Ok(None);
        };
        let booked = self.booked(alloc, given.system)?;
        let after = booked.saturating_add(need(given.system, *task));
        Ok((after <= given.bound).then_some(*task))
    }

    fn may_start(&self, given: Given, task: u32) -> bool {
        self.activated.contains(&task)
            && !self.done.contains(&task)
            && self.due(task).is_none()
            && self.is_ready(given.system, task)
            && (self.running.len() as u64) < u64::from(given.workers)
    }

    fn finish_next(&mut self, given: Given) -> Result<Option<u32>, NoMemory> {
        let next = self.next_due(given);
        if let Some(task) = next {
            self.running.retain(|it| it.0 != task);
            self.done.push(task)?;
        }
        Ok(next)
    }

    fn activate_next(&mut self, alloc: Global, given: Given) -> Result<Option<u32>, NoMemory> {
        let next = self.next_fitting(alloc, given)?;
        if let Some(task) = next {
            self.activated.push(task)?;
        }
        Ok(next)
    }

    fn start_next(&mut self, given: Given) -> Result<Option<u32>, NoMemory> {
        let mut priority = given.priority.iter().copied();
        let next = priority.find(|task| self.may_start(given, *task));
        if let Some(task) = next {
            let time = task_of(given.system, task).map_or(0, |it| it.time);
            self.running.push((task, self.time.saturating_add(time)))?;
        }
        Ok(next)
    }

    // What happens next at this moment, and to which task; none where nothing does.
    fn step(&mut self, alloc: Global, given: Given) -> Result<Option<(EventKind, u32)>, NoMemory> {
        if let Some(task) = self.finish_next(given)? {
            return Ok(Some((EventKind::Finish, task)));
        }
        if let Some(task) = self.activate_next(alloc, given)? {
            return Ok(Some((EventKind::Activate, task)));
        }
        let started = self.start_next(given)?;
        Ok(started.map(|task| (EventKind::Start, task)))
    }

    // Notes the memory of this moment.
    fn note(
        &self,
        alloc: Global,
        system: &SharedSystem,
        trace: &mut Trace,
    ) -> Result<(), NoMemory> {
        trace.used = trace.used.max(self.used(alloc, system)?);
        trace.booked = trace.booked.max(self.booked(alloc, system)?);
        Ok(())
    }

    // Goes on to the moment at which a task is due next; whether there is one.
    fn wait(&mut self) -> bool {
        let due = self.running.iter().map(|it| it.1).min();
        self.time = due.unwrap_or(self.time);
        due.is_some()
    }

    // Goes on by an event or to the next moment; false at the end.
    fn advance(
        &mut self,
        alloc: Global,
        given: Given,
        trace: &mut Trace,
    ) -> Result<bool, NoMemory> {
        let Some((kind, task)) = self.step(alloc, given)? else {
            return Ok(self.wait());
        };
        let time = self.time;
        trace.events.push(Event { time, kind, task })?;
        self.note(alloc, given.system, trace)?;
        Ok(true)
    }
}

/// The run of a small system, which has a hundred events and moments at most.
pub fn plain_run(alloc: Global, given: Given) -> Result<Trace, NoMemory> {
    let mut run = PlainRun {
        time: 0,
        activated: Vec::new(alloc),
        running: Vec::new(alloc),
        done: Vec::new(alloc),
    };
    let mut trace = Trace {
        makespan: 0,
        used: 0,
        booked: 0,
        events: Vec::new(alloc),
    };
    run.note(alloc, given.system, &mut trace)?;
    for _ in 0..100 {
        if !run.advance(alloc, given, &mut trace)? {
            break;
        }
    }
    trace.makespan = run.time;
    Ok(trace)
}
