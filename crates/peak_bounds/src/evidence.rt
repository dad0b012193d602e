ghost use Rattle.std.specs.Prelude.{◌≡◌};
ghost use Rattle.peak_bounds.specs.EventSets.{BlockerValue, EventSetValue};

use crate::step::Event;
use std::marker::Model;

/// What is told of the lowered size of a use of an item.
#[derive(Clone, Copy, Debug, PartialEq, Eq)]
pub struct Amount {
    /// The place of the use, counted from 1, in the order of the items and of the readers of each; an item without readers has one use.
    pub place: u32,
    /// The lowered size, from -2^60 to 2^60.
    pub amount: i64,
}

/// A task of a set, with the lowered sizes that differ from those of the set when this task starts.
#[derive(Drop)]
pub struct Blocker {
    task: u32,
    amounts: Vec<Amount>,
}

impl Model for Blocker {
    ghost Value = { BlockerValue };

    ghost view = { λ b. record { task = b.task; amounts = b.amounts.items } };
}

impl Blocker {
    /// A blocker of these parts. It takes no memory.
    pub fn new(task: u32, amounts: Vec<Amount>) -> Blocker
        ensures { result ≡ record { task = task; amounts = amounts.items } }
    {
        Blocker { task, amounts }
    }

    /// The task.
    pub fn task(&self) -> u32
        ensures { result ≡ self.now.task }
    {
        self.task
    }

    /// Its own lowered sizes.
    pub fn amounts(&self) -> &[Amount]
        ensures { result.now ≡ self.now.amounts }
    {
        &self.amounts
    }
}

/// Tasks of which in every traversal one starts first and one starts last, with lowered sizes for the moments at which they do.
#[derive(Drop)]
pub struct EventSet {
    event: Event,
    base: Vec<Amount>,
    blockers: Vec<Blocker>,
}

impl Model for EventSet {
    ghost Value = { EventSetValue };

    ghost view = { λ s. record { event = s.event; base = s.base.items; blockers = s.blockers.items } };
}

impl EventSet {
    /// A set of these parts. It takes no memory.
    pub fn new(event: Event, base: Vec<Amount>, blockers: Vec<Blocker>) -> EventSet
        ensures { result ≡ record { event = event; base = base.items; blockers = blockers.items } }
    {
        EventSet {
            event,
            base,
            blockers,
        }
    }

    /// Whether it is about the first of the tasks that starts, or about the last.
    pub fn event(&self) -> Event
        ensures { result ≡ self.now.event }
    {
        self.event
    }

    /// The lowered sizes where a blocker does not tell its own.
    pub fn base(&self) -> &[Amount]
        ensures { result.now ≡ self.now.base }
    {
        &self.base
    }

    /// The tasks, which rise.
    pub fn blockers(&self) -> &[Blocker]
        ensures { result.now ≡ self.now.blockers }
    {
        &self.blockers
    }
}

/// Evidence for a lower bound on the peak of every traversal.
#[derive(Drop)]
pub enum Evidence {
    /// What is there before any task has run.
    Start,
    /// What this task reads and needs.
    Need(u32),
    /// That one of these tasks starts first, or last.
    Set(EventSet),
}

/// What a blocker has to pass.
#[derive(Clone, Copy, Debug, PartialEq, Eq)]
pub enum BlockerTest {
    /// It is a task of the system.
    Task,
    /// It is above the one before.
    Rising,
    /// Its amounts are told of uses, the places of which rise, and are from -2^60 to 2^60.
    Amounts,
    /// The lowered sizes of each item's uses, those above 0, are together at most the size of the item.
    Sizes,
    /// No task that is neither done nor waiting takes up more than it leaves, in lowered sizes.
    Open,
    /// The memory while it runs, in lowered sizes, is at least the bound.
    Level,
}

/// What is said against evidence.
#[derive(Clone, Copy, Debug, PartialEq, Eq)]
pub enum Objection {
    /// It is the need of no task.
    NoTask,
    /// What is there before any task has run, or what the task reads and needs, is below the bound.
    Low,
    /// There is no blocker.
    Empty,
    /// The amounts of the set are not told of uses, the places of which rise, or are not from -2^60 to 2^60.
    Base,
    /// The first test that a blocker fails, with the first blocker, counted from 1, that fails it. The tests of tasks and amounts are each
    /// tried at all blockers, and then the others blocker by blocker.
    Blocker {
        /// The test.
        test: BlockerTest,
        /// The place of the blocker.
        place: u64,
    },
}
