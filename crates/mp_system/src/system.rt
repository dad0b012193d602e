ghost use Rattle.std.specs.Prelude.{◌≡◌};
ghost use Rattle.mp_system.specs.System.{TaskSystem, IsSystem};
ghost use Rattle.mp_system.specs.Refusal.{word_of};

use std::fmt::{self, Display, Formatter, Write};
use std::marker::Model;

/// A task: what it needs while it runs. All three are sizes or times of at most 2^40, the time at least 1.
#[derive(Clone, Copy, Debug, PartialEq, Eq)]
pub struct Task {
    /// Memory that the task needs beside its inputs and outputs, while it runs.
    pub extra: u64,
    /// Memory that the task takes over from its inputs while it runs: at most its inputs, and at most its extra and outputs.
    pub share: u64,
    /// How long the task runs.
    pub time: u64,
}

/// A data item, with the task that produces it and the task that consumes it.
#[derive(Clone, Copy, Debug, PartialEq, Eq)]
pub struct Item {
    /// At most 2^40; 0 is a mere dependence.
    pub size: u64,
    /// The producer; without one the item is there from the start.
    pub from: Option<u32>,
    /// The consumer; without one the item stays to the end.
    pub to: Option<u32>,
}

/// Why a task can't come next in an order.
#[derive(Clone, Copy, Debug, PartialEq, Eq)]
pub enum OrderKind {
    /// It is no task's number.
    Unknown = 1,
    /// The task has run before.
    Repeated = 2,
    /// The task consumes an item, maybe one of size 0, whose producer has not run.
    TooEarly = 3,
    /// The order ends here, and not every task has run.
    Missing = 4,
}

impl OrderKind {
    /// The word for it in reports.
    pub fn word(self) -> &'static str
        ensures { result.now ≡ word_of self }
    {
        match self {
            OrderKind::Unknown => "unknown",
            OrderKind::Repeated => "repeated",
            OrderKind::TooEarly => "too-early",
            OrderKind::Missing => "missing",
        }
    }
}

impl Display for OrderKind {
    fn fmt<W: Write>(&self, f: &mut Formatter<W>) -> fmt::Result {
        f.write_str(self.word())
    }
}

/// Tasks and the items between them: no more tasks, items, and sizes in all than the limits `tasks`, `positions` and `total`.
#[derive(Drop)]
pub struct System {
    tasks: Vec<Task>,
    items: Vec<Item>,
}

impl Model for System {
    ghost Value = { TaskSystem };

    ghost view = { λ s. record { tasks = s.tasks.items; items = s.items.items } };

    ghost invariant = { λ s. IsSystem (record { tasks = s.tasks.items; items = s.items.items }) };
}

impl System {
    /// A system of these tasks and items.
    pub fn new(tasks: Vec<Task>, items: Vec<Item>) -> System
        requires { IsSystem (record { tasks = tasks.items; items = items.items }) }
        ensures { result ≡ record { tasks = tasks.items; items = items.items } }
    {
        System { tasks, items }
    }

    /// What every value of this type keeps; a proof that needs it calls it. It does nothing.
    pub fn keeps(&self)
        ensures { IsSystem self.now }
    {
        let _ = &self.tasks;
    }

    /// The tasks; the first has the number 1.
    pub fn tasks(&self) -> &[Task]
        ensures value { result.now ≡ self.now.tasks }
        ensures system { IsSystem self.now }
    {
        &self.tasks
    }

    /// The items.
    pub fn items(&self) -> &[Item]
        ensures value { result.now ≡ self.now.items }
        ensures system { IsSystem self.now }
    {
        &self.items
    }
}
