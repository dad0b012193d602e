ghost use Rattle.std.specs.Prelude.{◌≡◌};
ghost use Rattle.shared_systems.specs.Bounds.{IsSharedSystem};

use crate::items::SharedItems;
use mp_system::Task;
use std::marker::Model;

/// Tasks, and items that any number of tasks may read: at most 10^6 tasks, 4,000,001 items and 10^7 readers of all items together; each size
/// and time at most 2^40, all extras and sizes together at most 2^60. All tasks can be ordered, and all shares fit.
#[derive(Drop)]
pub struct SharedSystem {
    tasks: Vec<Task>,
    items: SharedItems,
}

impl Model for SharedSystem {
    ghost use Rattle.shared_systems.specs.Shared.{SharedTaskSystem};
    ghost use Rattle.shared_systems.specs.Bounds.{IsSharedSystem};

    ghost Value = { SharedTaskSystem };

    ghost view = { λ s. record { tasks = s.tasks.items; items = s.items } };

    ghost invariant = { λ s. IsSharedSystem (record { tasks = s.tasks.items; items = s.items }) };
}

impl SharedSystem {
    /// A system of these tasks and items.
    pub fn new(tasks: Vec<Task>, items: SharedItems) -> SharedSystem
        requires { IsSharedSystem (record { tasks = tasks.items; items = items }) }
        ensures { result ≡ record { tasks = tasks.items; items = items } }
    {
        SharedSystem { tasks, items }
    }

    /// What every value of this type keeps; a proof that needs it calls it. It does nothing.
    pub fn keeps(&self)
        ensures { IsSharedSystem self.now }
    {
        let _ = &self.tasks;
    }

    /// The tasks; the first has the number 1.
    pub fn tasks(&self) -> &[Task]
        ensures value { result.now ≡ self.now.tasks }
        ensures system { IsSharedSystem self.now }
    {
        &self.tasks
    }

    /// The items.
    pub fn items(&self) -> &SharedItems
        ensures value { result.now ≡ self.now.items }
        ensures system { IsSharedSystem self.now }
    {
        &self.items
    }
}
