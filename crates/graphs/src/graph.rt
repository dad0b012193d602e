ghost use Rattle.std.specs.Prelude.{◌≡◌, ◌≤◌, length, take};
ghost use Rattle.graphs.specs.Graph.{IsGraph, TaskGraph, completed_arcs};

use crate::arc::Arc;
use mp_system::Task;
use std::marker::Model;

/// A graph within the limits: at most 10^6 tasks, and at most 2,000,001 arcs once an arc leads into each task and out of it; each
/// size and time at most 2^40, all extras and sizes together at most 2^60. All tasks can be ordered, and all shares fit.
#[derive(Drop)]
pub struct Graph {
    tasks: Vec<Task>,
    // The arcs of the completed graph; the first ones are the graph's own.
    all: Vec<Arc>,
    own: usize,
}

impl Model for Graph {
    ghost use Rattle.std.specs.Prelude.{take};
    ghost use Rattle.graphs.specs.Graph.{TaskGraph, IsCompleted};

    ghost Value = { TaskGraph };

    ghost view = { λ g. record { tasks = g.tasks.items; arcs = take g.own g.all.items } };

    ghost invariant = { λ g. IsCompleted g.tasks.items g.all.items g.own };
}

impl Graph {
    // A graph, of its tasks and the arcs of its completed graph, of which so many are its own.
    pub(crate) fn new(tasks: Vec<Task>, all: Vec<Arc>, own: usize) -> Graph
        requires within { own ≤ length all.items }
        requires graph { IsGraph (record { tasks = tasks.items; arcs = take own all.items }) }
        requires completed { all.items ≡ completed_arcs (length tasks.items) (take own all.items) }
        ensures { result ≡ record { tasks = tasks.items; arcs = take own all.items } }
    {
        Graph { tasks, all, own }
    }

    /// What every value of this type keeps; a proof that needs it calls it. It does nothing.
    pub fn keeps(&self)
        ensures { IsGraph self.now }
    {
        let _ = &self.tasks;
    }

    /// The tasks; the first has the number 1.
    pub fn tasks(&self) -> &[Task]
        ensures value { result.now ≡ self.now.tasks }
        ensures graph { IsGraph self.now }
    {
        &self.tasks
    }

    /// The arcs, in the order in which they were given.
    pub fn arcs(&self) -> &[Arc]
        ensures value { result.now ≡ self.now.arcs }
        ensures graph { IsGraph self.now }
    {
        &self.all[..self.own]
    }

    /// The arcs of the completed graph: the graph's own, one of size 0 from none into each task without an arc into it, and one of
    /// size 0 to none out of each task without an arc out of it.
    pub fn completed_arcs(&self) -> &[Arc]
        ensures value { result.now ≡ completed_arcs (length self.now.tasks) self.now.arcs }
        ensures graph { IsGraph self.now }
    {
        &self.all
    }
}
