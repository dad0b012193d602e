ghost use Rattle.std.specs.Prelude.{◌≡◌};
ghost use Rattle.activation.specs.Machine.{is_running_phase, is_done_phase};

/// What a task is doing. The machine's states name it.
#[derive(Clone, Copy)]
pub enum Phase {
    /// The task has not started.
    Idle,
    /// It has started, and is not done.
    Running,
    /// It is done.
    Done,
}

impl Phase {
    /// Whether the task runs.
    pub fn is_running(self) -> bool
        ensures { result ≡ is_running_phase self }
    {
        matches!(self, Phase::Running)
    }

    /// Whether the task is done.
    pub fn is_done(self) -> bool
        ensures { result ≡ is_done_phase self }
    {
        matches!(self, Phase::Done)
    }
}

/// What can happen to a task.
#[derive(Clone, Copy, Debug, PartialEq, Eq)]
pub enum EventKind {
    /// Its memory is booked.
    Activate,
    /// A worker starts it.
    Start,
    /// It ends, and its worker is free.
    Finish,
}

/// An event of a run: the moment, what happens, and the task, from 1.
#[derive(Clone, Copy, Debug, PartialEq, Eq)]
pub struct Event {
    pub time: u64,
    pub kind: EventKind,
    pub task: u32,
}
