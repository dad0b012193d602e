//! Laws over the definitions: each contract is a law.
ghost use Rattle.std.specs.Prelude.{◌≡◌, ℕ, false, ◌*◌, ◌≤◌, ◌++◌, List, length};
ghost use Rattle.shared_systems.specs.SharedMemory.{shared_memory};
ghost use Rattle.activation.specs.declared.events.EventKind.{EventKind};
ghost use Rattle.activation.specs.declared.events.Event.{Event};
ghost use Rattle.activation.specs.Machine.{Setting, IsSetting, State, MayHappen, state_after, start_state, AllDone, booked_memory};
ghost use Rattle.activation.specs.Machine.{used_memory};
ghost use Rattle.activation.specs.Safe.{IsSafe};
ghost use Rattle.activation.specs.Changes.{IsChange};
ghost use Rattle.activation.specs.Runs.{AreLegal, state_after_all, IsWithinBound, HasNext, NoneRuns, CanBegin, AtMostOnce, EachOnce};
ghost use Rattle.activation.specs.Schedule.{HoldsEach, IsSchedule, first_moment};

use shared_systems::laws::order_law;

/// The start is safe; booked and used memory are there the items that no task produces.
pub fn start_law()
    ensures safe { (c : Setting) → IsSetting c → IsSafe c (start_state c) }
    ensures booked { (c : Setting) → booked_memory c (start_state c) ≡ shared_memory c.system (λ _. false) }
    ensures used { (c : Setting) → used_memory c (start_state c) ≡ shared_memory c.system (λ _. false) }
{}

/// Each event leads from a safe state to a safe one; an activation books the task's need, a start uses it, a finish frees it and what
/// the task is the last to read.
pub fn event_law()
    ensures kept { (c : Setting) → IsSetting c → (st : State) → IsSafe c st → (kind : EventKind) (t : ℕ) → MayHappen c st kind t →
        IsSafe c (state_after st kind t) }
    ensures change { (c : Setting) → IsSetting c → (st : State) → IsSafe c st → (kind : EventKind) (t : ℕ) → MayHappen c st kind t →
        IsChange c st kind t }
{}

/// Used memory is at most booked memory, and booked memory at most the bound, after every list of events that the machine has.
pub fn within_law()
    ensures { (c : Setting) → IsSetting c → (events : List Event) → AreLegal c (start_state c) events →
        IsWithinBound c (state_after_all (start_state c) events) }
{
    start_law();
    event_law();
}

/// A state in which not every task is done has an event: each safe one, and so each to which events lead from the start. Where no task
/// runs, that is an activation or a start: whoever activates and starts what may be, and waits only while a task runs, gets to the end.
pub fn progress_law()
    ensures safe { (c : Setting) → IsSetting c → (st : State) → IsSafe c st → (AllDone c st → ⊥) → HasNext c st }
    ensures run { (c : Setting) → IsSetting c → (events : List Event) → AreLegal c (start_state c) events →
        (AllDone c (state_after_all (start_state c) events) → ⊥) → HasNext c (state_after_all (start_state c) events) }
    ensures idle_safe { (c : Setting) → IsSetting c → (st : State) → IsSafe c st → NoneRuns st → (AllDone c st → ⊥) → CanBegin c st }
    ensures idle_run { (c : Setting) → IsSetting c → (events : List Event) → AreLegal c (start_state c) events →
        NoneRuns (state_after_all (start_state c) events) → (AllDone c (state_after_all (start_state c) events) → ⊥) →
        CanBegin c (state_after_all (start_state c) events) }
{
    start_law();
    event_law();
}

/// No task is activated, started or finished twice, and no list has more than three events for each task.
pub fn once_law()
    ensures once { (c : Setting) → IsSetting c → (events : List Event) → AreLegal c (start_state c) events → AtMostOnce events }
    ensures few { (c : Setting) → IsSetting c → (events : List Event) → AreLegal c (start_state c) events →
        length events ≤ 3 * length c.system.tasks }
{
    start_law();
    event_law();
    order_law();
}

/// A priority that holds each task once has at most one schedule. Its events are events of the machine; they are one activation, one
/// start and one finish of every task; and used memory is at most the bound in every state along them.
pub fn schedule_law()
    ensures one { (c : Setting) → IsSetting c → (priority : List ℕ) → HoldsEach c.system priority → (es fs : List Event) →
        IsSchedule c priority (first_moment c) es → IsSchedule c priority (first_moment c) fs → es ≡ fs }
    ensures legal { (c : Setting) (priority : List ℕ) (events : List Event) → IsSchedule c priority (first_moment c) events →
        AreLegal c (start_state c) events }
    ensures each_once { (c : Setting) → IsSetting c → (priority : List ℕ) (events : List Event) →
        IsSchedule c priority (first_moment c) events → EachOnce c events }
    ensures within { (c : Setting) → IsSetting c → (priority : List ℕ) (before rest : List Event) →
        IsSchedule c priority (first_moment c) (before ++ rest) → IsWithinBound c (state_after_all (start_state c) before) }
{
    start_law();
    event_law();
    within_law();
}
