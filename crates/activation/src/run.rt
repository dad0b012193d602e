ghost use Rattle.std.specs.Prelude.{◌≡◌, ◌*◌, ◌≤◌, ◌<◌, ℕ, false, length, map, slice_index, IfSome, IfNone};
ghost use Rattle.shared_systems.specs.Shared.{HasTask};
ghost use Rattle.activation.specs.declared.events.Phase.TheVariants.{Running as IsRunning};
ghost use Rattle.activation.specs.Machine.{IsSetting, phase_in, start_state, used_memory, booked_memory, AllDone};
ghost use Rattle.activation.specs.Safe.{IsSafe};
ghost use Rattle.activation.specs.Tables.{is_startable};
ghost use Rattle.activation.specs.Schedule.{HoldsEach, task_entry, moment_after, first_moment, ComesNext, NoneDue, NoneActivates};
ghost use Rattle.activation.specs.Schedule.{NoneStarts};
ghost use Rattle.activation.specs.Run.{RunValue, IsRun, event_count, IsRoom, IsNextDue, IsFirstStartable, run_tables};

use crate::clock::Due;
use crate::cores::Core;
use crate::events::{Event, EventKind};
use crate::laws::{event_law, progress_law};
use crate::room::{Room, write_ranks};
use shared_systems::laws::order_law;
use std::marker::Model;

/// A run in simulated time, between two events.
#[derive(Drop)]
pub struct Run {
    core: Core,
    room: Room,
    time: u64,
}

impl Model for Run {
    ghost Value = { RunValue };

    ghost view = { λ r. record {
      setting = r.core.setting;
      priority = map (slice_index r.core.setting.order) r.room.priority.items;
      moment = record { state = r.core.state; time = r.time; dues = r.room.dues.items };
    } };

    ghost invariant = { λ r. IsRun r.core.setting r.core.state r.time (run_tables r.room) };
}

impl Run {
    /// The run at moment 0, before any event.
    pub fn new(core: Core, room: Room, priority: &[u32]) -> Run
        requires start { core.state ≡ start_state core.setting }
        requires room { IsRoom core.setting (run_tables room) }
        requires priority { HoldsEach core.setting.system priority.now }
        ensures setting { result.setting ≡ core.setting }
        ensures priority { result.priority ≡ priority.now }
        ensures moment { result.moment ≡ first_moment core.setting }
    {
        core.keeps();
        order_law();
        let mut room = room;
        write_ranks(&core, priority, &mut room.priority, &mut room.ranks);
        Run {
            core,
            room,
            time: 0,
        }
    }

    /// What every run keeps; a proof that needs it calls it. It does nothing.
    pub fn keeps(&self)
        ensures setting { IsSetting self.now.setting }
        ensures safe { IsSafe self.now.setting self.now.moment.state }
        ensures few_events { event_count self.now.setting self.now.moment.state ≤ 3 * length self.now.setting.system.tasks }
    {
        self.core.keeps();
        order_law();
    }

    /// The time.
    pub fn time(&self) -> u64
        ensures { result ≡ self.now.moment.time }
    {
        self.time
    }

    /// Used memory.
    pub fn used(&self) -> u64
        ensures { result ≡ used_memory self.now.setting self.now.moment.state }
    {
        self.core.used()
    }

    /// Booked memory.
    pub fn booked(&self) -> u64
        ensures { result ≡ booked_memory self.now.setting self.now.moment.state }
    {
        self.core.booked()
    }

    // The place of the task that may start as soon as a worker is free, and stands first in the priority.
    fn first_startable(&self) -> Option<u32>
        ensures within { IfSome result (λ k. k < length self.now.setting.order) }
        ensures some { IfSome result (λ k.
            IsFirstStartable self.now.setting self.now.priority self.now.moment.state (slice_index self.now.setting.order k)) }
        ensures none { IfNone result ((u : ℕ) → HasTask self.now.setting.system u →
            is_startable self.now.setting self.now.moment.state u ≡ false) }
    {
        self.core.keeps();
        order_law();
        let rank = self.room.ready.first()?;
        Some(self.room.priority[rank])
    }

    // Ends the running task that is due first, a tie to the one that stands first in the order, at the moment at which it is due.
    fn finish_next(&mut self) -> Option<Event>
        ensures setting { self.new.setting ≡ self.old.setting }
        ensures priority { self.new.priority ≡ self.old.priority }
        ensures due { IfSome result (λ e. IsNextDue self.old.setting self.old.moment e.task) }
        ensures event { IfSome result (λ e.
            e ≡ record { time = task_entry self.old.moment.dues e.task; kind = EventKind.Finish; task = e.task }) }
        ensures next { IfSome result (λ e. self.new.moment ≡ moment_after self.old.setting self.old.moment e) }
        ensures none { IfNone result ((u : ℕ) → phase_in self.old.moment.state.phases u ≡ IsRunning → ⊥) }
        ensures unchanged { IfNone result (self.new ≡ self.old) }
    {
        self.core.keeps();
        order_law();
        event_law();
        let next = self.room.clock.take_first()?;
        let task = self.core.task_at(next.place);
        self.core.finish_at(next.place);
        self.time = next.time;
        self.core
            .refresh_consumers(next.place, &self.room.ranks, &mut self.room.ready);
        Some(Event {
            time: next.time,
            kind: EventKind::Finish,
            task,
        })
    }

    // The finish that is due now, if one is.
    fn finish_due(&mut self) -> Option<Event>
        ensures setting { self.new.setting ≡ self.old.setting }
        ensures priority { self.new.priority ≡ self.old.priority }
        ensures comes { IfSome result (λ e. ComesNext self.old.setting self.old.priority self.old.moment e.kind e.time e.task) }
        ensures next { IfSome result (λ e. self.new.moment ≡ moment_after self.old.setting self.old.moment e) }
        ensures none { IfNone result (NoneDue self.old.moment) }
        ensures unchanged { IfNone result (self.new ≡ self.old) }
    {
        self.core.keeps();
        order_law();
        if self.room.clock.first()?.time > self.time {
            return None;
        }
        self.finish_next()
    }

    // The next activation, if a task may be activated.
    fn activate(&mut self) -> Option<Event>
        requires { NoneDue self.old.moment }
        ensures setting { self.new.setting ≡ self.old.setting }
        ensures priority { self.new.priority ≡ self.old.priority }
        ensures comes { IfSome result (λ e. ComesNext self.old.setting self.old.priority self.old.moment e.kind e.time e.task) }
        ensures next { IfSome result (λ e. self.new.moment ≡ moment_after self.old.setting self.old.moment e) }
        ensures none { IfNone result (NoneActivates self.old.setting self.old.moment) }
        ensures unchanged { IfNone result (self.new ≡ self.old) }
    {
        self.core.keeps();
        let place = self.core.activated();
        let task = self.core.activate()?;
        self.core
            .refresh(place, &self.room.ranks, &mut self.room.ready);
        Some(Event {
            time: self.time,
            kind: EventKind::Activate,
            task,
        })
    }

    // The start of the first task of the priority that may start, if one may.
    fn start(&mut self) -> Option<Event>
        requires none_due { NoneDue self.old.moment }
        requires none_activates { NoneActivates self.old.setting self.old.moment }
        ensures setting { self.new.setting ≡ self.old.setting }
        ensures priority { self.new.priority ≡ self.old.priority }
        ensures comes { IfSome result (λ e. ComesNext self.old.setting self.old.priority self.old.moment e.kind e.time e.task) }
        ensures next { IfSome result (λ e. self.new.moment ≡ moment_after self.old.setting self.old.moment e) }
        ensures none { IfNone result (NoneStarts self.old.setting self.old.moment) }
        ensures unchanged { IfNone result (self.new ≡ self.old) }
    {
        self.core.keeps();
        order_law();
        event_law();
        let place = self.first_startable()?;
        let task = self.core.task_at(place);
        let time = self.time + self.core.time_at(place);
        if !self.core.start_at(place) {
            return None;
        }
        self.room.dues[task as usize - 1] = time;
        self.room.clock.add(Due { time, place });
        self.core
            .refresh(place, &self.room.ranks, &mut self.room.ready);
        Some(Event {
            time: self.time,
            kind: EventKind::Start,
            task,
        })
    }

    // The finish that is due next, if a task runs.
    fn finish_later(&mut self) -> Option<Event>
        requires none_due { NoneDue self.old.moment }
        requires none_activates { NoneActivates self.old.setting self.old.moment }
        requires none_starts { NoneStarts self.old.setting self.old.moment }
        ensures setting { self.new.setting ≡ self.old.setting }
        ensures priority { self.new.priority ≡ self.old.priority }
        ensures comes { IfSome result (λ e. ComesNext self.old.setting self.old.priority self.old.moment e.kind e.time e.task) }
        ensures next { IfSome result (λ e. self.new.moment ≡ moment_after self.old.setting self.old.moment e) }
        ensures done { IfNone result (AllDone self.old.setting self.old.moment.state) }
        ensures unchanged { IfNone result (self.new ≡ self.old) }
    {
        progress_law();
        self.keeps();
        self.finish_next()
    }

    /// The event that comes next; none where every task is done.
    pub fn step(&mut self) -> Option<Event>
        ensures setting { self.new.setting ≡ self.old.setting }
        ensures priority { self.new.priority ≡ self.old.priority }
        ensures comes { IfSome result (λ e. ComesNext self.old.setting self.old.priority self.old.moment e.kind e.time e.task) }
        ensures next { IfSome result (λ e. self.new.moment ≡ moment_after self.old.setting self.old.moment e) }
        ensures done { IfNone result (AllDone self.old.setting self.old.moment.state) }
        ensures unchanged { IfNone result (self.new ≡ self.old) }
    {
        if let Some(event) = self.finish_due() {
            return Some(event);
        }
        if let Some(event) = self.activate() {
            return Some(event);
        }
        if let Some(event) = self.start() {
            return Some(event);
        }
        self.finish_later()
    }
}
