//! Schedules as they are chained: what starts and what ends, in turn.

use crate::NoMemory;
use std::alloc::Global;

/// A task starts, or a task or a collector ends.
#[derive(Clone, Copy)]
pub enum Event {
    Start(u32),
    End(u32, u64),
}

/// Starts and ends in turn.
#[derive(Drop)]
pub struct Schedule {
    pub events: Vec<Event>,
    /// Whether the times of the ends are those at which they happen. Else each task ends as early as it can.
    pub timed: bool,
}

impl Schedule {
    /// Each task of an order ends before the next one starts.
    pub fn along(alloc: Global, order: &[u32]) -> Result<Schedule, NoMemory> {
        let mut events = Vec::new(alloc);
        for task in order {
            events.push(Event::Start(*task))?;
            events.push(Event::End(*task, 0))?;
        }
        Ok(Schedule {
            events,
            timed: false,
        })
    }
}
