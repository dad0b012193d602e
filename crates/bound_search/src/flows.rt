//! How much flows on each arc and how much room each node has, with a log of what was changed.

use crate::NoMemory;
use crate::tables::{add_amount, amount_at, put_amount};
use std::alloc::Global;

/// What was added to the flow on an arc, or to the room of a node.
#[derive(Clone, Copy, Drop)]
pub struct Change {
    pub place: u32,
    pub is_room: bool,
    pub amount: i64,
}

/// The flows and the rooms.
#[derive(Drop)]
pub struct Flows {
    flows: Vec<i64>,
    rooms: Vec<i64>,
    log: Vec<Change>,
    is_logged: bool,
}

impl Flows {
    /// No flow on so many arcs, and no room in so many nodes.
    pub fn new(alloc: Global, arcs: u32, nodes: u32) -> Result<Flows, NoMemory> {
        Ok(Flows {
            flows: vec![in alloc; 0; arcs as usize]?,
            rooms: vec![in alloc; 0; nodes as usize]?,
            log: Vec::new(alloc),
            is_logged: false,
        })
    }

    /// The same flows and rooms, and an empty log.
    pub fn copy(&self, alloc: Global) -> Result<Flows, NoMemory> {
        Ok(Flows {
            flows: Vec::from_slice(alloc, &self.flows)?,
            rooms: Vec::from_slice(alloc, &self.rooms)?,
            log: Vec::new(alloc),
            is_logged: false,
        })
    }

    /// The flow on an arc.
    #[inline]
    pub fn flow(&self, arc: u32) -> i64 {
        amount_at(&self.flows, arc)
    }

    /// The room of a node.
    #[inline]
    pub fn room(&self, node: u32) -> i64 {
        amount_at(&self.rooms, node)
    }

    /// Gives a node this room, which is not logged.
    pub fn put_room(&mut self, node: u32, room: i64) {
        put_amount(&mut self.rooms, node, room);
    }

    /// What was changed since the log was begun.
    pub fn log(&self) -> &[Change] {
        &self.log
    }

    /// Begins to log changes.
    pub fn begin_log(&mut self) {
        self.is_logged = true;
    }

    /// Ends the log: what was changed stays.
    pub fn end_log(&mut self) {
        self.log.clear();
        self.is_logged = false;
    }

    /// Adds to the flow on an arc.
    pub fn add_flow(&mut self, arc: u32, amount: i64) -> Result<(), NoMemory> {
        if self.is_logged {
            self.log.push(Change {
                place: arc,
                is_room: false,
                amount,
            })?;
        }
        add_amount(&mut self.flows, arc, amount);
        Ok(())
    }

    /// Adds to the room of a node.
    pub fn add_room(&mut self, node: u32, amount: i64) -> Result<(), NoMemory> {
        if self.is_logged {
            self.log.push(Change {
                place: node,
                is_room: true,
                amount,
            })?;
        }
        add_amount(&mut self.rooms, node, amount);
        Ok(())
    }

    /// Takes back all that was logged, and ends the log.
    pub fn back(&mut self) {
        for change in &self.log {
            let less = 0i64.saturating_sub(change.amount);
            if change.is_room {
                add_amount(&mut self.rooms, change.place, less);
            } else {
                add_amount(&mut self.flows, change.place, less);
            }
        }
        self.end_log();
    }
}
