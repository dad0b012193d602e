//! The systems of `mp_system`, in which an item has at most one consumer, as shared systems.

ghost use Rattle.std.specs.Prelude.{◌≡◌, ◌+◌, ◌<◌, ◌^◌, ◌++◌, ◌∷◌, [], IfOk, OnOk, length, map};
ghost use Rattle.graphs.specs.Graph.{item_of_arc, own_system};
ghost use Rattle.mp_system.specs.Given.{end_given};
ghost use Rattle.shared_systems.specs.Bounds.{IsSharedSystem};
ghost use Rattle.shared_systems.specs.OneReader.{readers_of, shared_item_of, shared_of};

use crate::NoMemory;
use crate::items::{Entry, SharedItems};
use crate::laws::one_reader_system_law;
use crate::system::SharedSystem;
use graphs::Graph;
use mp_system::System;
use std::alloc::Global;

// One item more, with one reader or none; 0 stands for no producer and for no reader.
fn push_item(
    entries: &mut Vec<Entry>,
    readers: &mut Vec<u32>,
    size: u64,
    from: u32,
    reader: u32,
) -> Result<(), NoMemory>
    requires { length readers.old.items + 1 < 2 ^ 32 }
    ensures readers { OnOk result (readers.new.items ≡ readers.old.items ++ readers_of (end_given reader)) }
    ensures entries { OnOk result (entries.new.items
        ≡ entries.old.items ++ record { size = size; from = from; end = length readers.new.items } ∷ []) }
{
    if reader != 0 {
        readers.push(reader)?;
    }
    let end = readers.len() as u32;
    entries.push(Entry { size, from, end })?;
    Ok(())
}

// An item for each arc.
fn items_of_graph(alloc: Global, graph: &Graph) -> Result<SharedItems, NoMemory>
    ensures { IfOk result (λ items. items ≡ map shared_item_of (map item_of_arc graph.now.arcs)) }
{
    let arcs = graph.arcs();
    let mut entries = Vec::with_capacity(alloc, arcs.len())?;
    let mut readers = Vec::with_capacity(alloc, arcs.len())?;
    for arc in arcs {
        push_item(&mut entries, &mut readers, arc.size, arc.from, arc.to)?;
    }
    Ok(SharedItems::of_entries(entries, readers))
}

// An item for each item.
fn items_of_system(alloc: Global, system: &System) -> Result<SharedItems, NoMemory>
    ensures { IfOk result (λ items. items ≡ map shared_item_of system.now.items) }
{
    let items = system.items();
    let mut entries = Vec::with_capacity(alloc, items.len())?;
    let mut readers = Vec::with_capacity(alloc, items.len())?;
    for item in items {
        let from = item.from.unwrap_or(0);
        let reader = item.to.unwrap_or(0);
        push_item(&mut entries, &mut readers, item.size, from, reader)?;
    }
    Ok(SharedItems::of_entries(entries, readers))
}

impl SharedSystem {
    /// The shared system of a task graph: an item for each arc, which the task that the arc leads to alone reads. Linear.
    pub fn of_graph(alloc: Global, graph: &Graph) -> Result<SharedSystem, NoMemory>
        ensures { IfOk result (λ system. system ≡ shared_of (own_system graph.now)) }
    {
        graph.keeps();
        one_reader_system_law();
        let tasks = Vec::from_slice(alloc, graph.tasks())?;
        let items = items_of_graph(alloc, graph)?;
        Ok(SharedSystem::new(tasks, items))
    }

    /// The shared system of a system in which each item has at most one consumer, which alone reads it. Linear.
    ///
    /// It is one where all tasks can be ordered, as a traversal shows.
    pub fn of_system(alloc: Global, system: &System) -> Result<SharedSystem, NoMemory>
        requires { IsSharedSystem (shared_of system.now) }
        ensures { IfOk result (λ made. made ≡ shared_of system.now) }
    {
        let tasks = Vec::from_slice(alloc, system.tasks())?;
        let items = items_of_system(alloc, system)?;
        Ok(SharedSystem::new(tasks, items))
    }
}
