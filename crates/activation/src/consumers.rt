ghost use Rattle.std.specs.Prelude.{◌≡◌, ℕ, ◌++◌, All, length, map, IfOk, OnOk};
ghost use Rattle.std.specs.Option.{ForSome};
ghost use Rattle.activation.specs.Running.{IsNumber};
ghost use Rattle.activation.specs.Schedule.{task_entry};
ghost use Rattle.activation.specs.Tables.{IsNumbering};
ghost use Rattle.activation.specs.Consumers.{edge, item_edges, consumer_edges, AreConsumersOf};

use crate::NoMemory;
use crate::edges::{Edge, rows_of};
use row_table::RowTable;
use shared_systems::SharedSystem;
use std::alloc::Global;

// Adds the edges from a place to those of readers.
fn push_edges_from(
    edges: &mut Vec<Edge>,
    from: u32,
    readers: &[u32],
    places: &[u32],
) -> Result<(), NoMemory>
    requires { All (λ t. IsNumber t (length places.now)) readers.now }
    ensures { OnOk result (edges.new.items ≡ edges.old.items ++ map (λ c. edge from (task_entry places.now c)) readers.now) }
{
    for reader in readers {
        let to = places[*reader as usize - 1];
        edges.push(Edge { from, to })?;
    }
    Ok(())
}

// Adds the edges of an item: from the place of its producer, if it has one, to those of its readers.
fn push_edges(
    edges: &mut Vec<Edge>,
    producer: Option<u32>,
    readers: &[u32],
    places: &[u32],
) -> Result<(), NoMemory>
    requires producer { ForSome producer (λ t. IsNumber t (length places.now)) }
    requires readers { All (λ t. IsNumber t (length places.now)) readers.now }
    ensures { OnOk result (edges.new.items ≡ edges.old.items ++ item_edges (task_entry places.now) producer readers.now) }
{
    if let Some(producer) = producer {
        push_edges_from(edges, places[producer as usize - 1], readers, places)?;
    }
    Ok(())
}

// Those of all items.
fn edges_of(alloc: Global, system: &SharedSystem, places: &[u32]) -> Result<Vec<Edge>, NoMemory>
    requires { length places.now ≡ length system.now.tasks }
    ensures { IfOk result (λ edges. edges.items ≡ consumer_edges (task_entry places.now) system.now.items) }
{
    let items = system.items();
    let mut edges = Vec::new(alloc);
    for i in 0..items.len() {
        push_edges(&mut edges, items.producer(i), items.readers(i), places)?;
    }
    Ok(edges)
}

/// To each place of an order the places of the tasks that read an output of the task there, one for each item.
pub fn consumer_rows(
    alloc: Global,
    system: &SharedSystem,
    places: &[u32],
) -> Result<RowTable, NoMemory>
    requires { IsNumbering (length system.now.tasks) places.now }
    ensures { IfOk result (λ rows. AreConsumersOf system.now places.now rows) }
{
    let edges = edges_of(alloc, system, places)?;
    let rows = rows_of(alloc, &edges, system.tasks().len() as u32)?;
    Ok(rows)
}
