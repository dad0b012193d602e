//! The items with several readers: which of them each task reads, and how many of their readers are left.

ghost use Rattle.std.specs.Prelude.{◌≡◌, ◌==◌, ℕ, ◌+◌, ◌<◌, ◌≤◌, ◌^◌, ◌++◌, false, if◌then◌else◌, All, length, map, slice_index, count_by};
ghost use Rattle.std.specs.Prelude.{IfOk, OnOk};
ghost use Rattle.std.specs.List.{sum_by};
ghost use Rattle.shared_systems.specs.Bounds.{shared_size};
ghost use Rattle.activation.specs.Running.{IsNumber};
ghost use Rattle.activation.specs.Schedule.{task_entry};
ghost use Rattle.activation.specs.Tables.{IsNumbering, shared_items_of, AreLeft};
ghost use Rattle.activation.specs.Consumers.{number_edges, reading_edges, AreReadingsOf};

use crate::NoMemory;
use crate::edges::{Edge, rows_of};
use row_table::RowTable;
use shared_systems::SharedSystem;
use std::alloc::Global;

// Adds the edges from the places of an item's readers to its number.
fn push_number(
    edges: &mut Vec<Edge>,
    number: u32,
    readers: &[u32],
    places: &[u32],
) -> Result<(), NoMemory>
    requires { All (λ t. IsNumber t (length places.now)) readers.now }
    ensures { OnOk result (edges.new.items ≡ edges.old.items ++ number_edges (task_entry places.now) number readers.now) }
{
    for reader in readers {
        let from = places[*reader as usize - 1];
        edges.push(Edge { from, to: number })?;
    }
    Ok(())
}

/// By the numbers of the items with several readers how many of these there are, and the sizes; and an edge to its number from the place of
/// each of its readers.
#[derive(Drop)]
pub struct SharedItemTables {
    pub edges: Vec<Edge>,
    pub left: Vec<u32>,
    pub sizes: Vec<u64>,
}

// These tables of a system.
fn tables_of(
    alloc: Global,
    system: &SharedSystem,
    places: &[u32],
) -> Result<SharedItemTables, NoMemory>
    requires { length places.now ≡ length system.now.tasks }
    ensures edges { IfOk result (λ r. r.edges.items ≡ reading_edges (task_entry places.now) 0 (shared_items_of system.now)) }
    ensures left { IfOk result (λ r. AreLeft (λ _. false) (shared_items_of system.now) r.left.items) }
    ensures sizes { IfOk result (λ r. r.sizes.items ≡ map shared_size (shared_items_of system.now)) }
{
    let items = system.items();
    let mut edges = Vec::new(alloc);
    let mut left = Vec::new(alloc);
    let mut sizes = Vec::new(alloc);
    for i in 0..items.len() {
        let readers = items.readers(i);
        if readers.len() >= 2 {
            push_number(&mut edges, sizes.len() as u32, readers, places)?;
            left.push(readers.len() as u32)?;
            sizes.push(items.size(i))?;
        }
    }
    Ok(SharedItemTables { edges, left, sizes })
}

/// By the places of an order the numbers of the items with several readers that the task there reads; by these numbers how many readers each
/// has, and its size.
#[derive(Drop)]
pub struct Readings {
    pub rows: RowTable,
    pub left: Vec<u32>,
    pub sizes: Vec<u64>,
}

/// These of a system.
pub fn readings_of(
    alloc: Global,
    system: &SharedSystem,
    places: &[u32],
) -> Result<Readings, NoMemory>
    requires { IsNumbering (length system.now.tasks) places.now }
    ensures rows { IfOk result (λ r. AreReadingsOf system.now places.now r.rows) }
    ensures left { IfOk result (λ r. AreLeft (λ _. false) (shared_items_of system.now) r.left.items) }
    ensures sizes { IfOk result (λ r. r.sizes.items ≡ map shared_size (shared_items_of system.now)) }
{
    let SharedItemTables { edges, left, sizes } = tables_of(alloc, system, places)?;
    let rows = rows_of(alloc, &edges, system.tasks().len() as u32)?;
    Ok(Readings { rows, left, sizes })
}

/// Takes one off the number of each item of a row, of none twice, and tells the sizes of those of which none is left, together.
pub fn take_readers(row: &[u32], sizes: &[u64], left: &mut [u32]) -> u64
    requires within { All (λ j. (j < length left.old) × (j < length sizes.now)) row.now }
    requires once { (j : ℕ) → count_by (λ i. i == j) row.now ≤ 1 }
    requires some { All (λ j. 1 ≤ slice_index left.old j) row.now }
    requires total { sum_by (slice_index sizes.now) row.now < 2 ^ 64 }
    ensures left { (j : ℕ) → j < length left.old → slice_index left.new j + count_by (λ i. i == j) row.now ≡ slice_index left.old j }
    ensures freed { result ≡ sum_by (λ j. if slice_index left.old j == 1 then slice_index sizes.now j else 0) row.now }
{
    let mut freed: u64 = 0;
    for item in row {
        let item = *item as usize;
        left[item] -= 1;
        if left[item] == 0 {
            freed += sizes[item];
        }
    }
    freed
}
