ghost use Rattle.std.specs.Prelude.{◌≡◌, ◌-◌, All, length, map, slice_index, IsTrue, ◌↔◌, IfOk};
ghost use Rattle.activation.specs.Running.{IsNumber};
ghost use Rattle.activation.specs.Schedule.{HoldsEach};
ghost use Rattle.activation.specs.Tables.{AreTaskPlaces, IsNumbering};

use crate::NoMemory;
use shared_systems::SharedSystem;
use std::alloc::Global;

/// Whether this is the number of one of so many tasks.
pub fn is_number(task: u32, count: usize) -> bool
    ensures { IsTrue result ↔ IsNumber task count }
{
    task > 0 && task as usize <= count
}

/// At which place of an order each task stands, counted from 0.
pub fn places_of(alloc: Global, system: &SharedSystem, order: &[u32]) -> Result<Vec<u32>, NoMemory>
    requires { HoldsEach system.now order.now }
    ensures there { IfOk result (λ places. AreTaskPlaces order.now places.items) }
    ensures numbers { IfOk result (λ places. IsNumbering (length system.now.tasks) places.items) }
{
    let mut places = vec![in alloc; 0u32; system.tasks().len()]?;
    for i in 0..order.len() {
        places[order[i] as usize - 1] = i as u32;
    }
    Ok(places)
}

/// The numbers of the tasks of a list, in the list's order, out of a table that has one for each task.
pub fn by_place(alloc: Global, tasks: &[u32], numbers: &[u64]) -> Result<Vec<u64>, NoMemory>
    requires { All (λ t. IsNumber t (length numbers.now)) tasks.now }
    ensures { IfOk result (λ placed. placed.items ≡ map (λ t. slice_index numbers.now (t - 1)) tasks.now) }
{
    tasks
        .iter()
        .map(|task| numbers[*task as usize - 1])
        .collect(alloc)
}
