//! The peak of an order, from the places of its tasks: an item is freed after the last of its readers.

ghost use Rattle.std.specs.Prelude.{◌≡◌, ℕ, ◌+◌, ◌<◌, ◌≤◌, ◌^◌, All, Some, None, IfOk, IfErr, MatchOption, length, slice_index};
ghost use Rattle.std.specs.Prelude.{false, ◌||◌, not, slice_index_or};
ghost use Rattle.std.specs.List.{sum_by};
ghost use Rattle.std.specs.Option.{ForSome};
ghost use Rattle.limits.specs.Limits.{most_total};
ghost use Rattle.shared_systems.specs.Shared.{shared_size_where, is_made_by};
ghost use Rattle.shared_systems.specs.SharedMemory.{is_held, shared_peak_of};
ghost use Rattle.shared_systems.specs.SharedTraversal.{IsSharedTraversal, IsSharedOrderRefusal, first_shared_fault};
ghost use Rattle.shared_systems.specs.Bounds.{IsSharedItemWithin, shared_size};
ghost use Rattle.shared_systems.specs.Places.{place_in, last_if_any, is_freed_at, is_late, are_in_time};

use crate::NoMemory;
use crate::items::SharedItems;
use crate::laws::order_law;
use crate::places::{last_of, places_of};
use crate::sums::{add_size, outputs_of};
use crate::system::SharedSystem;
use mp_system::{OrderFault, OrderKind, ReplayRefusal, Task};
use std::alloc::Global;

// Marks the readers that stand no later than the producer.
fn mark_late(late: &mut [bool], producer: Option<u32>, readers: &[u32], places: &[usize])
    requires producer { ForSome producer (λ u. u < length places.now) }
    requires readers { All (λ c. (c < length places.now) × (c < length late.old)) readers.now }
    ensures { (v : ℕ) → slice_index_or late.new v false ≡ (slice_index_or late.old v false || is_late (slice_index places.now) producer readers.now v) }
{
    let Some(producer) = producer else {
        return;
    };
    let made = places[producer as usize];
    for reader in readers {
        if places[*reader as usize] <= made {
            late[*reader as usize] = true;
        }
    }
}

// For each of so many tasks whether it stands before a task that produces what it reads.
fn early_tasks(
    alloc: Global,
    count: usize,
    items: &SharedItems,
    places: &[usize],
) -> Result<Vec<bool>, NoMemory>
    requires few { count < 2 ^ 32 }
    requires len { length places.now ≡ count + 1 }
    requires within { All (IsSharedItemWithin count) items.now }
    ensures len { IfOk result (λ early. length early.items ≡ count + 1) }
    ensures early { IfOk result (λ early. (v : ℕ) →
        slice_index_or early.items v false ≡ not (are_in_time (slice_index places.now) v items.now)) }
{
    let mut early: Vec<bool> = vec![in alloc; false; count + 1]?;
    for i in 0..items.len() {
        mark_late(&mut early, items.producer(i), items.readers(i), places);
    }
    Ok(early)
}

// The first place, counted from 1, at which the order fails to be a traversal, with the reason.
fn first_fault(
    system: &SharedSystem,
    order: &[u32],
    places: &[usize],
    early: &[bool],
) -> Option<OrderFault>
    requires len { (length places.now ≡ length system.now.tasks + 1) × (length early.now ≡ length system.now.tasks + 1) }
    requires places { (v : ℕ) → v ≤ length system.now.tasks → slice_index places.now v ≡ place_in order.now v }
    requires early { (v : ℕ) → slice_index_or early.now v false ≡ not (are_in_time (slice_index places.now) v system.now.items) }
    ensures { MatchOption result (first_shared_fault system.now order.now ≡ None)
        (λ fault. first_shared_fault system.now order.now ≡ Some (fault.place, fault.kind)) }
{
    let count = system.tasks().len();
    for i in 0..order.len() {
        let task = order[i] as usize;
        let place = i as u64 + 1;
        if task == 0 || task > count {
            let kind = OrderKind::Unknown;
            return Some(OrderFault { place, kind });
        }
        if places[task] != i {
            let kind = OrderKind::Repeated;
            return Some(OrderFault { place, kind });
        }
        if early[task] {
            let kind = OrderKind::TooEarly;
            return Some(OrderFault { place, kind });
        }
    }
    if order.len() < count {
        let place = order.len() as u64 + 1;
        let kind = OrderKind::Missing;
        return Some(OrderFault { place, kind });
    }
    None
}

// The place of the last reader, if there is one.
fn last_if_any(readers: &[u32], places: &[usize]) -> Option<usize>
    requires { All (λ c. c < length places.now) readers.now }
    ensures { result ≡ last_if_any (slice_index places.now) readers.now }
{
    if readers.is_empty() {
        return None;
    }
    Some(last_of(readers, places))
}

// For each place of an order the sizes of what is freed after the task there, together.
fn freed_at(
    alloc: Global,
    len: usize,
    items: &SharedItems,
    places: &[usize],
) -> Result<Vec<u64>, NoMemory>
    requires few { len < 2 ^ 32 }
    requires places { (v : ℕ) → slice_index places.now v ≤ len }
    requires readers { All (λ x. All (λ c. c < length places.now) x.readers) items.now }
    requires total { sum_by shared_size items.now ≤ most_total }
    ensures len { IfOk result (λ sums. length sums.items ≡ len + 1) }
    ensures sums { IfOk result (λ sums. (i : ℕ) → slice_index sums.items i ≡ shared_size_where (is_freed_at (slice_index places.now) i) items.now) }
{
    let mut sums: Vec<u64> = vec![in alloc; 0; len + 1]?;
    for i in 0..items.len() {
        add_size(
            &mut sums,
            last_if_any(items.readers(i), places),
            items.size(i),
        );
    }
    Ok(sums)
}

// The sizes of the items that no task produces, together.
fn start_memory(items: &SharedItems) -> u64
    requires { sum_by shared_size items.now ≤ most_total }
    ensures { result ≡ shared_size_where (is_held (λ _. false)) items.now }
{
    let mut memory: u64 = 0;
    for i in 0..items.len() {
        if items.producer(i).is_none() {
            memory += items.size(i);
        }
    }
    memory
}

// The peak of a traversal, given what each task produces and what is freed after each place.
fn peak_along(system: &SharedSystem, order: &[u32], outputs: &[u64], freed: &[u64]) -> u64
    requires traversal { IsSharedTraversal system.now order.now }
    requires outputs { (length outputs.now ≡ length system.now.tasks + 1)
        × ((v : ℕ) → slice_index outputs.now v ≡ shared_size_where (is_made_by v) system.now.items) }
    requires freed { (length freed.now ≡ length order.now + 1)
        × ((i : ℕ) → slice_index freed.now i ≡ shared_size_where (is_freed_at (place_in order.now) i) system.now.items) }
    ensures { result ≡ shared_peak_of system.now order.now }
{
    let tasks = system.tasks();
    let mut memory = start_memory(system.items());
    let mut peak = memory;
    for i in 0..order.len() {
        let v = order[i] as usize;
        let Task { extra, share, .. } = tasks[v - 1];
        let running = memory + (extra + outputs[v] - share);
        memory = memory + outputs[v] - freed[i];
        peak = peak.max(running).max(memory);
    }
    peak
}

impl SharedSystem {
    /// The peak of a traversal, or the first place at which the order fails to be one. An item counts once, however many tasks read it, from
    /// the end of its producer to the end of the last of its readers. Linear in the tasks, the items and the readers of all items.
    pub fn peak(&self, alloc: Global, order: &[u32]) -> Result<u64, ReplayRefusal>
        ensures peak { IfOk result (λ peak.
            IsSharedTraversal self.now order.now × (peak ≡ shared_peak_of self.now order.now)) }
        ensures fault { IfErr result (IsSharedOrderRefusal self.now order.now) }
    {
        order_law();
        let count = self.tasks().len();
        let items = self.items();
        let places = places_of(alloc, order, count)?;
        let early = early_tasks(alloc, count, items, &places)?;
        if let Some(fault) = first_fault(self, order, &places, &early) {
            return Err(ReplayRefusal::Order(fault));
        }
        let outputs = outputs_of(alloc, count, items)?;
        let freed = freed_at(alloc, order.len(), items, &places)?;
        Ok(peak_along(self, order, &outputs, &freed))
    }
}
