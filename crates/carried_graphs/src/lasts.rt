//! The last readers of items, by two orders that tell which tasks come after which.

ghost use Rattle.std.specs.Prelude.{◌≡◌, ℕ, ◌+◌, ◌<◌, ◌≤◌, ◌^◌, All, IfOk, IfErr, MatchOption, length, slice_index};
ghost use Rattle.shared_systems.specs.Places.{place_in};
ghost use Rattle.shared_systems.specs.Paths.{IsRealizer};
ghost use Rattle.carried_graphs.specs.Carried.{AreLastReaders};
ghost use Rattle.carried_graphs.specs.Places.{IsGreatest, AreGreatest, IsFirstOther};
ghost use Rattle.carried_graphs.specs.Refusal.{IsLastReaderRefusal};

use crate::NoMemory;
use crate::refusal::LastReaderRefusal;
use shared_systems::{SharedItems, SharedSystem};
use std::alloc::Global;

// For each task up to the last, and for 0, the place from 0 at which it stands first; the length of the order if it does not.
fn places_of(alloc: Global, order: &[u32], last: usize) -> Result<Vec<usize>, NoMemory>
    requires few { last < 2 ^ 32 }
    requires within { All (λ v. v ≤ last) order.now }
    ensures len { IfOk result (λ places. length places.items ≡ last + 1) }
    ensures places { IfOk result (λ places. (v : ℕ) → v ≤ last → slice_index places.items v ≡ place_in order.now v) }
{
    let mut places: Vec<usize> = vec![in alloc; order.len(); last + 1]?;
    for i in (0..order.len()).rev() {
        places[order[i] as usize] = i;
    }
    Ok(places)
}

// The reader that stands last; 0 if there is none.
fn last_of(readers: &[u32], places: &[usize]) -> u32
    requires { All (λ c. (1 ≤ c) × (c < length places.now)) readers.now }
    ensures { IsGreatest (slice_index places.now) readers.now result }
{
    let mut last = 0;
    for reader in readers {
        if last == 0 || places[last as usize] < places[*reader as usize] {
            last = *reader;
        }
    }
    last
}

// The reader of each item that stands last; 0 for an item without readers.
fn lasts_by(alloc: Global, items: &SharedItems, places: &[usize]) -> Result<Vec<u32>, NoMemory>
    requires { All (λ x. All (λ c. (1 ≤ c) × (c < length places.now)) x.readers) items.now }
    ensures len { IfOk result (λ lasts. length lasts.items ≡ length items.now) }
    ensures lasts { IfOk result (λ lasts. AreGreatest (slice_index places.now) items.now lasts.items (length items.now)) }
{
    let mut lasts = Vec::with_capacity(alloc, items.len())?;
    for i in 0..items.len() {
        lasts.push(last_of(items.readers(i), places))?;
    }
    Ok(lasts)
}

// The first item, counted from 1, of which another reader stands last.
fn first_other(items: &SharedItems, places: &[usize], lasts: &[u32]) -> Option<u32>
    requires few { length items.now < 2 ^ 32 }
    requires len { length lasts.now ≡ length items.now }
    requires within { All (λ x. All (λ c. (1 ≤ c) × (c < length places.now)) x.readers) items.now }
    ensures { MatchOption result (AreGreatest (slice_index places.now) items.now lasts.now (length items.now))
        (λ k. IsFirstOther (slice_index places.now) items.now lasts.now k) }
{
    for i in 0..items.len() {
        if last_of(items.readers(i), places) != lasts[i] {
            return Some(i as u32 + 1);
        }
    }
    None
}

/// The last reader of each item, which comes after all its other readers, and 0 for an item without readers; or the first item that has
/// readers and none of them is last. Linear in the tasks, the items and the readers of all items.
///
/// It takes two traversals in both of which one task stands before another only where the other comes after it.
pub fn last_readers(
    alloc: Global,
    system: &SharedSystem,
    first: &[u32],
    second: &[u32],
) -> Result<Vec<u32>, LastReaderRefusal>
    requires { IsRealizer system.now first.now second.now }
    ensures lasts { IfOk result (λ lasts. AreLastReaders system.now lasts.items) }
    ensures refused { IfErr result (IsLastReaderRefusal system.now) }
{
    let count = system.tasks().len();
    let in_first = places_of(alloc, first, count)?;
    let in_second = places_of(alloc, second, count)?;
    let items = system.items();
    let lasts = lasts_by(alloc, items, &in_first)?;
    match first_other(items, &in_second, &lasts) {
        None => Ok(lasts),
        Some(item) => Err(LastReaderRefusal::Item(item)),
    }
}
