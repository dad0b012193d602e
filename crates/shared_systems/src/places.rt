//! Where the tasks of an order stand, and the last of some readers.

ghost use Rattle.std.specs.Prelude.{◌≡◌, ℕ, ◌+◌, ◌<◌, ◌≤◌, ◌^◌, All, IfOk, length, slice_index};
ghost use Rattle.shared_systems.specs.Places.{place_in, last_place};

use crate::NoMemory;
use std::alloc::Global;

/// For each task up to the last, and for 0, the place from 0 at which it stands first; the length of the order if it does not.
pub fn places_of(alloc: Global, order: &[u32], last: usize) -> Result<Vec<usize>, NoMemory>
    requires { last < 2 ^ 32 }
    ensures len { IfOk result (λ places. length places.items ≡ last + 1) }
    ensures places { IfOk result (λ places. (v : ℕ) → v ≤ last → slice_index places.items v ≡ place_in order.now v) }
{
    let mut places: Vec<usize> = vec![in alloc; order.len(); last + 1]?;
    for i in (0..order.len()).rev() {
        let task = order[i] as usize;
        if task <= last {
            places[task] = i;
        }
    }
    Ok(places)
}

/// The greatest place of a reader.
pub fn last_of(readers: &[u32], places: &[usize]) -> usize
    requires { All (λ c. c < length places.now) readers.now }
    ensures { result ≡ last_place (slice_index places.now) readers.now }
{
    let mut last = 0;
    for reader in readers {
        let place = places[*reader as usize];
        if place > last {
            last = place;
        }
    }
    last
}
