ghost use Rattle.std.specs.Prelude.{◌≡◌, ◌==◌, nat_lt, ℕ, ◌+◌, ◌<◌, ◌≤◌, ◌^◌, ◌&&◌, false, All, length, slice_index, count_by, IfOk};
ghost use Rattle.bit_rows.specs.Bits.{bit_in};
ghost use Rattle.shared_systems.specs.Shared.{HasTask};
ghost use Rattle.activation.specs.Running.{IsNumber};
ghost use Rattle.activation.specs.Schedule.{task_entry};
ghost use Rattle.activation.specs.Tables.{is_awaited, AreByPlace};

use crate::NoMemory;
use crate::places::by_place;
use crate::rank_set::RankSet;
use shared_systems::SharedSystem;
use std::alloc::Global;

// Adds one to the count of each reader.
fn add_ones(counts: &mut [u64], readers: &[u32])
    requires readers { All (λ t. IsNumber t (length counts.old)) readers.now }
    requires few { (t : ℕ) → task_entry counts.old t + length readers.now < 2 ^ 64 }
    ensures { (t : ℕ) → task_entry counts.new t ≡ task_entry counts.old t + count_by (λ c. c == t) readers.now }
{
    for reader in readers {
        counts[*reader as usize - 1] += 1;
    }
}

// For each task of a system how many items it waits for at the start.
fn count_waiting(alloc: Global, system: &SharedSystem) -> Result<Vec<u64>, NoMemory>
    ensures len { IfOk result (λ waiting. length waiting.items ≡ length system.now.tasks) }
    ensures counts { IfOk result (λ waiting. (t : ℕ) → task_entry waiting.items t ≡ count_by (is_awaited (λ _. false) t) system.now.items) }
{
    let items = system.items();
    let mut waiting: Vec<u64> = vec![in alloc; 0; system.tasks().len()]?;
    for i in 0..items.len() {
        if items.producer(i).is_some() {
            add_ones(&mut waiting, items.readers(i));
        }
    }
    Ok(waiting)
}

/// By the places of an order how many items the task there waits for at the start.
pub fn waiting_of(alloc: Global, system: &SharedSystem, order: &[u32]) -> Result<Vec<u64>, NoMemory>
    requires { All (HasTask system.now) order.now }
    ensures { IfOk result (λ waiting. AreByPlace order.now
        (λ t n. n ≡ count_by (is_awaited (λ _. false) t) system.now.items) waiting.items) }
{
    let waiting = count_waiting(alloc, system)?;
    by_place(alloc, order, &waiting)
}

/// Takes one off the number of a place each time that it stands in the row.
pub fn release(row: &[u32], waiting: &mut [u64])
    requires within { All (λ p. p < length waiting.old) row.now }
    requires enough { (p : ℕ) → p < length waiting.old → count_by (λ q. q == p) row.now ≤ slice_index waiting.old p }
    ensures { (p : ℕ) → p < length waiting.old → slice_index waiting.new p + count_by (λ q. q == p) row.now ≡ slice_index waiting.old p }
{
    for place in row {
        waiting[*place as usize] -= 1;
    }
}

/// Writes down of the places of a row whether the task there is startable, where none of them has started: it is one of the first so many
/// of the order, which are activated, and waits for nothing.
pub fn list_ready(row: &[u32], waiting: &[u64], activated: usize, startable: &mut RankSet)
    requires within { All (λ p. p < length startable.old) row.now }
    requires long { length waiting.now ≡ length startable.old }
    ensures long { length startable.new ≡ length startable.old }
    ensures listed { (k : ℕ) → k < length startable.old → 0 < count_by (λ p. p == k) row.now →
        bit_in startable.new k ≡ (nat_lt k activated && (slice_index waiting.now k == 0)) }
    ensures others { (k : ℕ) → k < length startable.old → count_by (λ p. p == k) row.now ≡ 0 →
        bit_in startable.new k ≡ bit_in startable.old k }
{
    for place in row {
        let place = *place as usize;
        startable.put(place, place < activated && waiting[place] == 0);
    }
}
