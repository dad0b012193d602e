//! What each task leaves beyond what it takes up, in lowered sizes, as some of the sizes change.

ghost use Rattle.std.specs.Prelude.{◌≡◌, ◌==◌, ℕ, ◌+◌, ◌<◌, ◌≤◌, ◌^◌, ◌↔◌, [], All, IfOk, IsTrue, false, length, set, pos, ◌+ℤ◌, ◌≤ℤ◌, unsigned_abs, if◌then◌else◌};
ghost use Rattle.limits.specs.Limits.{most_total};
ghost use Rattle.mp_system.specs.Replay.{is_marked};
ghost use Rattle.peak_bounds.specs.Evidence.{amount_or, lowered_by, IsAmount};
ghost use Rattle.peak_bounds.specs.Judging.{size_at, IsWithin, AreEnds, AreSpare};

use crate::NoMemory;
use crate::evidence::Amount;
use crate::use_table::UseTable;
use std::alloc::Global;

// Adds to the number at a place.
fn add_at(numbers: &mut [i128], v: usize, change: i128)
    requires inside { v < length numbers.old }
    requires within { IsWithin (2 ^ 91) (size_at numbers.old v) }
    requires change { IsWithin (2 ^ 62) change }
    ensures { (w : ℕ) → size_at numbers.new w ≡ size_at numbers.old w +ℤ (if v == w then change else pos 0) }
{
    numbers[v] += change;
}

// By how much a size rises that becomes another.
fn change(from: i64, to: i64) -> i128
    requires from { unsigned_abs from ≤ most_total }
    requires to { unsigned_abs to ≤ most_total }
    ensures sum { result +ℤ from ≡ to }
    ensures within { IsWithin (2 ^ 62) result }
{
    i128::from(to) - i128::from(from)
}

// Writes a size at its place, and what the ends of that use have to spare then.
fn set_size(uses: &UseTable, sizes: &mut [i64], spare: &mut [i128], place: usize, size: i64)
    requires place { place < length sizes.old }
    requires size { unsigned_abs size ≤ most_total }
    requires spare { AreSpare uses.now sizes.old spare.old }
    ensures sizes { sizes.new ≡ set sizes.old place size }
    ensures spare { AreSpare uses.now sizes.new spare.new }
{
    let old = sizes[place];
    add_at(spare, uses.makers[place] as usize, change(old, size));
    add_at(spare, uses.takers[place] as usize, change(size, old));
    sizes[place] = size;
}

/// Writes amounts at their places.
pub fn put_amounts(uses: &UseTable, sizes: &mut [i64], spare: &mut [i128], amounts: &[Amount])
    requires within { All (IsAmount (length sizes.old)) amounts.now }
    requires spare { AreSpare uses.now sizes.old spare.old }
    ensures sizes { (k : ℕ) → k < length sizes.old → size_at sizes.new k ≡ amount_or (size_at sizes.old k) amounts.now (k + 1) }
    ensures spare { AreSpare uses.now sizes.new spare.new }
{
    for i in (0..amounts.len()).rev() {
        let told = amounts[i];
        set_size(uses, sizes, spare, told.place as usize - 1, told.amount);
    }
}

/// Takes amounts back, so that the sizes are what they were.
pub fn take_back(
    uses: &UseTable,
    sizes: &mut [i64],
    spare: &mut [i128],
    amounts: &[Amount],
    base: &[i64],
)
    requires within { All (IsAmount (length sizes.old)) amounts.now }
    requires len { length base.now ≡ length sizes.old }
    requires small { All (λ z. unsigned_abs z ≤ most_total) base.now }
    requires put { (k : ℕ) → k < length sizes.old → size_at sizes.old k ≡ amount_or (size_at base.now k) amounts.now (k + 1) }
    requires spare { AreSpare uses.now sizes.old spare.old }
    ensures sizes { sizes.new ≡ base.now }
    ensures spare { AreSpare uses.now sizes.new spare.new }
{
    for i in 0..amounts.len() {
        let place = amounts[i].place as usize - 1;
        set_size(uses, sizes, spare, place, base[place]);
    }
}

/// Lowered sizes, and what each task leaves beyond what it takes up in them, by its number; that of 0 is nobody's.
#[derive(Drop)]
pub struct Lowered {
    pub sizes: Vec<i64>,
    pub spare: Vec<i128>,
}

/// The lowered sizes that a set tells of the uses of so many tasks.
pub fn base_sizes(
    alloc: Global,
    uses: &UseTable,
    tasks: usize,
    base: &[Amount],
) -> Result<Lowered, NoMemory>
    requires tasks { tasks < 2 ^ 32 }
    requires ends { AreEnds tasks uses.now }
    requires base { All (IsAmount (length uses.now.makers.items)) base.now }
    ensures sizes { IfOk result (λ lowered. lowered.sizes.items ≡ lowered_by (length uses.now.makers.items) base.now []) }
    ensures len { IfOk result (λ lowered. length lowered.spare.items ≡ tasks + 1) }
    ensures spare { IfOk result (λ lowered. AreSpare uses.now lowered.sizes.items lowered.spare.items) }
{
    let mut sizes: Vec<i64> = vec![in alloc; 0; uses.makers.len()]?;
    let mut spare: Vec<i128> = vec![in alloc; 0; tasks + 1]?;
    put_amounts(uses, &mut sizes, &mut spare, base);
    Ok(Lowered { sizes, spare })
}

/// Whether no open task has less than nothing to spare.
pub fn open_tasks_rise(done: &[bool], waiting: &[bool], spare: &[i128]) -> bool
    requires waiting { length waiting.now ≡ length done.now }
    requires spare { length spare.now ≡ length done.now + 1 }
    ensures { IsTrue result ↔ ((v : ℕ) → 1 ≤ v → v ≤ length done.now → is_marked done.now v ≡ false → is_marked waiting.now v ≡ false →
        pos 0 ≤ℤ size_at spare.now v) }
{
    for i in 0..done.len() {
        if !(done[i] || waiting[i] || spare[i + 1] >= 0) {
            return false;
        }
    }
    true
}
