//! Whether items count for more than they are, where only the items are looked at that a few amounts touch.

ghost use Rattle.std.specs.Prelude.{◌≡◌, ◌++◌, ◌^◌, ◌<◌, ◌↔◌, All, IfOk, IsTrue, List, OnOk, length, replicate, ℤ};
ghost use Rattle.peak_bounds.specs.Moments.{uses_of, FitSizes};
ghost use Rattle.peak_bounds.specs.Evidence.{IsAmount};
ghost use Rattle.peak_bounds.specs.Fitting.{FitsAt, ArePlaced, IsFitting, IsPut, item_told};

use crate::NoMemory;
use crate::evidence::Amount;
use crate::lowered::{fit_sizes, fits, use_count};
use shared_systems::SharedItems;
use std::alloc::Global;

/// Where the uses of each item stand, with what is known of some lowered sizes.
#[derive(Drop)]
pub struct Fitting {
    /// The places, counted from 0, where the uses of each item begin, and one more, where those of the last item end.
    pub starts: Vec<u32>,
    /// The item of each use, counted from 0.
    pub items: Vec<u32>,
    /// Whether no item counts for more than it is in these sizes.
    pub fits: bool,
}

// Adds an item so many times.
fn push_item(items: &mut Vec<u32>, item: u32, count: usize) -> Result<(), NoMemory>
    ensures { OnOk result (items.new.items ≡ items.old.items ++ replicate count item) }
{
    for _ in 0..count {
        items.push(item)?;
    }
    Ok(())
}

/// Where the uses of each item stand, and whether these lowered sizes fit. Linear.
pub fn fitting_of(alloc: Global, items: &SharedItems, sizes: &[i64]) -> Result<Fitting, NoMemory>
    requires len { length sizes.now ≡ length (uses_of items.now) }
    requires few { length (uses_of items.now) < 2 ^ 24 }
    ensures { IfOk result (IsFitting items.now sizes.now) }
{
    let mut starts = Vec::new(alloc);
    let mut of_uses = Vec::new(alloc);
    starts.push(0)?;
    for i in 0..items.len() {
        push_item(&mut of_uses, i as u32, use_count(items.readers(i)))?;
        starts.push(of_uses.len() as u32)?;
    }
    let fits = fit_sizes(items, sizes);
    Ok(Fitting {
        starts,
        items: of_uses,
        fits,
    })
}

// The item of the use that an amount is told of.
fn item_told(fitting: &Fitting, told: Amount) -> usize
    requires told { IsAmount (length fitting.now.items.items) told }
    ensures { result ≡ item_told fitting.now told }
{
    fitting.items[told.place as usize - 1] as usize
}

// Whether an item counts for at most what it is.
fn fits_at(items: &SharedItems, fitting: &Fitting, lowered: &[i64], item: usize) -> bool
    requires placed { ArePlaced items.now fitting.now }
    requires len { length lowered.now ≡ length (uses_of items.now) }
    requires item { item < length items.now }
    ensures { IsTrue result ↔ FitsAt items.now lowered.now item }
{
    let start = fitting.starts[item] as usize;
    let end = fitting.starts[item + 1] as usize;
    fits(&lowered[start..end], items.size(item))
}

// Whether each item that the amounts touch does. Amounts of one item are told one after the other, so that it is looked at once.
fn fit_around(items: &SharedItems, fitting: &Fitting, lowered: &[i64], own: &[Amount]) -> bool
    requires placed { ArePlaced items.now fitting.now }
    requires len { length lowered.now ≡ length (uses_of items.now) }
    requires own { All (IsAmount (length lowered.now)) own.now }
    ensures { IsTrue result ↔ All (λ told. FitsAt items.now lowered.now (item_told fitting.now told)) own.now }
{
    let mut last = items.len();
    for told in own {
        let item = item_told(fitting, *told);
        if item == last {
            continue;
        }
        if !fits_at(items, fitting, lowered, item) {
            return false;
        }
        last = item;
    }
    true
}

/// Whether no item counts for more than it is, where sizes differ from others in the amounts that are told. Where the others fit, it looks
/// only at the items of which some amount is told.
pub fn fit_with(items: &SharedItems, fitting: &Fitting, lowered: &[i64], own: &[Amount]) -> bool
    requires placed { ArePlaced items.now fitting.now }
    requires len { length lowered.now ≡ length (uses_of items.now) }
    requires own { All (IsAmount (length lowered.now)) own.now }
    ensures { (base : List ℤ) → IsFitting items.now base fitting.now → IsPut base own.now lowered.now →
        (IsTrue result ↔ FitSizes items.now lowered.now) }
{
    if fitting.fits {
        fit_around(items, fitting, lowered, own)
    } else {
        fit_sizes(items, lowered)
    }
}
