//! The last readers of items that have one reader each, or none.

ghost use Rattle.std.specs.Prelude.{◌≡◌, ◌<◌, ℕ, MatchOption, IfOk, length};
ghost use Rattle.shared_systems.specs.Shared.{shared_item_at};
ghost use Rattle.shared_reduce.specs.Single.{HasSeveral, IsSingle, AreSingle};

use crate::NoMemory;
use shared_systems::SharedItems;
use std::alloc::Global;

// The one reader, 0 for none; or nothing, where there are several.
fn single_reader(readers: &[u32]) -> Option<u32>
    ensures { MatchOption result (HasSeveral readers.now) (IsSingle readers.now) }
{
    match readers {
        [] => Some(0),
        [reader] => Some(*reader),
        _ => None,
    }
}

/// The one reader of each item, 0 for none; or nothing, where an item has several.
pub fn single_readers(alloc: Global, items: &SharedItems) -> Result<Option<Vec<u32>>, NoMemory>
    ensures { IfOk result (λ found. MatchOption found
        ((i : ℕ) × (i < length items.now) × HasSeveral (shared_item_at items.now i).readers)
        (λ lasts. (length lasts.items ≡ length items.now) × AreSingle items.now lasts.items (length items.now))) }
{
    let mut lasts = Vec::with_capacity(alloc, items.len())?;
    for i in 0..items.len() {
        match single_reader(items.readers(i)) {
            Some(reader) => lasts.push(reader)?,
            None => return Ok(None),
        }
    }
    Ok(Some(lasts))
}
