//! The uses of all items, in order and by task.

ghost use Rattle.std.specs.Prelude.{◌≡◌, ◌++◌, ◌<◌, ◌^◌, IfOk, OnOk, map, length};
ghost use Rattle.peak_bounds.specs.Moments.{uses_for};
ghost use Rattle.peak_bounds.specs.Judging.{maker_of, taker_of, AreUses};

use crate::NoMemory;
use row_table::RowTable;
use shared_systems::SharedSystem;
use std::alloc::Global;

/// For each use who makes what is used, and who takes it up, 0 for none; and for each task the places, counted from 0, of the uses of
/// what it makes, and of those by which it takes something up.
#[derive(Drop)]
pub struct UseTable {
    pub makers: Vec<u32>,
    pub takers: Vec<u32>,
    pub made: RowTable,
    pub taken: RowTable,
}

// Adds the uses of an item.
fn push_uses(
    makers: &mut Vec<u32>,
    takers: &mut Vec<u32>,
    from: Option<u32>,
    readers: &[u32],
) -> Result<(), NoMemory>
    ensures makers { OnOk result (makers.new.items ≡ makers.old.items ++ map maker_of (uses_for from readers.now)) }
    ensures takers { OnOk result (takers.new.items ≡ takers.old.items ++ map taker_of (uses_for from readers.now)) }
{
    let from = from.unwrap_or(0);
    if readers.is_empty() {
        makers.push(from)?;
        takers.push(0)?;
        return Ok(());
    }
    for reader in readers {
        makers.push(from)?;
        takers.push(*reader)?;
    }
    Ok(())
}

/// The uses of all items of a system. Linear.
pub fn uses_of(alloc: Global, system: &SharedSystem) -> Result<UseTable, NoMemory>
    ensures { IfOk result (λ uses. AreUses system.now uses) }
{
    let items = system.items();
    let mut makers = Vec::new(alloc);
    let mut takers = Vec::new(alloc);
    for i in 0..items.len() {
        push_uses(
            &mut makers,
            &mut takers,
            items.producer(i),
            items.readers(i),
        )?;
    }
    let count = system.tasks().len() as u32 + 1;
    let made = RowTable::group(alloc, &makers, count, 0)?;
    let taken = RowTable::group(alloc, &takers, count, 0)?;
    Ok(UseTable {
        makers,
        takers,
        made,
        taken,
    })
}
