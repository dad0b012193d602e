//! Orders of elimination along fronts.

ghost use Rattle.std.specs.Prelude.{◌≡◌, ◌≢◌, length, IfOk, IfErr, OnOk};
ghost use Rattle.equivalent_orders.specs.Arrays.{AreFrontColumns, columns_along};
ghost use Rattle.c_calls.specs.Columns.{AreAlongFronts, IsColumnsCallRefusal};
ghost use Rattle.c_calls.specs.Faults.{IsRefusedFor};

use crate::faults::{Fault, refuse};
use crate::orders::check_room;
use crate::refusal::Refusal;
use equivalent_orders::columns_along;
use std::alloc::Global;

fn columns_of(
    alloc: Global,
    base: u32,
    columns: &[u32],
    front_of: &[u32],
    fronts: &[u32],
    room: usize,
) -> Result<Vec<u32>, Refusal>
    ensures along { IfOk result (λ new. new.items ≡ columns_along base columns.now front_of.now fronts.now) }
    ensures given { OnOk result (AreFrontColumns base columns.now front_of.now fronts.now) }
    ensures long { IfOk result (λ new. length new.items ≡ room) }
    ensures refused { IfErr result (IsColumnsCallRefusal base columns.now front_of.now fronts.now room) }
{
    check_room(columns.len(), room)?;
    let new = columns_along(alloc, base, columns, front_of, fronts)?;
    Ok(new)
}

/// The columns of each front in the order in which they stand, one front after another in their order. Where the columns and their fronts
/// come from `matrix_analysis`, and the order of the fronts is one of their tree, this is an order of elimination with the same fill, as
/// `laws::columns_of_analysis` says. Liu 1990 and 1992.
pub fn front_columns(
    alloc: Global,
    base: u32,
    columns: &[u32],
    front_of: &[u32],
    fronts: &[u32],
    new_columns: &mut [u32],
    fault: &mut Fault,
) -> u32
    // 0: each column and each front is there once, and the new columns are those of each front, front by front
    ensures along { result ≡ 0 → AreAlongFronts base columns.now front_of.now fronts.now new_columns.new }
    ensures refused { result ≢ 0 → IsRefusedFor
        (IsColumnsCallRefusal base columns.now front_of.now fronts.now (length new_columns.old)) result fault.new }
    ensures unchanged { result ≢ 0 → new_columns.new ≡ new_columns.old }
    ensures no_fault { result ≡ 0 → fault.new ≡ fault.old }
{
    match columns_of(alloc, base, columns, front_of, fronts, new_columns.len()) {
        Ok(new) => {
            new_columns.copy_from_slice(&new);
            0
        }
        Err(refusal) => refuse(refusal, fault),
    }
}
