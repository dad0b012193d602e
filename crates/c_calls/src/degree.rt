//! The order of minimum degree.

ghost use Rattle.std.specs.Prelude.{◌≡◌, ◌≢◌, ◌≤◌, length, map, IfOk, IfErr, OnOk};
ghost use Rattle.limits.specs.Limits.{most_order};
ghost use Rattle.equivalent_orders.specs.Arrays.{number_from};
ghost use Rattle.c_calls.specs.Faults.{IsRefusedFor};
ghost use Rattle.c_calls.specs.Fronts.{IsDegreeCallRefusal, IsDegreeOrder};

use crate::faults::{Fault, refuse};
use crate::fronts::hand_out_columns;
use crate::orders::check_room;
use crate::refusal::Refusal;
use ordering::min_degree;
use patterns::pattern_of_columns;
use permutations::Perm;
use std::alloc::Global;

fn order_of(
    alloc: Global,
    base: u32,
    starts: &[u32],
    rows: &[u32],
    room: usize,
) -> Result<Perm, Refusal>
    ensures order { IfOk result (λ order. IsDegreeOrder base starts.now rows.now (map (number_from base) order)) }
    ensures base { OnOk result (base ≤ 1) }
    ensures len { IfOk result (λ order. length order ≡ room) }
    ensures few { OnOk result (room ≤ most_order) }
    ensures refused { IfErr result (IsDegreeCallRefusal base starts.now rows.now room) }
{
    check_room(starts.len().saturating_sub(1), room)?;
    let pattern = pattern_of_columns(alloc, base, starts, rows)?;
    let order = min_degree(alloc, &pattern)?;
    Ok(order)
}

/// The columns of a matrix in the order of minimum degree, which `matrix_fronts` takes where none is given. George and Liu 1989.
pub fn minimum_degree(
    alloc: Global,
    base: u32,
    starts: &[u32],
    rows: &[u32],
    columns: &mut [u32],
    fault: &mut Fault,
) -> u32
    // 0: the columns are those of the matrix, in the order of minimum degree
    ensures ordered { result ≡ 0 → IsDegreeOrder base starts.now rows.now columns.new }
    ensures refused { result ≢ 0 → IsRefusedFor (IsDegreeCallRefusal base starts.now rows.now (length columns.old)) result fault.new }
    ensures unchanged { result ≢ 0 → columns.new ≡ columns.old }
    ensures no_fault { result ≡ 0 → fault.new ≡ fault.old }
{
    match order_of(alloc, base, starts, rows, columns.len()) {
        Ok(order) => {
            hand_out_columns(base, &order, columns);
            0
        }
        Err(refusal) => refuse(refusal, fault),
    }
}
