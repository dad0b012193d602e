ghost use Rattle.std.specs.Prelude.{◌≡◌, IfOk};
ghost use Rattle.sp_terms.specs.Values.{term_of};
ghost use Rattle.sp_terms.specs.SystemOfTerm.{system_of_term};
ghost use Rattle.shared_systems.specs.OneReader.{shared_of};
ghost use Rattle.shared_systems.specs.Paths.{IsRealizer};
ghost use Rattle.term_orders.specs.TermOrders.{order_of};

use crate::NoMemory;
use crate::laws::realizer_law;
use crate::listing::list_tasks;
use crate::side::Side;
use crate::tables::{counts_of, starts_of};
use sp_terms::TermList;
use sp_terms::laws::terms_law;
use std::alloc::Global;

/// Two orders of the tasks of a term.
#[derive(Drop)]
pub struct TermOrders {
    /// From left to right.
    pub first: Vec<u32>,
    /// With the parts side by side from right to left.
    pub second: Vec<u32>,
}

/// The order of the tasks of a term from the side of the part that comes first; the task of a series stands between those of its parts.
/// Linear in the positions.
pub fn term_order(alloc: Global, terms: &TermList, side: Side) -> Result<Vec<u32>, NoMemory>
    ensures { IfOk result (λ order. order.items ≡ order_of side 1 (term_of terms.now)) }
{
    terms.keeps();
    let positions = terms.positions();
    let starts = starts_of(alloc, terms)?;
    let counts = counts_of(alloc, positions)?;
    let mut order = list_tasks(alloc, positions, &starts, &counts, side)?;
    match side {
        Side::FirstPart => Ok(order),
        Side::LastPart => {
            order.reverse();
            Ok(order)
        }
    }
}

/// Two traversals of the system of a term in which one task stands before another exactly where the other comes after it. Linear in the
/// positions.
pub fn term_orders(alloc: Global, terms: &TermList) -> Result<TermOrders, NoMemory>
    ensures { IfOk result (λ orders. IsRealizer (shared_of (system_of_term (term_of terms.now))) orders.first.items orders.second.items) }
{
    terms.keeps();
    terms_law();
    realizer_law();
    let first = term_order(alloc, terms, Side::FirstPart)?;
    let second = term_order(alloc, terms, Side::LastPart)?;
    Ok(TermOrders { first, second })
}
