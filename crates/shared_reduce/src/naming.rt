//! Orders of the tasks of a term, by the names that its tasks have in a system.

ghost use Rattle.std.specs.Prelude.{◌≡◌, ◌≤◌, ℕ, All, IfOk, length, map};
ghost use Rattle.mp_system.specs.Renaming.{name_in};
ghost use Rattle.sp_terms.specs.Values.{term_of};
ghost use Rattle.graphs.specs.Graph.{completed_system};
ghost use Rattle.sp_reduce.specs.Reduced.{HasSystem};
ghost use Rattle.shared_systems.specs.Shared.{SharedTaskSystem};
ghost use Rattle.shared_systems.specs.Bounds.{IsSharedSystem};
ghost use Rattle.shared_systems.specs.Paths.{IsRealizer};
ghost use Rattle.shared_reduce.specs.Uses.{uses_of};

use crate::NoMemory;
use sp_reduce::Reduced;
use std::alloc::Global;
use term_orders::{TermOrders, term_orders};

// The tasks of the order, each by its name.
fn by_name(alloc: Global, order: &[u32], names: &[u32]) -> Result<Vec<u32>, NoMemory>
    requires { All (λ v. (1 ≤ v) × (v ≤ length names.now)) order.now }
    ensures { IfOk result (λ named. named.items ≡ map (name_in names.now) order.now) }
{
    let mut named = Vec::with_capacity(alloc, order.len())?;
    for task in order {
        named.push(names[*task as usize - 1])?;
    }
    Ok(named)
}

/// Two orders of the tasks of a shared system that tell which come after which, by the term of its graph of uses. Linear in the positions
/// of the term.
pub fn system_orders(alloc: Global, reduced: &Reduced) -> Result<TermOrders, NoMemory>
    requires { (system : SharedTaskSystem) × HasSystem reduced.now.names.items (term_of reduced.now.terms) (completed_system (uses_of system)) }
    ensures { IfOk result (λ orders. (system : SharedTaskSystem) → IsSharedSystem system →
        HasSystem reduced.now.names.items (term_of reduced.now.terms) (completed_system (uses_of system)) →
        IsRealizer system orders.first.items orders.second.items) }
{
    let orders = term_orders(alloc, &reduced.terms)?;
    let first = by_name(alloc, &orders.first, &reduced.names)?;
    let second = by_name(alloc, &orders.second, &reduced.names)?;
    Ok(TermOrders { first, second })
}
