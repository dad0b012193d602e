ghost use Rattle.std.specs.Prelude.{◌≡◌, ℕ, List, IfOk, IfErr};
ghost use Rattle.sp_terms.specs.Values.{term_of};
ghost use Rattle.graphs.specs.Graph.{completed_system};
ghost use Rattle.sp_reduce.specs.Reduced.{HasSystem};
ghost use Rattle.carried_graphs.specs.Carried.{AreLastReaders, carried};
ghost use Rattle.shared_reduce.specs.Refusal.{IsSharedReduceRefusal};
ghost use Rattle.shared_reduce.specs.SharedTerm.{IsCarriedTerm, IsSharedTerm, IsRefusedTerm};
ghost use Rattle.shared_reduce.specs.Uses.{uses_of};

use crate::naming::system_orders;
use crate::refusal::SharedReduceRefusal;
use crate::single::single_readers;
use crate::uses::use_graph;
use carried_graphs::{CarriedRefusal, LastReaderRefusal, carried_graph, last_readers};
use joined_systems::join_tasks;
use shared_systems::SharedSystem;
use sp_reduce::{ReduceRefusal, Reduced, reduce};
use std::alloc::Global;

// The term of the graph of uses.
fn reduce_uses(alloc: Global, system: &SharedSystem) -> Result<Reduced, SharedReduceRefusal>
    ensures reduced { IfOk result (λ r. HasSystem r.names.items (term_of r.terms) (completed_system (uses_of system.now))) }
    ensures refused { IfErr result (IsSharedReduceRefusal system.now) }
{
    let graph = match use_graph(alloc, system) {
        Ok(graph) => graph,
        Err(CarriedRefusal::Arcs) => return Err(SharedReduceRefusal::Arcs),
        Err(CarriedRefusal::NoMemory) => return Err(SharedReduceRefusal::NoMemory),
    };
    match reduce(alloc, &graph) {
        Ok(reduced) => Ok(reduced),
        Err(ReduceRefusal::Rest(arcs)) => Err(SharedReduceRefusal::Uses(arcs)),
        Err(ReduceRefusal::NoMemory) => Err(SharedReduceRefusal::NoMemory),
    }
}

// The last readers of a system, by the term of its graph of uses.
fn lasts_by_uses(alloc: Global, system: &SharedSystem) -> Result<Vec<u32>, SharedReduceRefusal>
    ensures lasts { IfOk result (λ lasts. AreLastReaders system.now lasts.items) }
    ensures refused { IfErr result (IsSharedReduceRefusal system.now) }
{
    system.keeps();
    let uses = reduce_uses(alloc, system)?;
    let orders = system_orders(alloc, &uses)?;
    match last_readers(alloc, system, &orders.first, &orders.second) {
        Ok(lasts) => Ok(lasts),
        Err(LastReaderRefusal::Item(item)) => Err(SharedReduceRefusal::Item(item)),
        Err(LastReaderRefusal::NoMemory) => Err(SharedReduceRefusal::NoMemory),
    }
}

// The last readers of a system: the one reader of each item, or by the graph of uses where an item has several.
fn find_lasts(alloc: Global, system: &SharedSystem) -> Result<Vec<u32>, SharedReduceRefusal>
    ensures lasts { IfOk result (λ lasts. AreLastReaders system.now lasts.items) }
    ensures refused { IfErr result (IsSharedReduceRefusal system.now) }
{
    match single_readers(alloc, system.items())? {
        Some(lasts) => Ok(lasts),
        None => lasts_by_uses(alloc, system),
    }
}

// The term of the graph in which these last readers alone carry the items.
fn reduce_carried(
    alloc: Global,
    system: &SharedSystem,
    lasts: &[u32],
) -> Result<Reduced, SharedReduceRefusal>
    requires { AreLastReaders system.now lasts.now }
    ensures reduced { IfOk result (λ r. IsCarriedTerm system.now r.names.items (term_of r.terms)) }
    ensures refused { IfErr result (IsSharedReduceRefusal system.now) }
{
    let graph = match carried_graph(alloc, system, lasts) {
        Ok(graph) => graph,
        Err(CarriedRefusal::Arcs) => return Err(SharedReduceRefusal::Arcs),
        Err(CarriedRefusal::NoMemory) => return Err(SharedReduceRefusal::NoMemory),
    };
    match reduce(alloc, &graph) {
        Ok(reduced) => Ok(reduced),
        Err(ReduceRefusal::Rest(arcs)) => Err(SharedReduceRefusal::Rest(arcs)),
        Err(ReduceRefusal::NoMemory) => Err(SharedReduceRefusal::NoMemory),
    }
}

/// A term whose orders tell those of the shared system with their peaks: that of the graph in which the last readers of the system with its
/// joins alone carry the items. Or why there is none: the graph of uses has no term, an item with readers has none that comes after all
/// the others, or the graph in which the last readers carry the items has no term or too many arcs. Expected near linear in the tasks, the
/// items and the readers of all items, but for the order of the rest.
pub fn reduce_shared(alloc: Global, system: &SharedSystem) -> Result<Reduced, SharedReduceRefusal>
    ensures reduced { IfOk result (λ r. IsSharedTerm system.now r.names.items (term_of r.terms)) }
    ensures refused { IfErr result (IsRefusedTerm system.now) }
{
    let joined = join_tasks(alloc, system)?;
    let lasts = find_lasts(alloc, &joined)?;
    reduce_carried(alloc, &joined, &lasts)
}
