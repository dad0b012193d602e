//! Whether some order passes a system.

ghost use Rattle.std.specs.Prelude.{◌≡◌, ◌≤◌, ◌↔◌, ℕ, List, length, IsTrue, IfOk, MatchOption, MatchResult};
ghost use Rattle.lists.specs.Numbers.{Each, IsFirstWithout};
ghost use Rattle.mp_system.specs.Traversal.{IsTraversal};
ghost use Rattle.fences.specs.Judged.{item_at};
ghost use Rattle.fences.specs.Orders.{IsApart, IsOrderFault, arcs_of};

use crate::NoMemory;
use graphs::{Arc, first_unordered, ordered_tasks};
use mp_system::{Item, System};
use std::alloc::Global;

/// Why no order passes a system.
#[derive(Clone, Copy, Debug, PartialEq, Eq)]
pub enum OrderFault {
    /// This item, counted from 1, is the first that one task both produces and consumes.
    OwnInput(u32),
    /// This task, the lowest such, stands in no list of tasks in which each stands after all that it waits for.
    Cycle(u32),
    /// Memory ran out, which says nothing of the system.
    NoMemory,
}

impl From<NoMemory> for OrderFault {
    ghost use Rattle.fences.specs.declared.ordered.OrderFault.TheVariants.{NoMemory as OutOfMemory};

    ghost from_gives = { λ _ e. e ≡ OutOfMemory };

    fn from(_no_memory: NoMemory) -> OrderFault {
        OrderFault::NoMemory
    }
}

// Whether no task both produces and consumes the item.
fn is_apart(item: Item) -> bool
    ensures { IsTrue result ↔ IsApart item }
{
    item.from.is_none() || item.from != item.to
}

// The first item, counted from 1, that one task both produces and consumes.
fn first_own_input(system: &System) -> Option<u32>
    ensures { MatchOption result
        (Each (length system.now.items) (λ k. IsApart (item_at system.now k)))
        (IsFirstWithout (length system.now.items) (λ k. IsApart (item_at system.now k))) }
{
    let items = system.items();
    for i in 0..items.len() {
        if !is_apart(items[i]) {
            return Some(i as u32 + 1);
        }
    }
    None
}

// The items as arcs of a graph.
fn arcs_of(alloc: Global, items: &[Item]) -> Result<Vec<Arc>, NoMemory>
    ensures { IfOk result (λ arcs. arcs.items ≡ arcs_of items.now) }
{
    items
        .iter()
        .map(|item| Arc {
            from: item.from.unwrap_or(0),
            to: item.to.unwrap_or(0),
            size: item.size,
        })
        .collect(alloc)
}

/// An order that passes the system, or why there is none. Linear. Kahn 1962.
pub fn order_of(alloc: Global, system: &System) -> Result<Vec<u32>, OrderFault>
    ensures { MatchResult result (λ order. IsTraversal system.now order.items) (IsOrderFault system.now) }
{
    system.keeps();
    if let Some(item) = first_own_input(system) {
        return Err(OrderFault::OwnInput(item));
    }
    let count = system.tasks().len() as u32;
    let arcs = arcs_of(alloc, system.items())?;
    if let Some(task) = first_unordered(alloc, count, &arcs)? {
        return Err(OrderFault::Cycle(task));
    }
    let order = ordered_tasks(alloc, count, &arcs)?;
    Ok(order)
}
