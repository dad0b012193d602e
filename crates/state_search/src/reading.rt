//! The order that leads on from a state.

ghost use Rattle.std.specs.Prelude.{◌≡◌, ℕ, ◌<◌, IfOk, length};
ghost use Rattle.shared_systems.specs.Shared.{SharedTaskSystem};
ghost use Rattle.shared_systems.specs.Bounds.{IsSharedSystem};
ghost use Rattle.state_search.specs.States.{state_at};
ghost use Rattle.state_search.specs.Runs.{Runs};
ghost use Rattle.state_search.specs.Kept.{link_at, AreLookedAt};

use crate::NoMemory;
use crate::states::States;
use std::alloc::Global;

/// The tasks that led on from the state at a place, in their order, up to the end.
pub fn order_from(alloc: Global, states: &States, place: usize) -> Result<Vec<u32>, NoMemory>
    requires inside { place < length states.now.rows }
    requires links { length states.now.links ≡ length states.now.rows }
    requires earlier { (i : ℕ) → 0 < i → i < length states.now.rows → (link_at states.now.links i).next < i }
    ensures { IfOk result (λ order. (system : SharedTaskSystem) (bound : ℕ) → IsSharedSystem system → AreLookedAt system bound states.now →
        Runs system bound (state_at states.now.rows place) order.items) }
{
    let mut order = Vec::new(alloc);
    let mut i = place;
    while i > 0 {
        let link = states.link(i);
        order.push(link.task)?;
        i = link.next;
    }
    Ok(order)
}
