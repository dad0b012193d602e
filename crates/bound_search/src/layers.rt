//! Layers: the tasks of one depth, which is the length of the longest way to a task. Where a graph is the same all over, as that of a
//! Fourier transform, they show at once what growth comes to slowly.

use crate::NoMemory;
use crate::effort::Effort;
use crate::growth::Growth;
use crate::kept_flow::MUCH;
use crate::side::Side;
use crate::tables::{count_of, number_at};
use std::alloc::Global;

/// A bound, and the tasks that show it.
#[derive(Drop)]
pub struct Layer {
    /// The bound.
    pub bound: i64,
    /// The tasks of one depth.
    pub tasks: Vec<u32>,
}

// The least of what the tasks of a layer need, if that is above a limit and the effort suffices.
fn value_of(growth: &mut Growth, side: &Side, limit: i64) -> Result<Option<i64>, NoMemory> {
    let mut best = MUCH;
    for k in 0..growth.ready().len() {
        let task = number_at(growth.ready(), count_of(k));
        best = best.min(growth.value(&side.network, task, best)?);
        if best <= limit || growth.effort().is_spent() {
            return Ok(None);
        }
    }
    if best >= MUCH {
        return Ok(None);
    }
    Ok(Some(best))
}

/// The layer of at most so many tasks that shows the most, if that is above a limit by some. What was spent, too.
pub fn best_layer(
    alloc: Global,
    side: &Side,
    limit: i64,
    widest: u64,
    effort: Effort,
) -> Result<(Option<Layer>, Effort), NoMemory> {
    let mut growth = Growth::new(alloc, &side.network, effort)?;
    let mut best = None;
    let mut limit = limit;
    for _ in 0..side.network.tasks() {
        if growth.ready().len() == 0 || growth.effort().is_spent() {
            break;
        }
        if growth.ready().len() as u64 <= widest
            && let Some(bound) = value_of(&mut growth, side, limit)?
        {
            limit = bound;
            best = Some(Layer {
                bound,
                tasks: Vec::from_slice(alloc, growth.ready())?,
            });
        }
        growth.add_ready(alloc, &side.network)?;
    }
    Ok((best, growth.effort()))
}
