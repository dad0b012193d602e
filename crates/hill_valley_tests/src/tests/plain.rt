//! The same words over a sorted list of segments, each with its own list of tasks: plain and slow, for the tests alone.

use hill_valley::NoMemory;
use std::alloc::Global;
use std::collections::VecDeque;

/// A segment with its tasks.
#[derive(PartialEq, Debug, Drop)]
pub struct PlainSeg {
    pub up: u64,
    pub net: u64,
    pub tasks: Vec<u32>,
}

/// Segments in rising order of `up`.
pub type PlainSide = VecDeque<PlainSeg>;

/// A segment of one task.
pub fn one(alloc: Global, up: u64, net: u64, task: u32) -> Result<PlainSeg, NoMemory> {
    let tasks = vec![in alloc; task]?;
    Ok(PlainSeg { up, net, tasks })
}

pub fn insert(side: &mut PlainSide, seg: PlainSeg, before: bool) -> Result<(), NoMemory> {
    let at = side
        .iter()
        .position(|own| seg.up <= own.up)
        .unwrap_or(side.len());
    match side.get_mut(at) {
        Some(own) if own.up == seg.up => join(own, seg, before),
        _ => Ok(side.insert(at, seg)?),
    }
}

pub fn append(side: &mut PlainSide, run: PlainSeg) -> Result<(), NoMemory> {
    match side.back_mut() {
        Some(last) if run.up <= last.up => join(last, run, false),
        _ => Ok(side.push_back(run)?),
    }
}

// One segment with another, whose tasks come first where `before` is true.
fn join(own: &mut PlainSeg, seg: PlainSeg, before: bool) -> Result<(), NoMemory> {
    own.net = own.net.saturating_add(seg.net);
    let at = if before { 0 } else { own.tasks.len() };
    for (i, task) in seg.tasks.iter().enumerate() {
        own.tasks.insert((at + i).min(own.tasks.len()), *task)?;
    }
    Ok(())
}

/// Runs the segments from a level while they stay below the limit: the level then, and the greatest memory.
pub fn run(side: &PlainSide, level: u64, limit: u64) -> (u64, u64) {
    let mut at = level;
    let mut most = level;
    for seg in side.iter() {
        let hill = at.saturating_add(seg.up);
        if limit <= hill {
            break;
        }
        most = most.max(hill);
        at = at.saturating_sub(seg.net);
    }
    (at, most)
}
