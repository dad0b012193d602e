//! Amounts that certify little, by a search that promises nothing: what it finds is judged before it is used.
//!
//! The least bound that amounts certify is a least flow with lower bounds, through each task at least what it holds while it runs, and along each
//! item at least its size: L. Marchal, B. Simon and F. Vivien, "Limiting the memory footprint when dynamically scheduling DAGs on shared-memory
//! platforms", 2018. It is made of what is handed on near each task, by sending back from where memory is left over to where some is drawn.

use crate::NoMemory;
use crate::backwards::Backwards;
use crate::handing::{Handing, handed_on};
use crate::max_flow::FlowNetwork;
use crate::network::Network;
use fences::Fence;
use mp_system::Item;
use std::alloc::Global;

/// Amounts, first of the items, behind them of the fences, and what all tasks draw beside these, with the memory at the start; and how many of the
/// steps are left.
#[derive(Drop)]
pub struct LeastFlow {
    pub amounts: Vec<u64>,
    pub bound: u64,
    pub steps: u64,
}

/// What goes into a task, and what out of it.
#[derive(Clone, Copy)]
pub struct Ends {
    pub size: u64,
    pub into: u64,
    pub out: u64,
}

/// Nothing goes into it or out of it.
pub const NO_ENDS: Ends = Ends {
    size: 0,
    into: 0,
    out: 0,
};

/// What a task draws, what is left over there, and how much more than it holds goes through it.
pub struct Through {
    pub drawn: u64,
    pub over: u64,
    pub more: u64,
}

fn add_ends(all: &mut [Ends], from: u32, to: u32, size: u64, amount: u64) {
    if let Some(ends) = all.get_mut(from as usize) {
        ends.out = ends.out.saturating_add(amount);
    }
    if let Some(ends) = all.get_mut(to as usize) {
        ends.into = ends.into.saturating_add(amount);
        ends.size = ends.size.saturating_add(size);
    }
}

/// What goes into each task and out of it, by its number.
pub fn ends_of(
    alloc: Global,
    network: &Network,
    fences: &[Fence],
    amounts: &[u64],
) -> Result<Vec<Ends>, NoMemory> {
    let mut all = vec![in alloc; NO_ENDS; network.len()]?;
    let items = network.items();
    for (k, amount) in amounts.iter().enumerate() {
        if let Some(Item { size, from, to }) = items.get(k).copied() {
            add_ends(&mut all, from.unwrap_or(0), to.unwrap_or(0), size, *amount);
        } else if let Some(fence) = fences.get(k.saturating_sub(items.len())) {
            add_ends(&mut all, fence.from, fence.to, 0, *amount);
        }
    }
    Ok(all)
}

/// What goes through a task that needs less by the room of its worker.
pub fn through_of(network: &Network, ends: Ends, task: u32, room: u64) -> Through {
    let held = ends.size.saturating_add(network.taken(task, room));
    let through = held.max(ends.into).max(ends.out);
    Through {
        drawn: through.saturating_sub(ends.into),
        over: through.saturating_sub(ends.out),
        more: through.saturating_sub(held),
    }
}

// More than all memory together.
const NO_LIMIT: u64 = 1 << 61;

// The node at which what is handed to a task comes in, and the one at which it goes out.
fn node_into(task: u32) -> usize {
    (task as usize).saturating_mul(2)
}

fn node_out(task: u32) -> usize {
    node_into(task).saturating_add(1)
}

// The arcs of the items and of the fences, in the order of the amounts: what is above the size of an item can be sent back.
fn add_amounts(
    flow: &mut FlowNetwork,
    search: &Backwards,
    amounts: &[u64],
) -> Result<(), NoMemory> {
    let (items, fences) = (search.network.items(), search.fences());
    for (k, amount) in amounts.iter().enumerate() {
        let (from, to, size) = if let Some(Item { size, from, to }) = items.get(k).copied() {
            (from.unwrap_or(0), to.unwrap_or(0), size)
        } else if let Some(fence) = fences.get(k.saturating_sub(items.len())) {
            (fence.from, fence.to, 0)
        } else {
            (0, 0, 0)
        };
        flow.add_arc(
            node_out(from),
            node_into(to),
            NO_LIMIT,
            amount.saturating_sub(size),
        )?;
    }
    Ok(())
}

// The arcs of the tasks. The bound that the amounts certify so far is told.
fn add_tasks(
    flow: &mut FlowNetwork,
    search: &Backwards,
    ends: &[Ends],
    room: u64,
    source: usize,
    sink: usize,
) -> Result<u64, NoMemory> {
    let mut bound = search.network.stock();
    for task in search.network.order {
        let own = ends.get(*task as usize).copied().unwrap_or(NO_ENDS);
        let Through { drawn, over, more } = through_of(search.network, own, *task, room);
        let (into, out) = (node_into(*task), node_out(*task));
        flow.add_arc(source, out, over, 0)?;
        flow.add_arc(out, into, more, NO_LIMIT)?;
        flow.add_arc(into, sink, drawn, 0)?;
        bound = bound.saturating_add(drawn);
    }
    Ok(bound)
}

// The amounts after some was sent back.
fn set_amounts(flow: &FlowNetwork, items: &[Item], amounts: &mut [u64]) {
    for k in 0..amounts.len() {
        let size = items.get(k).map_or(0, |item| item.size);
        let turned = k.saturating_mul(2).saturating_add(1);
        if let Some(amount) = amounts.get_mut(k) {
            *amount = size.saturating_add(flow.left(turned));
        }
    }
}

/// Amounts for the items and the fences, where each task needs less by the room of its worker. So many steps may be made.
pub fn least_flow(
    alloc: Global,
    search: &mut Backwards,
    room: u64,
    steps: u64,
) -> Result<LeastFlow, NoMemory> {
    let Handing {
        mut amounts,
        steps: made,
        ..
    } = handed_on(alloc, search, room)?;
    let made = made.saturating_add(amounts.len() as u64);
    let ends = ends_of(alloc, search.network, search.fences(), &amounts)?;
    let source = search.network.len().saturating_mul(2);
    let sink = source.saturating_add(1);
    let mut flow = FlowNetwork::new(alloc, sink.saturating_add(1), steps.saturating_sub(made))?;
    add_amounts(&mut flow, search, &amounts)?;
    let whole = add_tasks(&mut flow, search, &ends, room, source, sink)?;
    flow.send(source, sink)?;
    set_amounts(&flow, search.network.items(), &mut amounts);
    Ok(LeastFlow {
        amounts,
        bound: whole.saturating_sub(flow.sent()),
        steps: flow.steps(),
    })
}
