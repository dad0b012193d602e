//! The search: a system as a network, reduced, its parts by themselves and all of them together.

use crate::NoMemory;
use crate::components::{Components, merged};
use crate::effort::Effort;
use crate::greedy::Cost;
use crate::improve::Depth;
use crate::network::Network;
use crate::portfolio::Portfolio;
use crate::ready::{Rule, ready_order};
use crate::reduced::{Reduced, expanded, shrunk};
use crate::tables::{number_at, signed};
use shared_systems::SharedSystem;
use std::alloc::Global;

// How large closures of a greedy order may be.
const ALONE: u32 = 1;

const SMALL: u32 = 30;

const LARGE: u32 = 200;

// How many steps at most the reduction takes for each node and arc, and the search of a part by itself: fewer where the part is so many times
// less than all that it is better to look at all.
const STEPS_TO_REDUCE: u64 = 1_000;

const STEPS_FOR_A_PART: u64 = 200_000;

const STEPS_FOR_A_LARGE_PART: u64 = 22_000;

const TIMES_LESS: usize = 4;

// At how many places of a part's order, the highest first, nothing may be found: its peaks count where it is merged with others.
const MISSES_OF_A_PART: u32 = 16;

// With how many states of each part how many of the best orders are improved.
const DEPTHS: [(u32, usize); 4] = [(1_000, 4), (4_000, 2), (16_000, 2), (64_000, 1)];

// What is tried on a network after the plain orders, from what gives the most to what costs the most.
fn try_more(alloc: Global, portfolio: &mut Portfolio, misses: u32) -> Result<(), NoMemory> {
    for cost in [Cost::Left, Cost::Both, Cost::Peak] {
        portfolio.try_tastes(alloc, ALONE, cost)?;
    }
    portfolio.try_tastes(alloc, SMALL, Cost::Left)?;
    improve_up_to(alloc, portfolio, misses, 1_000)?;
    portfolio.try_tastes(alloc, SMALL, Cost::Both)?;
    portfolio.try_tastes(alloc, SMALL, Cost::Peak)?;
    improve_up_to(alloc, portfolio, misses, 16_000)?;
    portfolio.try_tastes(alloc, LARGE, Cost::Left)?;
    portfolio.try_tastes(alloc, LARGE, Cost::Both)?;
    improve_up_to(alloc, portfolio, misses, 64_000)?;
    portfolio.improve(
        alloc,
        usize::MAX,
        Depth {
            states: 64_000,
            misses,
        },
    )
}

// Improves the orders that were kept with more and more states of each part, up to so many.
fn improve_up_to(
    alloc: Global,
    portfolio: &mut Portfolio,
    misses: u32,
    most: u32,
) -> Result<(), NoMemory> {
    for (states, count) in DEPTHS {
        if states <= most {
            portfolio.improve(alloc, count, Depth { states, misses })?;
        }
    }
    Ok(())
}

// The numbers of these nodes in their part.
fn numbers_of(alloc: Global, components: &Components, nodes: &[u32]) -> Result<Vec<u32>, NoMemory> {
    nodes
        .iter()
        .map(|node| components.number(*node))
        .collect(alloc)
}

// How many steps the search of a part may take for each node and arc of all parts, so that a quarter of the effort is left.
fn steps_for_each(network: &Network, effort: &Effort) -> u64 {
    (effort.left() / 4).saturating_mul(3) / (network.size() as u64).max(1)
}

// How many steps it may take for each node and arc of the part.
fn most_for_each(network: &Network, part: &Network) -> u64 {
    if part.size().saturating_mul(TIMES_LESS) > network.size() {
        STEPS_FOR_A_LARGE_PART
    } else {
        STEPS_FOR_A_PART
    }
}

// The best order of one part that is found by itself, by the numbers in the part, with so many steps at most for each node and arc.
fn order_of_part(
    alloc: Global,
    part: Network,
    start: &[u32],
    each: u64,
    effort: &mut Effort,
) -> Result<Vec<u32>, NoMemory> {
    let most = (part.size() as u64).saturating_mul(each);
    let mut portfolio = Portfolio::new(alloc, part, start, i64::MIN, effort.part(most))?;
    portfolio.try_plain(alloc)?;
    try_more(alloc, &mut portfolio, MISSES_OF_A_PART)?;
    effort.add(portfolio.effort);
    Vec::from_slice(alloc, portfolio.best())
}

// An order of which each part was searched by itself; none if the effort did not suffice.
fn order_of_parts(
    alloc: Global,
    network: &Network,
    components: &Components,
    effort: &mut Effort,
) -> Result<Option<Vec<u32>>, NoMemory> {
    let order = ready_order(alloc, network, Rule::Number)?;
    let all: Vec<u32> = (0..network.nodes()).collect(alloc)?;
    let starts = components.split(alloc, &order)?;
    let rows = components.split(alloc, &all)?;
    let mut listed = Vec::with_capacity(alloc, all.len())?;
    let each = steps_for_each(network, effort);
    for k in 0..components.len() {
        let members = rows.row(k);
        let start = numbers_of(alloc, components, starts.row(k))?;
        let part = components.network(alloc, network, members)?;
        let each = each.min(most_for_each(network, &part));
        for node in &order_of_part(alloc, part, &start, each, effort)? {
            listed.push(number_at(members, *node))?;
        }
    }
    if effort.is_spent() {
        return Ok(None);
    }
    let orders = components.split(alloc, &listed)?;
    Ok(Some(merged(alloc, network, &orders, components.len())?))
}

// The best order of a network that is found, with an effort, or one that is good enough.
fn best_order(
    alloc: Global,
    network: Network,
    enough: i64,
    effort: &mut Effort,
) -> Result<Vec<u32>, NoMemory> {
    let start = ready_order(alloc, &network, Rule::Number)?;
    let mut portfolio = Portfolio::new(alloc, network, &start, enough, *effort)?;
    portfolio.try_plain(alloc)?;
    let components = Components::new(alloc, portfolio.network())?;
    if components.len() > 1 && !portfolio.is_over() {
        let mut effort = portfolio.effort;
        let order = order_of_parts(alloc, portfolio.network(), &components, &mut effort)?;
        portfolio.effort = effort;
        if let Some(order) = order {
            portfolio.offer(alloc, &order, false)?;
        }
    }
    try_more(alloc, &mut portfolio, 1)?;
    *effort = portfolio.effort;
    Vec::from_slice(alloc, portfolio.best())
}

// The best order that is found of what a network is reduced to, with an effort, as an order of the network itself; none if the effort does not
// suffice to reduce it.
fn reduced_order(
    alloc: Global,
    network: &Network,
    enough: i64,
    effort: &mut Effort,
) -> Result<Option<Vec<u32>>, NoMemory> {
    let most = (network.size() as u64).saturating_mul(STEPS_TO_REDUCE);
    if effort.left() < most {
        return Ok(None);
    }
    let numbers = ready_order(alloc, network, Rule::Number)?;
    let (reduced, spent) = shrunk(alloc, network, &numbers, effort.part(most))?;
    effort.add(spent);
    let Reduced { network, members } = reduced;
    let order = best_order(alloc, network, enough, effort)?;
    Ok(Some(expanded(alloc, &members, &order)?))
}

// The numbers of the tasks in an order of nodes.
fn tasks_of(alloc: Global, tasks: u32, order: &[u32]) -> Result<Vec<u32>, NoMemory> {
    order
        .iter()
        .copied()
        .filter(|node| *node < tasks)
        .map(|node| node.saturating_add(1))
        .collect(alloc)
}

/// The best order of a system's tasks that is found from one on, with an effort, or one whose peak is low enough. That it is a traversal, and no
/// worse, is not promised.
pub fn searched(
    alloc: Global,
    system: &SharedSystem,
    start: &[u32],
    enough: u64,
    effort: u64,
) -> Result<Vec<u32>, NoMemory> {
    let network = Network::new(alloc, system)?;
    let tasks = network.tasks();
    let start: Vec<u32> = start
        .iter()
        .map(|task| task.saturating_sub(1))
        .collect(alloc)?;
    let enough = signed(enough);
    let mut whole = Portfolio::new(alloc, network, &start, enough, Effort::new(effort))?;
    whole.try_plain(alloc)?;
    if whole.is_over() {
        return tasks_of(alloc, tasks, whole.best());
    }
    let mut effort = whole.effort;
    let order = reduced_order(alloc, whole.network(), enough, &mut effort)?;
    whole.effort = effort;
    if let Some(order) = order {
        whole.offer(alloc, &order, false)?;
    }
    tasks_of(alloc, tasks, whole.best())
}
