//! How many steps the searches take at most: the more tasks a graph has, the more. An effort is what the bound of about a thousand tasks may take.
//! How many states are looked at: the more tasks, the fewer.

// In thousandths of the effort: what the search for an order begins with, what each thousand tasks add, and the most.
const ORDER: u64 = 500;

const ORDER_BY_TASKS: u64 = 350;

const MOST_FOR_ORDER: u64 = 15_000;

// The same for the search for a bound.
const BOUND: u64 = 900;

const BOUND_BY_TASKS: u64 = 100;

const MOST_FOR_BOUND: u64 = 5_000;

// What the search for an order takes before the bound is looked for is such a part of all.
const QUICK: u64 = 20;

// Of the states that are looked at so many marks, one for each task of each, for so much effort.
const MARKS: u64 = 1 << 24;

const FOR_MARKS: u64 = 1_000_000_000;

// Their number fits 32 bits.
const MOST_STATES: u64 = (1 << 32) - 1;

// So many thousandths of an effort.
fn thousandths(effort: u64, first: u64, by_tasks: u64, most: u64, tasks: usize) -> u64 {
    let more = (tasks as u64).saturating_mul(by_tasks) / 1_000;
    effort.saturating_mul(first.saturating_add(more).min(most)) / 1_000
}

/// How many steps the search for an order may take: a half of the effort, and 0.35 of it for each thousand tasks, up to 15 times it.
pub fn search_effort(effort: u64, tasks: usize) -> u64 {
    thousandths(effort, ORDER, ORDER_BY_TASKS, MOST_FOR_ORDER, tasks)
}

/// How many the search for the first order may, the peak of which the bound is looked for below.
pub fn quick_effort(effort: u64, tasks: usize) -> u64 {
    search_effort(effort, tasks) / QUICK
}

/// How many the search for a bound may, and as many again for its evidence: nine tenths of the effort, and a tenth of it for each thousand
/// tasks, up to 5 times it.
pub fn bound_effort(effort: u64, tasks: usize) -> u64 {
    thousandths(effort, BOUND, BOUND_BY_TASKS, MOST_FOR_BOUND, tasks)
}

/// How many states may be looked at at a time: so many that they have 2^24 marks, one for each task of each, at an effort of 1,000,000,000, and
/// in proportion to the effort.
pub fn states_effort(effort: u64, tasks: usize) -> u32 {
    let marks = effort.saturating_mul(MARKS) / FOR_MARKS;
    (marks / (tasks as u64).max(1)).min(MOST_STATES) as u32
}
