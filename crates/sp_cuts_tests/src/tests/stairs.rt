//! Staircases of worked examples, by hand, and those of small random trees and workflows against a
//! plain search.

ghost use Rattle.std.specs.Prelude.{◌≡◌, ◌≤◌, ◌<◌, length};

use super::{is_ready, memory, put, put_task, random_tree, small};
use crate::tests::TWO_CHAINS;
use hill_valley::Step;
use mp_gen::gen_workflow;
use mp_system::System;
use sp_cuts::{NoMemory, Stairs, StairsRefusal, staircases};
use sp_terms::{Position, TermBuilder, TermList, Values, system_of, values};
use std::alloc::Global;
use std::marker::Brand;
use std::process::Abort;
use std::sync::ledger::{Blank, Ledger};
use std::test::Fail;
use step_count::Steps;
use workflow_files::read_workflow;

// The staircases, with a count of their own.
fn counted<L: Ledger>(
    alloc: Global,
    blank: Blank,
    terms: &TermList,
) -> Result<Vec<Stairs>, StairsRefusal>
    requires name { blank.name ≡ L.name }
    requires parts { blank.parts ≡ L.parts }
    requires some { 0 < blank.parts }
{
    let mut steps = Steps::<L>::new(blank);
    staircases(alloc, terms, &mut steps)
}

fn walked(alloc: Global, terms: &TermList) -> Result<Vec<Stairs>, StairsRefusal> {
    counted::<Brand>(alloc, Blank::new(1), terms)
}

type Pairs = &'static [(u64, u64)];

// Two nodes that need 10 and leave 1, each below one that leaves 5, below a root.
const FIVE_NODES: &[u8] = b"workflow 1\ntasks 5\ndata 0\ndata 1\ntask 9 1\ndata 5\ntask 0 1\n\
      data 0\ndata 1\ntask 9 1\ndata 5\ntask 0 1\npar 2\ndata 0\ntask 0 1\nend\n";

// From 4 down to 1, and over 10 to 3.
const VALLEY: &[u8] = b"workflow 1\ntasks 2\ndata 4\ndata 1\ntask 0 1\ndata 3\ntask 6 1\nend\n";

// A node of 6, and one above it that takes 3 of it over.
const SHARED: &[u8] = b"workflow 2\ntasks 2\ndata 0\ndata 6\ntask 0 0 1\ndata 3\ntask 0 3 1\nend\n";

// Two roots: one of 3, and one of 4 that needs 5.
const FOREST: &[u8] =
    b"workflow 1\ntasks 2\ndata 0\ndata 3\ntask 0 1\ndata 0\ndata 4\ntask 1 1\npar 2\nend\n";

// A workflow, one of its positions, and the steps of both lists there.
#[rattlefmt::skip]
const ROWS: &[(&[u8], usize, Pairs, Pairs)] = &[
    (FIVE_NODES, 3, &[], &[(10, 0)]),
    (FIVE_NODES, 5, &[], &[(6, 1), (10, 0)]),
    (FIVE_NODES, 8, &[], &[(10, 0)]),
    (FIVE_NODES, 10, &[], &[(6, 1), (10, 0)]),
    (FIVE_NODES, 13, &[], &[]),
    (VALLEY, 1, &[], &[]),
    (VALLEY, 2, &[], &[]),
    (VALLEY, 3, &[(5, 1)], &[]),
    (VALLEY, 4, &[], &[]),
    (VALLEY, 5, &[(5, 1)], &[(10, 1)]),
    (TWO_CHAINS, 11, &[(9, 2)], &[(13, 2)]),
    (SHARED, 5, &[], &[(6, 0)]),
    (FOREST, 6, &[], &[(5, 0)]),
    (FOREST, 7, &[], &[(7, 0)]),
];

fn assert_steps(rt: &impl Abort, steps: &[Step], pairs: Pairs) {
    assert_eq!(rt; steps.len(), pairs.len());
    for (step, pair) in steps.iter().zip(pairs) {
        assert_eq!(rt; (step.bound, step.level), *pair);
    }
}

#[test]
fn staircases_of_the_worked_rows(rt: HostRuntime) -> Result<(), Fail> {
    let alloc = rt.alloc();
    for (text, position, front, back) in ROWS {
        let found = walked(alloc, &read_workflow(alloc, text)?)?;
        let stairs = found.get(position.saturating_sub(1)).ok_or("a position")?;
        assert_steps(&rt, &stairs.front, front);
        assert_steps(&rt, &stairs.back, back);
    }
    Ok(())
}

// ---- the limit

// A chain of nodes, where node i leaves i and, seen from above, lies behind a higher hill than all
// nodes above it.
fn chain(alloc: Global, nodes: u64) -> Result<TermList, Fail> {
    let mut builder = TermBuilder::new(alloc);
    put(&mut builder, Position::Hold(0))?;
    for i in 1..=nodes.min(5_000) {
        put(&mut builder, Position::Hold(i))?;
        put_task(&mut builder, 15_000 - 3 * i, 0)?;
    }
    Ok(builder.finish().ok().ok_or("one term")?)
}

fn total(found: &[Stairs]) -> u64 {
    let mut sum = 0u64;
    for stairs in found {
        let steps = (stairs.front.len() as u64).saturating_add(stairs.back.len() as u64);
        sum = sum.saturating_add(steps);
    }
    sum
}

#[test]
fn as_many_steps_as_the_limit_lets_through(rt: HostRuntime) -> Result<(), Fail> {
    let alloc = rt.alloc();
    // 4,471 * 4,472 / 2
    let found = walked(alloc, &chain(alloc, 4_471)?)?;
    assert_eq!(rt; total(&found), 9_997_156);
    Ok(())
}

#[test]
fn too_many_steps_pass_the_limit(rt: HostRuntime) -> Result<(), Fail> {
    let alloc = rt.alloc();
    // 4,472 * 4,473 / 2 is 10,001,628
    let refused = walked(alloc, &chain(alloc, 4_472)?).err();
    assert_eq!(rt; refused, Some(StairsRefusal::Limit));
    Ok(())
}

// Refusals, and their words.
const TOLD: &[(StairsRefusal, &str)] = &[
    (StairsRefusal::Limit, "limit steps"),
    (StairsRefusal::NoMemory, "no memory"),
];

#[test]
fn refusals_are_told(rt: HostRuntime) -> Result<(), Fail> {
    for (refusal, words) in TOLD {
        assert_eq!(rt; format!(in rt.alloc(); "{refusal}")?.as_str(), *words);
    }
    Ok(())
}

// ---- a plain search

// For each set of tasks, its memory, and the least memory within which it is reached from the first
// state on, and from the last one back.
#[derive(Drop)]
struct Reached {
    memory: Vec<u64>,
    front: Vec<u64>,
    back: Vec<u64>,
}

fn at(numbers: &[u64], set: usize) -> u64 {
    numbers.get(set).copied().unwrap_or(u64::MAX)
}

// The memory while this task runs.
fn running(system: &System, before: usize, last: usize, task: usize) -> u64 {
    let need = system.tasks().get(task).map_or(0, |t| t.extra);
    let share = system.tasks().get(task).map_or(0, |t| t.share);
    memory(system, before | last, before)
        .saturating_add(need)
        .saturating_sub(share)
}

// The least memory within which this set is reached by a last task, whose set before it was reached
// within what `front` says.
fn forwards(system: &System, front: &[u64], set: usize) -> u64 {
    let mut least = if set == 0 { 0 } else { u64::MAX };
    for task in 0..system.tasks().len() {
        let last = 1usize << task.min(63);
        let before = set & !last;
        if set & last != 0 && is_ready(system, before, last) {
            let way = at(front, before).max(running(system, before, last, task));
            least = least.min(way);
        }
    }
    least.max(memory(system, set, set))
}

// The same from the last state back, by a next task.
fn backwards(system: &System, back: &[u64], all: usize, set: usize) -> u64 {
    let mut least = if set == all { 0 } else { u64::MAX };
    for task in 0..system.tasks().len() {
        let next = 1usize << task.min(63);
        if set & next == 0 && is_ready(system, set, next) {
            let way = at(back, all - (set | next).min(all)).max(running(system, set, next, task));
            least = least.min(way);
        }
    }
    least.max(memory(system, set, set))
}

// The set of all tasks, of which there are at most twelve.
fn all_tasks(system: &System) -> usize {
    (1usize << system.tasks().len().min(12)) - 1
}

// The memory of each set.
fn memories(alloc: Global, system: &System) -> Result<Vec<u64>, NoMemory> {
    let mut found = Vec::new(alloc);
    for set in 0..=all_tasks(system) {
        found.push(memory(system, set, set))?;
    }
    Ok(found)
}

// Each set from the first state on. The sets before a set have smaller numbers.
fn fronts(alloc: Global, system: &System) -> Result<Vec<u64>, NoMemory> {
    let mut found = Vec::new(alloc);
    for set in 0..=all_tasks(system) {
        let front = forwards(system, &found, set);
        found.push(front)?;
    }
    Ok(found)
}

// Each set from the last state back, that of all tasks first. The sets behind a set have smaller complements.
fn falling_backs(alloc: Global, system: &System) -> Result<Vec<u64>, NoMemory> {
    let all = all_tasks(system);
    let mut found = Vec::new(alloc);
    for set in 0..=all {
        let back = backwards(system, &found, all, all - set);
        found.push(back)?;
    }
    Ok(found)
}

// A set that no traversal passes is not reached from behind either.
fn backs(alloc: Global, falling: &[u64], fronts: &[u64]) -> Result<Vec<u64>, NoMemory> {
    let mut found = Vec::new(alloc);
    for (back, front) in falling.iter().rev().zip(fronts) {
        found.push(if *front == u64::MAX { u64::MAX } else { *back })?;
    }
    Ok(found)
}

fn search(alloc: Global, system: &System) -> Result<Reached, NoMemory> {
    let front = fronts(alloc, system)?;
    let falling = falling_backs(alloc, system)?;
    Ok(Reached {
        memory: memories(alloc, system)?,
        back: backs(alloc, &falling, &front)?,
        front,
    })
}

// The least memory of a set that is reached within a bound.
fn least_within(memory: &[u64], reached: &[u64], bound: u64) -> u64 {
    let mut least = u64::MAX;
    for (m, r) in memory.iter().zip(reached) {
        if *r <= bound {
            least = least.min(*m);
        }
    }
    least
}

// The level of the last step within the bound.
fn level_within(steps: &[Step], start: u64, bound: u64) -> u64 {
    let mut level = start;
    for step in steps {
        if step.bound <= bound {
            level = step.level;
        }
    }
    level
}

// The steps say what the search found, for each bound from the start on, and each step says more than
// the one before.
fn assert_staircase(rt: &impl Abort, steps: &[Step], start: u64, memory: &[u64], reached: &[u64]) {
    for bound in start..start.saturating_add(120) {
        let least = least_within(memory, reached, bound);
        assert_eq!(rt; level_within(steps, start, bound), least);
    }
    let mut bound = start;
    let mut level = start;
    for step in steps {
        assert!(rt; bound <= step.bound && step.level < level);
        bound = step.bound.saturating_add(1);
        level = step.level;
    }
}

// The term that ends at a position, counted from 1, and has so many positions.
fn term_at(alloc: Global, terms: &TermList, position: u32, width: u32) -> Result<TermList, Fail>
    requires { position ≤ length terms.now }
{
    let mut builder = TermBuilder::new(alloc);
    for q in position.saturating_sub(width)..position {
        let here = terms.at(q + 1);
        match here {
            Position::Task { extra, share, .. } => put_task(&mut builder, extra, share)?,
            Position::Hold(size) => put(&mut builder, Position::Hold(size.min(1000)))?,
            Position::Par(parts) => put(&mut builder, Position::Par(parts.max(2)))?,
        }
    }
    Ok(builder.finish().ok().ok_or("one term")?)
}

// The staircases of this whole term are those that the search finds.
fn check_whole(
    rt: &impl Abort,
    alloc: Global,
    term: &TermList,
    own: Values,
    stairs: &Stairs,
) -> Result<(), Fail> {
    let system = system_of(alloc, term)?;
    let Reached {
        memory,
        front,
        back,
    } = search(alloc, &system)?;
    assert_staircase(rt, &stairs.front, own.initial, &memory, &front);
    assert_staircase(rt, &stairs.back, own.fin, &memory, &back);
    Ok(())
}

// All staircases of a term, whose numbers are small, are those that the search finds.
fn check_stairs(rt: &impl Abort, alloc: Global, terms: &TermList) -> Result<(), Fail> {
    let found = walked(alloc, terms)?;
    let values = values(alloc, terms)?;
    assert_eq!(rt; found.len(), values.len());
    assert_eq!(rt; found.len(), terms.len() as usize);
    for (i, stairs) in found.iter().enumerate() {
        let own = values[i];
        let position = terms.len().min(i as u32 + 1);
        let term = term_at(alloc, terms, position, own.width)?;
        check_whole(rt, alloc, &term, own, stairs)?;
    }
    Ok(())
}

#[test]
fn staircases_of_small_trees_are_those_of_the_search(rt: HostRuntime) -> Result<(), Fail> {
    let alloc = rt.alloc();
    for nodes in 1..=6 {
        for seed in 0..20 {
            let tree = random_tree(alloc, seed, nodes)?;
            check_stairs(&rt, alloc, &small(alloc, &tree)?)?;
        }
    }
    Ok(())
}

#[test]
fn staircases_of_small_workflows_are_those_of_the_search(rt: HostRuntime) -> Result<(), Fail> {
    let alloc = rt.alloc();
    for tasks in 1..=6 {
        for seed in 0..20 {
            let workflow = gen_workflow(alloc, seed, tasks)?;
            check_stairs(&rt, alloc, &small(alloc, &workflow)?)?;
        }
    }
    Ok(())
}
