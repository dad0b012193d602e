//! Tasks are taken out until none can be.

ghost use Rattle.std.specs.Prelude.{◌≡◌, ◌≢◌, ◌≤◌, ◌+◌, ◌*◌, [], ℕ, List, length, IfOk, true, vec_len};
ghost use Rattle.limits.specs.Limits.{most_tasks};
ghost use Rattle.mp_system.specs.declared.system.Item.{Item};
ghost use Rattle.sp_reduce.specs.Pieces.{IsCarried, most_pieces};
ghost use Rattle.sp_reduce.specs.Reductions.{ReducesTo};
ghost use Rattle.sp_reduce.specs.Work.{AreNoted, AreTasks, IsIdle, link_count, links_into, links_out_of, pairs_of, stands};

use crate::NoMemory;
use crate::forest::Forest;
use crate::links::Links;
use std::alloc::Global;

// Notes a task, if it is one.
fn note(todo: &mut Vec<u32>, task: u32) -> Result<(), NoMemory>
    ensures keeps { IfOk result (λ _. (u : ℕ) → stands u todo.old.items ≡ true → stands u todo.new.items ≡ true) }
    ensures has { IfOk result (λ _. 1 ≤ task → stands task todo.new.items ≡ true) }
    ensures len { IfOk result (λ _. vec_len todo.new ≤ vec_len todo.old + 1) }
    ensures listed { IfOk result (λ _. (n : ℕ) → task ≤ n → AreTasks n todo.old.items → AreTasks n todo.new.items) }
{
    if task > 0 {
        todo.push(task)?;
    }
    Ok(())
}

// Takes a task out if it can be.
fn visit(
    task: u32,
    links: &mut Links,
    forest: &mut Forest,
    todo: &mut Vec<u32>,
) -> Result<(), NoMemory>
    requires task { (1 ≤ task) × (task ≤ links.old.tasks) }
    requires lens { vec_len forest.old.nodes ≡ length links.old.list }
    requires room { vec_len forest.old.pieces + link_count links.old.list ≤ most_pieces }
    requires listed { AreTasks links.old.tasks todo.old.items }
    requires noted { (u : ℕ) → 1 ≤ u → u ≤ links.old.tasks → u ≢ task →
        links_into u links.old.list ≡ 1 → links_out_of u links.old.list ≡ 1 → stands u todo.old.items ≡ true }
    ensures tasks { IfOk result (λ _. links.new.tasks ≡ links.old.tasks) }
    ensures row { IfOk result (λ _. ReducesTo (pairs_of links.old.list) (pairs_of links.new.list)) }
    ensures carried { IfOk result (λ _. (graph : List Item) →
        IsCarried graph [] forest.old.pieces.items links.old.list forest.old.nodes.items →
        IsCarried graph [] forest.new.pieces.items links.new.list forest.new.nodes.items) }
    ensures lens { IfOk result (λ _. vec_len forest.new.nodes ≡ length links.new.list) }
    ensures room { IfOk result (λ _. vec_len forest.new.pieces + link_count links.new.list
        ≤ vec_len forest.old.pieces + link_count links.old.list) }
    ensures listed { IfOk result (λ _. AreTasks links.old.tasks todo.new.items) }
    ensures noted { IfOk result (λ _. AreNoted links.old.tasks links.new.list todo.new.items) }
    ensures fewer { IfOk result (λ _. 3 * link_count links.new.list + vec_len todo.new ≤ 3 * link_count links.old.list + vec_len todo.old) }
{
    if !links.is_in_series(task) {
        return Ok(());
    }
    let taken = links.take_out(task)?;
    forest.carry(task, taken)?;
    note(todo, taken.from)?;
    note(todo, taken.to)?;
    Ok(())
}

/// Takes out tasks until none can be; those to begin with are listed.
pub fn reduce_links(
    links: &mut Links,
    forest: &mut Forest,
    todo: &mut Vec<u32>,
) -> Result<(), NoMemory>
    requires lens { vec_len forest.old.nodes ≡ length links.old.list }
    requires room { vec_len forest.old.pieces + link_count links.old.list ≤ most_pieces }
    requires listed { AreTasks links.old.tasks todo.old.items }
    requires noted { AreNoted links.old.tasks links.old.list todo.old.items }
    ensures row { IfOk result (λ _. ReducesTo (pairs_of links.old.list) (pairs_of links.new.list)) }
    ensures carried { IfOk result (λ _. (graph : List Item) →
        IsCarried graph [] forest.old.pieces.items links.old.list forest.old.nodes.items →
        IsCarried graph [] forest.new.pieces.items links.new.list forest.new.nodes.items) }
    ensures idle { IfOk result (λ _. IsIdle links.new.tasks links.new.list) }
{
    while let Some(task) = todo.pop() {
        visit(task, links, forest, todo)?;
    }
    Ok(())
}

/// All tasks of a graph of so many.
pub fn all_tasks(alloc: Global, tasks: u32) -> Result<Vec<u32>, NoMemory>
    requires { tasks ≤ most_tasks }
    ensures listed { IfOk result (λ todo. AreTasks tasks todo.items) }
    ensures each { IfOk result (λ todo. (u : ℕ) → 1 ≤ u → u ≤ tasks → stands u todo.items ≡ true) }
{
    let mut todo = Vec::new(alloc);
    for v in 1..tasks + 1 {
        note(&mut todo, v)?;
    }
    Ok(todo)
}
