//! Links between tasks, no two with the same ends, and how a task is taken out of them.

ghost use Rattle.std.specs.Prelude.{◌≡◌, ◌≢◌, ◌≤◌, ◌<◌, ◌+◌, ◌↔◌, ℕ, ◌++◌, ◌∷◌, [], length, IfOk, IsTrue, MatchOption};
ghost use Rattle.limits.specs.Limits.{most_arcs, most_tasks};
ghost use Rattle.sp_reduce.specs.NetGraphs.{IsIrreducible};
ghost use Rattle.sp_reduce.specs.Reductions.{ReducesTo};
ghost use Rattle.sp_reduce.specs.Work.{AreLinksRanked, HasNone, IsIdle, IsLink, IsTaskTaken, fewer_by, graph_of, key_of, link, link_count};
ghost use Rattle.sp_reduce.specs.Work.{links_into, links_out_of, pairs_of};

use crate::NoMemory;
use crate::link::{Link, Taken};
use std::alloc::Global;
use std::collections::HashMap;
use std::marker::Model;

/// The links between so many tasks, no two with the same ends; in a list, in which those that are gone are dead.
#[derive(Drop)]
pub struct Links {
    tasks: u32,
    list: Vec<Link>,
    // For each task, and for none: how many links lead into it and out of it, and the place of one of each.
    ins: Vec<u32>,
    outs: Vec<u32>,
    in_at: Vec<u32>,
    out_at: Vec<u32>,
    // The place of a link by its ends; places of links that are gone may be among them.
    by_ends: HashMap<u64, u32>,
}

impl Model for Links {
    ghost use Rattle.std.specs.Prelude.{nat_eq};
    ghost use Rattle.std.specs.HashMap as hash;
    ghost use Rattle.sp_reduce.specs.Work.{LinksValue, AreIndexed};

    ghost Value = { LinksValue };

    ghost view = { λ l. record { tasks = l.tasks; list = l.list.items } };

    ghost invariant = { λ l. AreIndexed l.tasks l.list.items l.ins.items l.outs.items
        l.in_at.items l.out_at.items (hash.get nat_eq l.by_ends) };
}

// Both ends in one number, as the table has them.
fn key(from: u32, to: u32) -> u64
    ensures { result ≡ key_of from to }
{
    u64::from(from) * 4_294_967_296 + u64::from(to)
}

const NO_LINK: Link = Link {
    alive: false,
    from: 0,
    to: 0,
};

impl Links {
    /// No link between so many tasks.
    pub fn new(alloc: Global, tasks: u32) -> Result<Links, NoMemory>
        requires { tasks ≤ most_tasks }
        ensures { IfOk result (λ links. links ≡ record { tasks = tasks; list = [] }) }
    {
        let count = tasks as usize + 1;
        let ins = vec![in alloc; 0u32; count]?;
        let outs = vec![in alloc; 0u32; count]?;
        let in_at = vec![in alloc; 0u32; count]?;
        let out_at = vec![in alloc; 0u32; count]?;
        Ok(Links {
            tasks,
            list: Vec::new(alloc),
            ins,
            outs,
            in_at,
            out_at,
            by_ends: HashMap::new(alloc),
        })
    }

    /// The list of the links. Where no task can be taken out, no reduction applies to them, since no two have the same ends.
    pub fn into_vec(self) -> Vec<Link>
        ensures list { result.items ≡ self.list }
        ensures few { length result.items ≤ most_arcs }
        ensures irreducible { IsIdle self.tasks self.list → IsIrreducible (graph_of self.list) }
    {
        self.list
    }

    /// The place of the link with these ends.
    pub fn twin(&self, from: u32, to: u32) -> Option<u32>
        ensures { MatchOption result (HasNone self.now.list from to) (λ x. IsLink self.now.list x from to) }
    {
        match self.by_ends.get(&key(from, to)) {
            None => None,
            Some(found) => {
                let x = *found as usize;
                if x < self.list.len()
                    && self.list[x].alive
                    && self.list[x].from == from
                    && self.list[x].to == to
                {
                    Some(*found)
                } else {
                    None
                }
            }
        }
    }

    /// Adds a link; there is none with these ends.
    pub fn add(&mut self, from: u32, to: u32) -> Result<(), NoMemory>
        requires within { (from ≤ self.old.tasks) × (to ≤ self.old.tasks) }
        requires few { length self.old.list < most_arcs }
        requires none { HasNone self.old.list from to }
        requires ranked { (rank : ℕ → ℕ) × AreLinksRanked rank (self.old.list ++ link from to ∷ []) }
        ensures { IfOk result (λ _. self.new ≡ record { tasks = self.old.tasks; list = self.old.list ++ link from to ∷ [] }) }
    {
        // What may be refused comes first: the table may have a place with no link, but the counts are those of the list.
        let place = self.list.len() as u32;
        self.by_ends.insert(key(from, to), place)?;
        self.list.push(Link {
            alive: true,
            from,
            to,
        })?;
        self.ins[to as usize] += 1;
        self.outs[from as usize] += 1;
        self.in_at[to as usize] = place;
        self.out_at[from as usize] = place;
        Ok(())
    }

    /// Whether one link leads into a task and one out of it.
    pub fn is_in_series(&self, task: u32) -> bool
        requires { task ≤ self.now.tasks }
        ensures { IsTrue result ↔ ((links_into task self.now.list ≡ 1) × (links_out_of task self.now.list ≡ 1)) }
    {
        self.ins[task as usize] == 1 && self.outs[task as usize] == 1
    }

    /// Takes a task with one link in and one link out away, and makes one link of these, and of its twin.
    pub fn take_out(&mut self, task: u32) -> Result<Taken, NoMemory>
        requires task { (1 ≤ task) × (task ≤ self.old.tasks) }
        requires in_series { (links_into task self.old.list ≡ 1) × (links_out_of task self.old.list ≡ 1) }
        ensures tasks { IfOk result (λ _. self.new.tasks ≡ self.old.tasks) }
        ensures len { IfOk result (λ _. length self.new.list ≡ length self.old.list) }
        ensures row { IfOk result (λ _. ReducesTo (pairs_of self.old.list) (pairs_of self.new.list)) }
        ensures taken { IfOk result (λ r. IsTaskTaken self.old.list self.new.list task r) }
        ensures within { IfOk result (λ r. (r.from ≤ self.old.tasks) × (r.to ≤ self.old.tasks)) }
        ensures none_in { IfOk result (λ _. links_into task self.new.list ≡ 0) }
        ensures others { IfOk result (λ r. (u : ℕ) → u ≢ task → u ≢ r.from → u ≢ r.to →
            (links_into u self.new.list ≡ links_into u self.old.list) × (links_out_of u self.new.list ≡ links_out_of u self.old.list)) }
        ensures fewer { IfOk result (λ r. link_count self.new.list + fewer_by r.twin ≡ link_count self.old.list) }
    {
        let first = self.in_at[task as usize];
        let second = self.out_at[task as usize];
        let from = self.list[first as usize].from;
        let to = self.list[second as usize].to;
        match self.twin(from, to) {
            Some(other) => {
                self.list[first as usize] = NO_LINK;
                self.list[second as usize] = NO_LINK;
                self.ins[task as usize] = 0;
                self.outs[task as usize] = 0;
                self.ins[to as usize] -= 1;
                self.outs[from as usize] -= 1;
                self.in_at[to as usize] = other;
                self.out_at[from as usize] = other;
                Ok(Taken {
                    from,
                    to,
                    first,
                    second,
                    twin: Some(other),
                })
            }
            None => {
                self.by_ends.insert(key(from, to), first)?;
                self.list[first as usize] = Link {
                    alive: true,
                    from,
                    to,
                };
                self.list[second as usize] = NO_LINK;
                self.ins[task as usize] = 0;
                self.outs[task as usize] = 0;
                self.in_at[to as usize] = first;
                Ok(Taken {
                    from,
                    to,
                    first,
                    second,
                    twin: None,
                })
            }
        }
    }
}
