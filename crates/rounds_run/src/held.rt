//! What is held between the rounds.

ghost use Rattle.std.specs.Prelude.{◌≡◌, ◌==◌, ◌+◌, ◌-◌, ◌≤◌, ◌<◌, ◌^◌, ℕ, Bool, true, false, ◌||◌, ◌++◌, ◌∷◌, [], All, if◌then◌else◌};
ghost use Rattle.std.specs.Prelude.{length, slice_set, slice_index_or, IfOk, OnOk};
ghost use Rattle.patterns.specs.Pattern.{has};
ghost use Rattle.assembly_tree.specs.Assembly.{IsSuper, super_at};
ghost use Rattle.assembly_tree.specs.Supernodes.{first_of};
ghost use Rattle.rounds_run.specs.FrontRows.{list_of_front};
ghost use Rattle.rounds_run.specs.Holding.{Factor, IsFactor, IsHeld, AreJobsOf, AreMadeOf, AreDue, AreFirsts, or_in};

use crate::NoMemory;
use crate::front::{Job, Made};
use crate::number_lists::{Inbox, empty_inboxes, empty_lists};
use assembly_tree::Super;
use elim_tree::laws::{no_earlier_row, path_theorem, structure_by_children};
use ordering::laws::parent_is_first;
use row_table::NumberList;
use std::alloc::Global;
use std::mem;

/// The rows of the fronts that are made, and the lists that were left to the others.
#[derive(Drop)]
pub struct Held {
    /// By supernode, from the first on; the rows of a front are kept to the end, as rows of the factor.
    pub rows: Vec<NumberList>,
    /// By supernode, what its children left to it, until it takes that.
    pub inboxes: Vec<Inbox>,
}

impl Held {
    /// Nothing is made yet, of so many supernodes.
    pub fn new(alloc: Global, supers: usize) -> Result<Held, NoMemory>
        ensures { IfOk result (λ held. (f : Factor) → length f.supers ≡ supers → IsHeld f (λ _. false) (λ _. false) held) }
    {
        Ok(Held {
            rows: empty_lists(alloc, supers)?,
            inboxes: empty_inboxes(alloc, supers)?,
        })
    }

    // What was left to a supernode, which has nothing then.
    fn take_lists(&mut self, alloc: Global, node: u32) -> Inbox
        requires { (1 ≤ node) × (node ≤ length self.old.inboxes.items) }
        ensures lists { result ≡ slice_index_or self.old.inboxes.items (node - 1) [] }
        ensures inboxes { self.new.inboxes.items ≡ slice_set self.old.inboxes.items (node - 1) [] }
        ensures rows { self.new.rows ≡ self.old.rows }
    {
        mem::replace(&mut self.inboxes[node as usize - 1], Inbox::new(alloc))
    }

    /// The tasks of a round, with what was left to them. Each takes the lists of its children with it.
    pub fn jobs(
        &mut self,
        alloc: Global,
        supers: &[Super],
        firsts: &[u32],
        round: &[u32],
    ) -> Result<Vec<Job>, NoMemory>
        requires within { (s : ℕ) → has round.now s ≡ true → IsSuper supers.now s }
        requires short { length round.now < 2 ^ 32 }
        requires firsts { AreFirsts supers.now firsts.now }
        requires long { length self.old.inboxes.items ≡ length supers.now }
        ensures jobs { IfOk result (λ jobs. (f : Factor) (ran : ℕ → Bool) → IsFactor f → f.supers ≡ supers.now →
            AreDue f.supers ran round.now → IsHeld f ran ran self.old → AreJobsOf f round.now jobs.items) }
        ensures held { OnOk result ((f : Factor) (ran : ℕ → Bool) → f.supers ≡ supers.now →
            IsHeld f ran ran self.old → IsHeld f (or_in ran round.now) ran self.new) }
    {
        structure_by_children();
        path_theorem();
        no_earlier_row();
        parent_is_first();
        let mut jobs = Vec::with_capacity(alloc, round.len())?;
        for (place, node) in round.iter().enumerate() {
            let at = *node as usize - 1;
            let supernode = supers[at];
            let children = self.take_lists(alloc, *node);
            jobs.push(Job {
                place: place as u32,
                first: firsts[at],
                columns: supernode.columns,
                rest: supernode.rest,
                children,
            })?;
        }
        Ok(jobs)
    }

    // Keeps the rows of a front, and leaves those past its columns to its parent.
    fn keep(&mut self, node: u32, parent: u32, made: Made) -> Result<(), NoMemory>
        requires node { (1 ≤ node) × (node ≤ length self.old.rows.items) }
        requires parent { parent ≤ length self.old.inboxes.items }
        ensures rows { OnOk result (self.new.rows.items ≡ slice_set self.old.rows.items (node - 1) made.rows) }
        ensures inboxes { OnOk result (self.new.inboxes.items ≡ (if parent == 0 then self.old.inboxes.items
            else slice_set self.old.inboxes.items (parent - 1)
            (slice_index_or self.old.inboxes.items (parent - 1) [] ++ made.rest ∷ []))) }
    {
        let Made { rows, rest } = made;
        self.rows[node as usize - 1] = rows;
        if parent != 0 {
            self.inboxes[parent as usize - 1].take_in(rest)?;
        }
        Ok(())
    }

    /// Takes in what the tasks of a round made.
    pub fn keep_all(
        &mut self,
        supers: &[Super],
        round: &[u32],
        made: Vec<Made>,
    ) -> Result<(), NoMemory>
        requires within { (s : ℕ) → has round.now s ≡ true → IsSuper supers.now s }
        requires parents { All (λ x. x.parent ≤ length supers.now) supers.now }
        requires long { (length self.old.rows.items ≡ length supers.now) × (length self.old.inboxes.items ≡ length supers.now) }
        requires made { length made.items ≡ length round.now }
        ensures { OnOk result ((f : Factor) (ran : ℕ → Bool) → f.supers ≡ supers.now → AreMadeOf f round.now made.items →
            IsHeld f (or_in ran round.now) ran self.old → IsHeld f (or_in ran round.now) (or_in ran round.now) self.new) }
    {
        let mut left = made;
        while let Some(next) = left.pop() {
            let node = round[left.len()];
            let parent = supers[node as usize - 1].parent;
            self.keep(node, parent, next)?;
        }
        Ok(())
    }
}
