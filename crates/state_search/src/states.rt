//! States that are kept, no two the same, each with what led on from it.

ghost use Rattle.std.specs.Prelude.{◌≡◌, ◌<◌, true, false, [], ◌∷◌, ◌++◌, OnOk, length};
ghost use Rattle.state_search.specs.States.{state_at};
ghost use Rattle.state_search.specs.Kept.{link_at, IsKept, IsNew};

use crate::NoMemory;
use indexmap::IndexSet;
use std::alloc::Global;
use std::marker::Model;

/// What led on from a state: a task, and the place of the state after it.
#[derive(Clone, Copy)]
pub struct Link {
    pub next: usize,
    pub task: u32,
}

/// States that are kept.
#[derive(Drop)]
pub struct States {
    seen: IndexSet<Vec<bool>>,
    links: Vec<Link>,
}

impl Model for States {
    ghost use Rattle.std.specs.Prelude.{map};
    ghost use Rattle.state_search.specs.Kept.{KeptStates};

    ghost Value = { KeptStates };

    ghost view = { λ s. record { rows = map (λ v. v.items) s.seen.keys; links = s.links.items } };
}

impl States {
    /// No state yet.
    pub fn new(alloc: Global) -> States
        ensures { result ≡ record { rows = []; links = [] } }
    {
        States {
            seen: IndexSet::new(alloc),
            links: Vec::new(alloc),
        }
    }

    /// How many there are.
    pub fn len(&self) -> usize
        ensures { result ≡ length self.now.rows }
    {
        self.seen.len()
    }

    /// The marks of the state at a place.
    pub fn marks(&self, i: usize) -> &[bool]
        requires { i < length self.now.rows }
        ensures { result.now ≡ state_at self.now.rows i }
    {
        &self.seen.as_slice()[i]
    }

    /// What led on from the state at a place.
    pub fn link(&self, i: usize) -> Link
        requires { i < length self.now.links }
        ensures { result ≡ link_at self.now.links i }
    {
        self.links[i]
    }

    /// Whether a state is among them.
    pub fn has(&self, marks: &[bool]) -> bool
        ensures kept { result ≡ true → IsKept self.now.rows marks.now }
        ensures new { result ≡ false → IsNew self.now.rows marks.now }
    {
        self.seen.contains(marks)
    }

    /// One more.
    pub fn push(&mut self, alloc: Global, marks: &[bool], link: Link) -> Result<(), NoMemory>
        requires { IsNew self.old.rows marks.now }
        ensures rows { OnOk result (self.new.rows ≡ self.old.rows ++ marks.now ∷ []) }
        ensures links { OnOk result (self.new.links ≡ self.old.links ++ link ∷ []) }
    {
        let row = Vec::from_slice(alloc, marks)?;
        self.seen.insert(row)?;
        self.links.push(link)?;
        Ok(())
    }
}
