//! Lists of numbers, one for each of many, and lists that are handed on.

ghost use Rattle.std.specs.Prelude.{◌≡◌, ◌++◌, ◌∷◌, ℕ, List, [], IfOk, OnOk, replicate};

use crate::NoMemory;
use row_table::NumberList;
use std::alloc::Global;
use std::marker::Model;

/// The lists that a supernode was handed by its children.
#[derive(Drop)]
pub struct Inbox {
    lists: Vec<NumberList>,
}

impl Model for Inbox {
    ghost Value = { List (List ℕ) };

    ghost view = { λ inbox. inbox.lists.items };
}

impl Inbox {
    /// No lists yet. It takes no memory.
    pub fn new(alloc: Global) -> Inbox
        ensures { result ≡ [] }
    {
        Inbox {
            lists: Vec::new(alloc),
        }
    }

    /// Takes in a list.
    pub fn take_in(&mut self, list: NumberList) -> Result<(), NoMemory>
        ensures { OnOk result (self.new ≡ self.old ++ list ∷ []) }
    {
        self.lists.push(list)?;
        Ok(())
    }

    /// The lists.
    pub fn as_slice(&self) -> &[NumberList]
        ensures { result.now ≡ self.now }
    {
        &self.lists
    }
}

/// So many empty lists.
pub fn empty_lists(alloc: Global, count: usize) -> Result<Vec<NumberList>, NoMemory>
    ensures { IfOk result (λ lists. lists.items ≡ replicate count []) }
{
    let mut lists = Vec::with_capacity(alloc, count)?;
    for _ in 0..count {
        lists.push(NumberList::new(Vec::new(alloc)))?;
    }
    Ok(lists)
}

/// So many inboxes without a list.
pub fn empty_inboxes(alloc: Global, count: usize) -> Result<Vec<Inbox>, NoMemory>
    ensures { IfOk result (λ inboxes. inboxes.items ≡ replicate count []) }
{
    let mut inboxes = Vec::with_capacity(alloc, count)?;
    for _ in 0..count {
        inboxes.push(Inbox::new(alloc))?;
    }
    Ok(inboxes)
}
