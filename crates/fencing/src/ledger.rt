//! What is free while an order runs, and who takes it.

ghost use Rattle.std.specs.Prelude.{◌≡◌, ℕ, ◌+◌, ◌-◌, ◌<◌, ◌≤◌, ◌^◌, [], List, All, length, slice_index_or, IfOk, IfSome};
ghost use Rattle.fencing.specs.Takings.{HasProducer, IsInputAt, Takes, all_kept, fences_among, pieces_with, takings_with};

use crate::NoMemory;
use mp_system::Item;
use std::alloc::Global;

/// What is left of the memory that a task gave back.
#[derive(Clone, Copy)]
pub struct Piece {
    pub task: u32,
    pub amount: u64,
}

/// How much a task takes of what another gave back.
#[derive(Clone, Copy)]
pub struct Taking {
    pub from: u32,
    pub to: u32,
    pub amount: u64,
    /// The place, from 0, of an item from the one to the other, along which it is handed on. Without one the task has to wait: a fence.
    pub along: Option<u32>,
}

/// What is free between two tasks of an order, and what has been taken so far.
#[derive(Drop)]
pub struct Ledger {
    /// What has been free from the start.
    pub pool: u64,
    /// What tasks gave back: a stack, with the latest on top.
    pub pieces: Vec<Piece>,
    pub takings: Vec<Taking>,
    /// For each task where its piece stands in the stack, or stood: a hint, which is looked at again there.
    pub places: Vec<usize>,
}

// Puts a piece on top, if it is anything.
fn put(pieces: &mut Vec<Piece>, task: u32, amount: u64) -> Result<(), NoMemory>
    ensures { IfOk result (λ _. pieces.new.items ≡ pieces_with pieces.old.items task amount) }
{
    if amount > 0 {
        pieces.push(Piece { task, amount })?;
    }
    Ok(())
}

// Notes a taking, if it is anything.
fn note(takings: &mut Vec<Taking>, taking: Taking) -> Result<(), NoMemory>
    ensures { IfOk result (λ _. takings.new.items ≡ takings_with takings.old.items taking) }
{
    if taking.amount > 0 {
        takings.push(taking)?;
    }
    Ok(())
}

impl Ledger {
    /// Nothing has run, and so much is free; the numbers of the tasks go up to `tasks`.
    pub fn new(alloc: Global, pool: u64, tasks: usize) -> Result<Ledger, NoMemory>
        requires { tasks < 2 ^ 32 }
        ensures pool { IfOk result (λ ledger. ledger.pool ≡ pool) }
        ensures pieces { IfOk result (λ ledger. ledger.pieces.items ≡ []) }
        ensures takings { IfOk result (λ ledger. ledger.takings.items ≡ []) }
        ensures places { IfOk result (λ ledger. length ledger.places.items ≡ tasks + 1) }
    {
        let places = vec![in alloc; 0; tasks + 1]?;
        Ok(Ledger {
            pool,
            pieces: Vec::new(alloc),
            takings: Vec::new(alloc),
            places,
        })
    }

    /// The task gives so much back.
    pub fn give(&mut self, task: u32, amount: u64) -> Result<(), NoMemory>
        requires { task < length self.old.places.items }
        ensures pieces { IfOk result (λ _. self.new.pieces.items ≡ pieces_with self.old.pieces.items task amount) }
        ensures takings { self.new.takings.items ≡ self.old.takings.items }
        ensures pool { self.new.pool ≡ self.old.pool }
        ensures places { length self.new.places.items ≡ length self.old.places.items }
    {
        self.places[task as usize] = self.pieces.len();
        put(&mut self.pieces, task, amount)
    }

    // Where the piece of a task stands, if it is still there.
    fn place_of(&self, task: u32) -> Option<usize>
        requires { task < length self.now.places.items }
        ensures { IfSome result (λ at. (at < length self.now.pieces.items)
            × ((d : Piece) → (slice_index_or self.now.pieces.items at d).task ≡ task)) }
    {
        let at = self.places[task as usize];
        if at < self.pieces.len() && self.pieces[at].task == task {
            return Some(at);
        }
        None
    }

    // The task takes what is left of what the producer of the item gave back, or as much of it as is lacking: how much that is.
    fn take_along(
        &mut self,
        items: &[Item],
        index: u32,
        task: u32,
        lacking: u64,
    ) -> Result<u64, NoMemory>
        requires input { IsInputAt items.now task index }
        requires places { All (HasProducer (length self.old.places.items)) items.now }
        ensures amount { IfOk result (λ amount. amount ≤ lacking) }
        ensures takes { IfOk result (λ amount. Takes items.now task amount
            self.old.pieces.items self.new.pieces.items self.old.takings.items self.new.takings.items) }
        ensures fences { IfOk result (λ _. fences_among self.new.takings.items ≡ fences_among self.old.takings.items) }
        ensures long { IfOk result (λ _. length self.new.pieces.items ≡ length self.old.pieces.items) }
        ensures pool { self.new.pool ≡ self.old.pool }
        ensures places { length self.new.places.items ≡ length self.old.places.items }
    {
        let Some(from) = items[index as usize].from else {
            return Ok(0);
        };
        let Some(at) = self.place_of(from) else {
            return Ok(0);
        };
        let amount = self.pieces[at].amount.min(lacking);
        self.pieces[at].amount -= amount;
        let taking = Taking {
            from,
            to: task,
            amount,
            along: Some(index),
        };
        note(&mut self.takings, taking)?;
        Ok(amount)
    }

    // The task takes what its suppliers gave back, as long as something is lacking; `row` has the places of the items that it consumes. What is
    // lacking still.
    fn take_from_suppliers(
        &mut self,
        items: &[Item],
        row: &[u32],
        task: u32,
        need: u64,
    ) -> Result<u64, NoMemory>
        requires inputs { All (IsInputAt items.now task) row.now }
        requires places { All (HasProducer (length self.old.places.items)) items.now }
        ensures takes { IfOk result (λ lacking. (lacking ≤ need) × Takes items.now task (need - lacking)
            self.old.pieces.items self.new.pieces.items self.old.takings.items self.new.takings.items) }
        ensures fences { IfOk result (λ _. fences_among self.new.takings.items ≡ fences_among self.old.takings.items) }
        ensures long { IfOk result (λ _. length self.new.pieces.items ≡ length self.old.pieces.items) }
        ensures pool { self.new.pool ≡ self.old.pool }
        ensures places { length self.new.places.items ≡ length self.old.places.items }
    {
        let mut lacking = need;
        for index in row {
            lacking -= self.take_along(items, *index, task, lacking)?;
        }
        Ok(lacking)
    }

    // The task takes the piece on top, or as much of it as is lacking: how much that is. What is left of the piece stays.
    fn take_top(&mut self, task: u32, lacking: u64) -> Result<u64, NoMemory>
        requires lacking { 1 ≤ lacking }
        requires enough { lacking ≤ all_kept self.old.pieces.items }
        ensures amount { IfOk result (λ amount. amount ≤ lacking) }
        ensures takes { (items : List Item) → IfOk result (λ amount. Takes items task amount
            self.old.pieces.items self.new.pieces.items self.old.takings.items self.new.takings.items) }
        ensures long { IfOk result (λ _. length self.new.pieces.items ≤ length self.old.pieces.items) }
        ensures smaller { IfOk result (λ amount. amount < lacking → length self.new.pieces.items < length self.old.pieces.items) }
        ensures same { IfOk result (λ amount. amount < lacking →
            fences_among self.new.takings.items + length self.new.pieces.items ≤ fences_among self.old.takings.items + length self.old.pieces.items) }
        ensures few { IfOk result (λ _.
            fences_among self.new.takings.items + length self.new.pieces.items ≤ fences_among self.old.takings.items + length self.old.pieces.items + 1) }
        ensures pool { self.new.pool ≡ self.old.pool }
        ensures places { length self.new.places.items ≡ length self.old.places.items }
    {
        let Some(top) = self.pieces.pop() else {
            unreachable!()
        };
        let amount = top.amount.min(lacking);
        let taking = Taking {
            from: top.task,
            to: task,
            amount,
            along: None,
        };
        note(&mut self.takings, taking)?;
        put(&mut self.pieces, top.task, top.amount - amount)?;
        Ok(amount)
    }

    // The task takes what is lacking of what was given back, the latest first.
    fn take_latest(&mut self, task: u32, need: u64) -> Result<(), NoMemory>
        requires { need ≤ all_kept self.old.pieces.items }
        ensures takes { (items : List Item) → IfOk result (λ _. Takes items task need
            self.old.pieces.items self.new.pieces.items self.old.takings.items self.new.takings.items) }
        ensures few { IfOk result (λ _.
            fences_among self.new.takings.items + length self.new.pieces.items ≤ fences_among self.old.takings.items + length self.old.pieces.items + 1) }
        ensures none { IfOk result (λ _. need ≡ 0 → fences_among self.new.takings.items ≡ fences_among self.old.takings.items) }
        ensures pool { self.new.pool ≡ self.old.pool }
        ensures places { length self.new.places.items ≡ length self.old.places.items }
    {
        let mut lacking = need;
        while lacking > 0 {
            lacking -= self.take_top(task, lacking)?;
        }
        Ok(())
    }

    /// The task takes what it needs: first of what its suppliers gave back, since it waits for these anyway; then out of the pool, as long as
    /// there is something, since that costs no fence either; then of what other tasks gave back, the latest first, since who gave that is most
    /// likely one that it waits for by way of others. `row` has the places of the items that it consumes.
    pub fn take(
        &mut self,
        items: &[Item],
        row: &[u32],
        task: u32,
        need: u64,
    ) -> Result<(), NoMemory>
        requires inputs { All (IsInputAt items.now task) row.now }
        requires places { All (HasProducer (length self.old.places.items)) items.now }
        requires enough { need ≤ self.old.pool + all_kept self.old.pieces.items }
        ensures takes { IfOk result (λ _. (amount : ℕ) × (amount ≤ need) × (amount + self.old.pool ≡ need + self.new.pool)
            × Takes items.now task amount self.old.pieces.items self.new.pieces.items self.old.takings.items self.new.takings.items) }
        ensures few { IfOk result (λ _.
            fences_among self.new.takings.items + length self.new.pieces.items ≤ fences_among self.old.takings.items + length self.old.pieces.items + 1) }
        ensures unfenced { IfOk result (λ _. 1 ≤ self.new.pool → fences_among self.new.takings.items ≡ fences_among self.old.takings.items) }
        ensures places { length self.new.places.items ≡ length self.old.places.items }
    {
        let lacking = self.take_from_suppliers(items, row, task, need)?;
        let drawn = lacking.min(self.pool);
        self.pool -= drawn;
        self.take_latest(task, lacking - drawn)?;
        Ok(())
    }
}
