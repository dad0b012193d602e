//! Lists of tasks that are joined and reversed in constant time, in one growing store.

ghost use Rattle.std.specs.Prelude.{◌≡◌, ℕ, ◌+◌, ◌<◌, ◌≤◌, [], ◌∷◌, ◌++◌, length, reverse, get_or, IfOk, OnOk, OnErr};
ghost use Rattle.hill_valley.specs.Ropes.{list_of_piece, list_of_join, lists_of, IsPiece, HasPartsBelow, AllHavePartsBelow, list_of};
ghost use Rattle.hill_valley.specs.Ropes.{IsRope, Extends};
ghost use Rattle.hill_valley.specs.Listing.{turned, tasks_opened, parts_opened, join_at};

use crate::NoMemory;
use std::alloc::{AllocError, Global};
use std::marker::Model;

/// A list of tasks, of the [`Ropes`] that made it. It stands for that list for good.
#[derive(Clone, Copy)]
pub struct Rope {
    piece: Piece,
}

// A list without a join, or what was joined at a place, as it is or backwards.
#[derive(Clone, Copy)]
enum Piece {
    Empty,
    Task(u32),
    Joined(u32),
    Turned(u32),
}

// Two lists, one after the other. What is joined in them was joined at earlier places.
#[derive(Clone, Copy)]
struct Join {
    first: Piece,
    second: Piece,
}

/// A store of lists of tasks. Nothing in it ever changes, and only a join of two lists that are not empty adds to it. So the
/// lists of n tasks, each of which stands once in one of them, are made of fewer than n joins.
/// Want of memory leaves every rope as it is.
#[derive(Drop)]
pub struct Ropes {
    joins: Vec<Join>,
}

impl Model for Ropes {
    ghost use Rattle.std.specs.Prelude.{List, ℕ};
    ghost use Rattle.hill_valley.specs.Ropes.{lists_of, AllHavePartsBelow};

    ghost Value = { List (List ℕ) };

    ghost view = { λ r. lists_of r.joins.items };

    ghost invariant = { λ r. AllHavePartsBelow 0 r.joins.items };
}

impl Ropes {
    /// No lists yet.
    pub fn new(alloc: Global) -> Ropes
        ensures empty { result ≡ [] }
    {
        Ropes {
            joins: Vec::new(alloc),
        }
    }

    pub(crate) fn alloc(&self) -> Global {
        *self.joins.allocator()
    }

    /// The list of the one task. Constant time, and no memory.
    pub fn one(&self, task: u32) -> Rope
        ensures list { list_of self.now result ≡ task ∷ [] }
        ensures rope { IsRope self.now result }
    {
        let _ = &self.joins;
        Rope {
            piece: Piece::Task(task),
        }
    }

    /// The empty list. Constant time, and no memory.
    pub fn empty(&self) -> Rope
        ensures list { list_of self.now result ≡ [] }
        ensures rope { IsRope self.now result }
    {
        let _ = &self.joins;
        Rope {
            piece: Piece::Empty,
        }
    }

    /// The first list followed by the second. Both are of these ropes. Constant time. Want of memory, too, is what a store of
    /// 2^32 joins answers.
    pub fn join(&mut self, a: Rope, b: Rope) -> Result<Rope, NoMemory>
        requires a { IsRope self.old a }
        requires b { IsRope self.old b }
        ensures list { IfOk result (λ rope. list_of self.new rope ≡ list_of self.old a ++ list_of self.old b) }
        ensures rope { IfOk result (λ rope. IsRope self.new rope) }
        ensures kept { Extends self.old self.new }
        ensures at_most_one_more { OnOk result (length self.new ≤ length self.old + 1) }
        ensures err { OnErr result (self.new ≡ self.old) }
    {
        match (a.piece, b.piece) {
            (Piece::Empty, _) => Ok(b),
            (_, Piece::Empty) => Ok(a),
            (first, second) => self.add(Join { first, second }),
        }
    }

    /// The list reversed. It is of these ropes. Constant time, and no memory.
    pub fn flip(&self, a: Rope) -> Rope
        requires a { IsRope self.now a }
        ensures list { list_of self.now result ≡ reverse (list_of self.now a) }
        ensures rope { IsRope self.now result }
    {
        let _ = &self.joins;
        Rope {
            piece: turned(a.piece),
        }
    }

    // One more join.
    fn add(&mut self, join: Join) -> Result<Rope, NoMemory>
        requires { HasPartsBelow (length self.old) join }
        ensures list { IfOk result (λ rope. list_of self.new rope ≡ list_of_join (λ i. get_or self.old i []) join) }
        ensures rope { IfOk result (λ rope. IsRope self.new rope) }
        ensures kept { Extends self.old self.new }
        ensures one_more { OnOk result (length self.new ≡ length self.old + 1) }
        ensures err { OnErr result (self.new ≡ self.old) }
    {
        let Ok(at) = u32::try_from(self.joins.len()) else {
            return Err(AllocError);
        };
        self.joins.push(join)?;
        Ok(Rope {
            piece: Piece::Joined(at),
        })
    }

    /// The tasks of the list, in order. The rope is of these ropes. Time is linear in the joins that the list was made of,
    /// where a join counts as often as it is used. No call is nested in another, however deep the joins lie.
    pub fn list(&self, alloc: Global, rope: Rope) -> Result<Vec<u32>, NoMemory>
        requires rope { IsRope self.now rope }
        ensures list { IfOk result (λ tasks. tasks.items ≡ list_of self.now rope) }
    {
        list_from(alloc, &self.joins, rope.piece)
    }
}

// The same tasks backwards.
fn turned(piece: Piece) -> Piece
    ensures { result ≡ turned piece }
{
    match piece {
        Piece::Empty => Piece::Empty,
        Piece::Task(task) => Piece::Task(task),
        Piece::Joined(at) => Piece::Turned(at),
        Piece::Turned(at) => Piece::Joined(at),
    }
}

fn list_from(alloc: Global, joins: &[Join], piece: Piece) -> Result<Vec<u32>, NoMemory>
    requires parts { AllHavePartsBelow 0 joins.now }
    requires piece { IsPiece (length joins.now) piece }
    ensures { IfOk result (λ tasks. tasks.items ≡ list_of_piece (λ i. get_or (lists_of joins.now) i []) piece) }
{
    let mut list = Vec::new(alloc);
    let mut todo = Vec::new(alloc);
    todo.push(piece)?;
    while let Some(top) = todo.pop() {
        open_piece(joins, top, &mut todo, &mut list)?;
    }
    Ok(list)
}

// Lists the piece's own task, or puts its two lists on the stack.
fn open_piece(
    joins: &[Join],
    top: Piece,
    todo: &mut Vec<Piece>,
    list: &mut Vec<u32>,
) -> Result<(), NoMemory>
    requires piece { IsPiece (length joins.now) top }
    ensures list { OnOk result (list.new.items ≡ list.old.items ++ tasks_opened top) }
    ensures todo { OnOk result (todo.new.items ≡ todo.old.items ++ parts_opened (join_at joins.now) top) }
{
    match top {
        Piece::Empty => {}
        Piece::Task(task) => list.push(task)?,
        Piece::Joined(at) => {
            let join = joins[at as usize];
            todo.push(join.second)?;
            todo.push(join.first)?;
        }
        Piece::Turned(at) => {
            let join = joins[at as usize];
            todo.push(turned(join.first))?;
            todo.push(turned(join.second))?;
        }
    }
    Ok(())
}
