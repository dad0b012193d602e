//! The terms that the links of a graph carry.

ghost use Rattle.std.specs.Prelude.{◌≡◌, ◌≤◌, ◌<◌, ◌+◌, [], ℕ, List, ◌∷◌, ◌++◌, vec_len, IfOk, MatchOption};
ghost use Rattle.std.specs.Option.{ForSome};
ghost use Rattle.mp_system.specs.declared.system.Item.{Item};
ghost use Rattle.graphs.specs.Graph.{end_of};
ghost use Rattle.sp_reduce.specs.declared.link.Link.{Link};
ghost use Rattle.sp_reduce.specs.Pieces.{IsCarried, most_pieces};
ghost use Rattle.sp_reduce.specs.Work.{IsLink, IsTaskTaken, fewer_by, link};

use crate::NoMemory;
use crate::link::Taken;
use crate::piece::Piece;
use std::alloc::Global;

/// Pieces of terms, and for each link, by its place, the piece that it carries.
#[derive(Drop)]
pub struct Forest {
    pub nodes: Vec<u32>,
    pub pieces: Vec<Piece>,
}

impl Forest {
    /// No piece, for no link.
    pub fn new(alloc: Global) -> Forest
        ensures nodes { result.nodes.items ≡ [] }
        ensures pieces { result.pieces.items ≡ [] }
    {
        Forest {
            nodes: Vec::new(alloc),
            pieces: Vec::new(alloc),
        }
    }

    /// Makes the piece of an arc, for a new link, or with its twin, if it has one, that of both.
    pub fn plant(&mut self, size: u64, twin: Option<u32>) -> Result<(), NoMemory>
        requires twin { ForSome twin (λ k. k < vec_len self.old.nodes) }
        requires room { vec_len self.old.pieces + 2 ≤ most_pieces }
        ensures carried { IfOk result (λ _. (graph rest : List Item) (links : List Link) (p q : ℕ) →
            IsCarried graph (record { size = size; from = end_of p; to = end_of q } ∷ rest)
            self.old.pieces.items links self.old.nodes.items →
            MatchOption twin
            (IsCarried graph rest self.new.pieces.items (links ++ link p q ∷ []) self.new.nodes.items)
            (λ k. IsLink links k p q → IsCarried graph rest self.new.pieces.items links self.new.nodes.items)) }
        ensures len { IfOk result (λ _. MatchOption twin
            ((vec_len self.new.pieces ≡ vec_len self.old.pieces + 1) × (vec_len self.new.nodes ≡ vec_len self.old.nodes + 1))
            (λ _. (vec_len self.new.pieces ≡ vec_len self.old.pieces + 2) × (vec_len self.new.nodes ≡ vec_len self.old.nodes))) }
    {
        let node = self.pieces.len() as u32;
        self.pieces.push(Piece::Hold(size))?;
        match twin {
            None => self.nodes.push(node)?,
            Some(twin) => {
                self.pieces.push(Piece::Both {
                    first: self.nodes[twin as usize],
                    second: node,
                })?;
                self.nodes[twin as usize] = node + 1;
            }
        }
        Ok(())
    }

    /// Makes the piece of the link that is left where a task was taken out.
    pub fn carry(&mut self, task: u32, taken: Taken) -> Result<(), NoMemory>
        requires places { (taken.first < vec_len self.old.nodes) × (taken.second < vec_len self.old.nodes) }
        requires twin { ForSome taken.twin (λ k. k < vec_len self.old.nodes) }
        requires room { vec_len self.old.pieces + fewer_by taken.twin ≤ most_pieces }
        ensures carried { IfOk result (λ _. (graph : List Item) (old new : List Link) → IsTaskTaken old new task taken →
            IsCarried graph [] self.old.pieces.items old self.old.nodes.items →
            IsCarried graph [] self.new.pieces.items new self.new.nodes.items) }
        ensures nodes { IfOk result (λ _. vec_len self.new.nodes ≡ vec_len self.old.nodes) }
        ensures pieces { IfOk result (λ _. vec_len self.new.pieces ≡ vec_len self.old.pieces + fewer_by taken.twin) }
    {
        let series = self.pieces.len() as u32;
        self.pieces.push(Piece::Series {
            first: self.nodes[taken.first as usize],
            task,
            second: self.nodes[taken.second as usize],
        })?;
        match taken.twin {
            None => self.nodes[taken.first as usize] = series,
            Some(twin) => {
                self.pieces.push(Piece::Both {
                    first: self.nodes[twin as usize],
                    second: series,
                })?;
                self.nodes[twin as usize] = series + 1;
            }
        }
        Ok(())
    }
}
