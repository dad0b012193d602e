ghost use Rattle.std.specs.Prelude.{◌≡◌, ◌==◌, ◌&&◌, ℕ, ◌+◌, ◌<◌, ◌≤◌, ◌^◌, ◌++◌, ◌∷◌, [], not, nat_le, IsTrue, List, length, drop};
ghost use Rattle.std.specs.Prelude.{slice_index, IfOk, OnOk};
ghost use Rattle.std.specs.List.{range_with_len};
ghost use Rattle.permutations.specs.Perm.{AreInverse, IsPerm, IsVertex, PermState, vertex_at, place_of, times};
ghost use Rattle.permutations.specs.PermTables.{order_in, ArePermTables, ArePartTables};

use crate::NoMemory;
use std::alloc::Global;
use std::marker::Model;

/// An order of elimination: each of the vertices 1 to n once, and with it the place of each. Contracts see the list of the vertices.
#[derive(Drop)]
pub struct Perm {
    // by place; at 0 stands 0
    vertices: Vec<u32>,
    // by vertex; at 0 stands 0
    places: Vec<u32>,
}

impl Model for Perm {
    ghost Value = { List ℕ };

    ghost view = { λ p. order_in p.vertices.items };

    ghost invariant = { λ p. ArePermTables p.vertices.items p.places.items };
}

impl Perm {
    /// The order of two tables that undo each other: the vertex at each place, and the place of each vertex, both from 1, with 0 at 0.
    /// It takes no memory.
    pub fn from_tables(vertices: Vec<u32>, places: Vec<u32>) -> Perm
        requires inverse { AreInverse vertices.items places.items }
        requires small { length vertices.items ≤ 2 ^ 32 }
        ensures order { result ≡ drop 1 vertices.items }
        ensures perm { IsPerm (length result) result }
        ensures len { length result + 1 ≡ length vertices.items }
        ensures places { (v : ℕ) → place_of result v ≡ slice_index places.items v }
    {
        Self { vertices, places }
    }

    /// What every value of this type keeps; a proof that needs it calls it. It does nothing.
    pub fn keeps(&self)
        // each vertex stands in the order once
        ensures { IsPerm (length self.now) self.now }
    {
        let _ = &self.vertices;
    }

    /// How many vertices there are.
    pub fn len(&self) -> u32
        ensures value { result ≡ length self.now }
        // each of them stands in the order once
        ensures perm { IsPerm result self.now }
    {
        (self.vertices.len() - 1) as u32
    }

    /// The vertex that is eliminated `k`-th, from 1; 0 for 0.
    pub fn at(&self, k: u32) -> u32
        requires { k ≤ length self.now }
        ensures value { result ≡ vertex_at self.now k }
        ensures vertex { result ≤ length self.now }
    {
        self.vertices[k as usize]
    }

    /// The place at which a vertex is eliminated, from 1; 0 for 0. It undoes `at`.
    pub fn place(&self, v: u32) -> u32
        requires { v ≤ length self.now }
        ensures value { result ≡ place_of self.now v }
        ensures place { result ≤ length self.now }
    {
        self.places[v as usize]
    }
}

/// The order 1, 2, .., n.
pub fn identity(alloc: Global, n: u32) -> Result<Perm, NoMemory>
    ensures order { IfOk result (λ perm. perm ≡ range_with_len 1 n) }
    ensures vertices { IfOk result (λ perm. (k : ℕ) → k ≤ n → vertex_at perm k ≡ k) }
{
    let mut vertices: Vec<u32> = (0..n).collect(alloc)?;
    vertices.push(n)?;
    let places = vertices.clone()?;
    Ok(Perm { vertices, places })
}

/// The vertices that come first in a permutation of 1 to `n`, for a reader that takes one after another: each is judged at once, by a table
/// of places. Contracts see `n` and the list of the vertices. Where a priority ranks tasks, they are its vertices.
#[derive(Drop)]
pub struct PartialPerm {
    n: u32,
    // by place, and by vertex with 0 for one that does not stand there; at 0 stands 0
    vertices: Vec<u32>,
    places: Vec<u32>,
}

impl Model for PartialPerm {
    ghost Value = { PermState };

    ghost view = { λ s. record { n = s.n; numbers = order_in s.vertices.items } };

    ghost invariant = { λ s. ArePartTables s.n s.vertices.items s.places.items };
}

impl PartialPerm {
    /// No vertex yet, of `n`. It takes the memory of all of them.
    pub fn new(alloc: Global, n: u32) -> Result<PartialPerm, NoMemory>
        ensures { IfOk result (λ reader. reader ≡ record { n = n; numbers = [] }) }
    {
        let mut vertices = Vec::with_capacity(alloc, n as usize + 1)?;
        vertices.push(0)?;
        let places = vec![in alloc; 0; n as usize + 1]?;
        Ok(PartialPerm {
            n,
            vertices,
            places,
        })
    }

    /// How many vertices the whole order has.
    pub fn whole_len(&self) -> u32
        ensures { result ≡ self.now.n }
    {
        self.n
    }

    /// Whether a vertex, from 1 to `n`, stands in the order so far.
    #[tactic(auto, using(crate::proofs::PlaceLemmas::times_test))]
    pub fn has(&self, vertex: u32) -> bool
        requires { IsVertex self.now.n vertex }
        ensures { result ≡ not (times self.now.numbers vertex == 0) }
    {
        self.places[vertex as usize] != 0
    }

    /// Whether a number can come next: it is a vertex, from 1 to `n`, and does not stand in the order so far.
    pub fn takes(&self, number: u64) -> bool
        ensures value { result ≡ (nat_le 1 number && nat_le number self.now.n && (times self.now.numbers number == 0)) }
        ensures vertex { IsTrue result → IsVertex self.now.n number }
        ensures fresh { IsTrue result → times self.now.numbers number ≡ 0 }
        ensures small { IsTrue result → number < 2 ^ 32 }
    {
        1 <= number && number <= u64::from(self.n) && !self.has(number as u32)
    }

    /// How many vertices the order has so far.
    pub fn len(&self) -> usize
        ensures { result ≡ length self.now.numbers }
    {
        self.vertices.len() - 1
    }

    /// Puts a vertex, from 1 to `n`, at the end of the order, in which it does not stand yet. After want of memory nothing is promised of
    /// the order.
    #[tactic(auto, using(crate::proofs::TableLemmas::order_push))]
    pub fn push(&mut self, vertex: u32) -> Result<(), NoMemory>
        requires vertex { IsVertex self.old.n vertex }
        requires fresh { times self.old.numbers vertex ≡ 0 }
        ensures { OnOk result (self.new ≡ record self.old { numbers = self.old.numbers ++ vertex ∷ [] }) }
    {
        let place = self.vertices.len() as u32;
        self.vertices.push(vertex)?;
        self.places[vertex as usize] = place;
        Ok(())
    }

    /// The order, where its vertices are those from 1 to as many. It takes no memory.
    pub fn finish(self) -> Perm
        requires { IsPerm (length self.numbers) self.numbers }
        ensures { result ≡ self.numbers }
    {
        let PartialPerm {
            vertices,
            places,
            ..
        } = self;
        Perm { vertices, places }
    }

    /// The vertices that the order has so far. Linear in them. It takes no memory.
    pub fn into_vertices(self) -> Vec<u32>
        ensures { result.items ≡ self.numbers }
    {
        let mut vertices = self.vertices;
        vertices.remove(0);
        vertices
    }
}
