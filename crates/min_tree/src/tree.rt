ghost use Rattle.std.specs.Prelude.{◌≡◌, ◌+◌, ◌*◌, ◌<◌, ◌≤◌, ◌^◌, min, length, slice_index, slice_set, replicate, IfOk, MatchOption, ℕ};
ghost use Rattle.min_tree.specs.Least.{IsFirstLeast, IsFirstAtMost, IsChildTowards, greatest};

use crate::NoMemory;
use std::alloc::Global;
use std::marker::Model;

/// A list of numbers of fixed length. A change takes time logarithmic in the length, and so does a look at the first least.
#[derive(Drop)]
pub struct MinTree {
    nodes: Vec<u64>,
    leaves: usize,
    count: usize,
    depth: u32,
}

impl Model for MinTree {
    ghost use Rattle.std.specs.Prelude.{ℕ, List, take, drop};
    ghost use Rattle.min_tree.specs.Least.{IsMinTree};

    ghost Value = { List ℕ };

    ghost view = { λ t. take t.count (drop t.leaves t.nodes.items) };

    ghost invariant = { λ t. IsMinTree t.depth t.leaves t.count t.nodes.items };
}

// The lesser of the numbers of the two children.
#[inline]
fn least_of_children(nodes: &[u64], at: usize) -> u64
    requires { 2 * at + 1 < length nodes.now }
    ensures { result ≡ min (slice_index nodes.now (2 * at)) (slice_index nodes.now (2 * at + 1)) }
{
    nodes[2 * at].min(nodes[2 * at + 1])
}

// The child on the way down to the first number that is at most `bound`. Found without a branch, since which it is can't be foreseen.
#[inline]
fn child_towards(nodes: &[u64], at: usize, bound: u64) -> usize
    requires { 2 * at < length nodes.now }
    ensures { IsChildTowards nodes.now bound at result }
{
    2 * at + usize::from(nodes[2 * at] > bound)
}

// The child of that child. The numbers of both levels are read at once, so that no read waits for the one before.
#[inline]
fn grandchild_towards(nodes: &[u64], at: usize, bound: u64) -> usize
    requires { 4 * at + 2 < length nodes.now }
    ensures { (child : ℕ) × IsChildTowards nodes.now bound at child × IsChildTowards nodes.now bound child result }
{
    let left = child_towards(nodes, 2 * at, bound);
    let right = child_towards(nodes, 2 * at + 1, bound);
    if nodes[2 * at] > bound { right } else { left }
}

impl MinTree {
    /// So many numbers, at most 2^31, each the greatest of 64 bits.
    pub fn new(alloc: Global, count: usize) -> Result<MinTree, NoMemory>
        requires { count ≤ 2 ^ 31 }
        ensures { IfOk result (λ numbers. numbers ≡ replicate count greatest) }
    {
        let mut leaves = 1;
        let mut depth = 0;
        while leaves < count {
            leaves *= 2;
            depth += 1;
        }
        let nodes = vec![in alloc; u64::MAX; 2 * leaves]?;
        Ok(MinTree {
            nodes,
            leaves,
            count,
            depth,
        })
    }

    /// How many numbers there are.
    pub fn len(&self) -> usize
        ensures { result ≡ length self.now }
    {
        self.count
    }

    /// The number at this place, counted from 0.
    pub fn at(&self, place: usize) -> u64
        requires { place < length self.now }
        ensures { result ≡ slice_index self.now place }
    {
        self.nodes[self.leaves + place]
    }

    /// Sets the number at this place. The way up ends at the first node that stays as it is.
    pub fn put(&mut self, place: usize, number: u64)
        requires { place < length self.old }
        ensures { self.new ≡ slice_set self.old place number }
    {
        if number <= self.at(place) {
            self.lower(place, number);
        } else {
            self.raise(place, number);
        }
    }

    // Sets a number that is not above the one before: the nodes above it that are greater fall to it.
    fn lower(&mut self, place: usize, number: u64)
        requires within { place < length self.old }
        requires low { number ≤ slice_index self.old place }
        ensures { self.new ≡ slice_set self.old place number }
    {
        let mut at = self.leaves + place;
        self.nodes[at] = number;
        while at > 1 {
            let up = at / 2;
            if self.nodes[up] <= number {
                at = 1;
                continue;
            }
            self.nodes[up] = number;
            at = up;
        }
    }

    // Sets any number: the nodes above it are the lesser of their children again.
    fn raise(&mut self, place: usize, number: u64)
        requires { place < length self.old }
        ensures { self.new ≡ slice_set self.old place number }
    {
        let mut at = self.leaves + place;
        self.nodes[at] = number;
        while at > 1 {
            let up = at / 2;
            let least = least_of_children(&self.nodes, up);
            if self.nodes[up] == least {
                at = 1;
                continue;
            }
            self.nodes[up] = least;
            at = up;
        }
    }

    /// The least number. Takes constant time.
    pub fn least(&self) -> u64
        requires { 0 < length self.now }
        ensures { (place : ℕ) × IsFirstLeast self.now place × (slice_index self.now place ≡ result) }
    {
        self.nodes[1]
    }

    /// The place of the first least number.
    pub fn first_least(&self) -> usize
        requires { 0 < length self.now }
        ensures { IsFirstLeast self.now result }
    {
        self.place_towards(self.least())
    }

    /// The first place whose number is at most `bound`.
    pub fn first_at_most(&self, bound: u64) -> Option<usize>
        requires { 0 < length self.now }
        ensures { MatchOption result ((k : ℕ) → k < length self.now → bound < slice_index self.now k)
            (λ place. IsFirstAtMost self.now bound place) }
    {
        if self.least() > bound {
            return None;
        }
        Some(self.place_towards(bound))
    }

    // The first place whose number is at most `bound`, where there is one.
    #[inline(never)]
    fn place_towards(&self, bound: u64) -> usize
        requires { (k : ℕ) × (k < length self.now) × (slice_index self.now k ≤ bound) }
        ensures { IsFirstAtMost self.now bound result }
    {
        let mut at = 1;
        while 2 * at < self.leaves {
            at = grandchild_towards(&self.nodes, at, bound);
        }
        if at < self.leaves {
            at = child_towards(&self.nodes, at, bound);
        }
        at - self.leaves
    }
}
