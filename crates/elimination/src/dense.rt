//! The end of an elimination, where what is left is nearly a clique: the neighbours of each vertex are a row of bits, the bit of vertex x
//! at place x. An eliminated vertex whose row still counts is open; to look at a vertex is to put the open rows that have it into its row.
//! So an open vertex is an element of a quotient graph, as in George and Liu, The evolution of the minimum degree ordering algorithm, 1989.

ghost use Rattle.std.specs.Prelude.{◌≡◌, ◌≢◌, ℕ, ◌+◌, ◌-◌, ◌*◌, ◌/◌, ◌^◌, ◌<◌, ◌≤◌, ◌&&◌, ◌||◌, ◌⊎◌, Bool, List, IsTrue, OnOk, IfOk, ◌==◌};
ghost use Rattle.std.specs.Prelude.{length, slice_index, take, not, true, false};
ghost use Rattle.std.specs.List.{count_by, filter, range_with_len};
ghost use Rattle.std.specs.Int.{bit_at};
ghost use Rattle.limits.specs.Limits.{most_order};
ghost use Rattle.bit_rows.specs.Bits.{bit_in, word_bit};
ghost use Rattle.elimination.specs.Elimination.{IsVertex, IsRemaining, degree_of};
ghost use Rattle.elimination.specs.Dense.{lacks, row_of, Stage, IsStanding, IsInOpen, AreBitRows, IsLookedAt, IsDense, IsDenseChoice};
ghost use Rattle.elimination.specs.Dense.{IsDenseUnderWay, IsDenseRest, IsLeastDegreeOrder, stage_after, width_of, IsFullRow, IsFilling};

use crate::NoMemory;
use bit_rows::BitRow;
use min_tree::MinTree;
use std::alloc::Global;
use std::mem;

/// What is left of a pattern as rows of bits: the row of a vertex that is left has its neighbours as far as it was looked at, and itself;
/// an eliminated vertex that is open keeps its row, and of that those that are left are all joined to each other.
#[derive(Drop)]
pub struct DenseSearch {
    order: u32,
    // by vertex; that of 0 is not read
    rows: Vec<BitRow>,
    // eliminated vertices that are open
    pivots: Vec<u32>,
    // has the vertices that are left
    alive: BitRow,
    // none is above the degree
    bounds: MinTree,
}

/// A row of so many vertices, with the bit of v alone.
pub fn row_with(alloc: Global, order: u32, v: u32) -> Result<BitRow, NoMemory>
    requires few { order ≤ most_order }
    requires v { v ≤ order }
    ensures len { IfOk result (λ row. length row ≡ width_of order) }
    ensures bits { IfOk result (λ row. (x : ℕ) → bit_in row x ≡ (v == x)) }
{
    let mut row = BitRow::new(alloc, order as usize + 1)?;
    row.insert(v as usize);
    Ok(row)
}

// So many rows of no number.
fn empty_rows(alloc: Global, count: usize) -> Result<Vec<BitRow>, NoMemory>
    ensures { IfOk result (λ rows. length rows.items ≡ count) }
{
    let mut rows = Vec::with_capacity(alloc, count)?;
    for _ in 0..count {
        rows.push(BitRow::empty(alloc))?;
    }
    Ok(rows)
}

impl DenseSearch {
    /// A search of so many vertices, into which those that are left are to be put.
    pub fn new(alloc: Global, order: u32) -> Result<DenseSearch, NoMemory>
        requires { order ≤ most_order }
        ensures filling { IfOk result (λ search. (stage : Stage) → order ≡ stage.order → IsFilling stage search) }
        ensures order { IfOk result (λ search. search.order ≡ order) }
        ensures none { IfOk result (λ search. (x : ℕ) → bit_in search.alive x ≡ false) }
    {
        let count = order as usize + 1;
        Ok(DenseSearch {
            order,
            rows: empty_rows(alloc, count)?,
            pivots: Vec::new(alloc),
            alive: BitRow::new(alloc, count)?,
            bounds: MinTree::new(alloc, count)?,
        })
    }

    /// How many vertices the search has.
    pub fn order(&self) -> u32
        ensures { result ≡ self.now.order }
    {
        self.order
    }

    /// Puts in a vertex that is left, with its row and a number that is not above its degree.
    pub fn put(&mut self, v: u32, row: BitRow, bound: u64)
        requires { (stage : Stage) × IsFilling stage self.old × IsStanding stage v }
        ensures order { self.new.order ≡ self.old.order }
        ensures put { bit_in self.new.alive v ≡ true }
        ensures bound { slice_index self.new.bounds v ≡ bound }
        ensures others { (x : ℕ) → x ≢ v → bit_in self.new.alive x ≡ bit_in self.old.alive x }
        ensures filled { (stage : Stage) → IsFilling stage self.old → IsStanding stage v → IsFullRow stage v row
            → bound ≤ degree_of stage.left stage.order v → IsFilling stage self.new }
    {
        self.alive.insert(v as usize);
        self.bounds.put(v as usize, bound);
        self.rows[v as usize] = row;
    }
}

// Adds to a row the open rows that have v.
fn unite_open(row: &mut BitRow, rows: &[BitRow], pivots: &[u32], v: u32)
    requires within { (j : ℕ) → j < length pivots.now → slice_index pivots.now j < length rows.now }
    requires widths { (j : ℕ) → j < length pivots.now → length (row_of rows.now (slice_index pivots.now j)) ≡ length row.old }
    requires v { v < length row.old }
    ensures len { length row.new ≡ length row.old }
    ensures kept { (x : ℕ) → IsTrue (bit_in row.old x) → IsTrue (bit_in row.new x) }
    ensures from { (x : ℕ) → IsTrue (bit_in row.new x) → IsTrue (bit_in row.old x) ⊎ IsInOpen (row_of rows.now) pivots.now v x }
    ensures to { (x : ℕ) → IsInOpen (row_of rows.now) pivots.now v x → IsTrue (bit_in row.new x) }
{
    for p in pivots {
        let other = &rows[*p as usize];
        if other.has(v as usize) {
            row.unite(other);
        }
    }
}

// Makes the row of v exact among the vertices that are left, and counts its degree.
fn look(alloc: Global, rows: &mut [BitRow], pivots: &[u32], alive: &BitRow, v: u32) -> u64
    requires few { length rows.old ≤ (most_order + 1) }
    requires stand { (stage : Stage) × AreBitRows stage (row_of rows.old) pivots.now alive.now × IsStanding stage v
        × (length rows.old ≡ stage.order + 1) }
    ensures len { length rows.new ≡ length rows.old }
    ensures looked { (stage : Stage) → AreBitRows stage (row_of rows.old) pivots.now alive.now → IsStanding stage v
        → IsLookedAt stage (row_of rows.new) pivots.now alive.now v result }
{
    let mut row = mem::replace(&mut rows[v as usize], BitRow::empty(alloc));
    unite_open(&mut row, rows, pivots, v);
    let degree = (row.count_common(alive) as u64).saturating_sub(1);
    rows[v as usize] = row;
    degree
}

// The vertex that is eliminated next. Degrees are counted only of vertices whose bound is the least: a bound that is too low is raised.
fn choose(alloc: Global, search: &mut DenseSearch) -> u32
    requires { (stage : Stage) × IsDense stage search.old × ((w : ℕ) × IsStanding stage w) }
    ensures order { search.new.order ≡ search.old.order }
    ensures chosen { (stage : Stage) → IsDense stage search.old → IsDenseChoice stage search.new result }
{
    'search: loop {
        let v = search.bounds.first_least() as u32;
        let degree = look(alloc, &mut search.rows, &search.pivots, &search.alive, v);
        if degree <= search.bounds.at(v as usize) {
            return v;
        }
        search.bounds.put(v as usize, degree);
    }
}

// Lowers by one the bounds of the bits of a word, whose first bit is that of `first`.
fn lower_word(word: u64, first: usize, bounds: &mut MinTree)
    requires first { first < 2 ^ 32 }
    requires inside { (i : ℕ) → i < 64 → bit_at word i ≡ 1 → first + i < length bounds.old }
    ensures len { length bounds.new ≡ length bounds.old }
    ensures had { (i : ℕ) → i < 64 → bit_at word i ≡ 1 → slice_index bounds.new (first + i) ≡ slice_index bounds.old (first + i) - 1 }
    ensures others { (x : ℕ) → ((i : ℕ) → i < 64 → x ≡ first + i → bit_at word i ≢ 1)
        → slice_index bounds.new x ≡ slice_index bounds.old x }
{
    let mut left = word;
    'bits: while left != 0 {
        let bit = left.trailing_zeros();
        left &= !(1 << bit);
        let x = first + bit as usize;
        bounds.put(x, bounds.at(x).saturating_sub(1));
    }
}

// Lowers by one the bounds of those that two rows, in words, have in common.
fn lower_common(row: &[u64], other: &[u64], bounds: &mut MinTree)
    requires same { length other.now ≡ length row.now }
    requires few { length row.now ≤ most_order }
    requires inside { (x : ℕ) → IsTrue (word_bit other.now x) → x < length bounds.old }
    ensures len { length bounds.new ≡ length bounds.old }
    ensures common { (x : ℕ) → IsTrue (word_bit row.now x && word_bit other.now x) → slice_index bounds.new x ≡ slice_index bounds.old x - 1 }
    ensures others { (x : ℕ) → (word_bit row.now x && word_bit other.now x) ≡ false → slice_index bounds.new x ≡ slice_index bounds.old x }
{
    for k in 0..row.len() {
        lower_word(row[k] & other[k], 64 * k, bounds);
    }
}

// Moves the open vertices whose rows lack v to the front, and says how many they are.
fn keep_apart(rows: &[BitRow], pivots: &mut [u32], v: u32) -> usize
    requires within { (j : ℕ) → j < length pivots.old → slice_index pivots.old j < length rows.now }
    requires widths { (j : ℕ) → j < length pivots.old → v < length (row_of rows.now (slice_index pivots.old j)) }
    ensures { take result pivots.new ≡ filter (lacks (row_of rows.now) v) pivots.old }
{
    let mut kept = 0;
    for i in 0..pivots.len() {
        let p = pivots[i];
        if rows[p as usize].has(v as usize) {
            continue;
        }
        pivots[kept] = p;
        kept += 1;
    }
    kept
}

// Eliminates a vertex whose row is exact.
fn eliminate(search: &mut DenseSearch, v: u32) -> Result<(), NoMemory>
    requires { (stage : Stage) × IsDenseChoice stage search.old v }
    ensures order { search.new.order ≡ search.old.order }
    ensures eliminated { OnOk result ((stage : Stage) → IsDenseChoice stage search.old v → IsDense (stage_after stage v) search.new) }
{
    search.bounds.put(v as usize, u64::MAX);
    search.alive.remove(v as usize);
    lower_common(
        search.rows[v as usize].words(),
        search.alive.words(),
        &mut search.bounds,
    );
    let kept = keep_apart(&search.rows, &mut search.pivots, v);
    search.pivots.truncate(kept);
    search.pivots.push(v)?;
    Ok(())
}

// Lists the vertices that are left, where all of them are joined to each other: by rising number.
fn finish(order: u32, alive: &BitRow, vertices: &mut Vec<u32>) -> Result<(), NoMemory>
    requires width { order < length alive.now }
    requires few { order ≤ most_order }
    ensures { OnOk result ((joined : ℕ → ℕ → Bool) → IsDenseRest joined order alive.now vertices.old.items 1
        → IsLeastDegreeOrder joined order vertices.new.items) }
{
    for v in 1..=order {
        if !alive.has(v as usize) {
            continue;
        }
        vertices.push(v)?;
    }
    Ok(())
}

/// Eliminates the vertices that are left, and lists them after those that are gone.
pub fn eliminate_dense(
    alloc: Global,
    vertices: &mut Vec<u32>,
    mut search: DenseSearch,
) -> Result<(), NoMemory>
    requires { (joined : ℕ → ℕ → Bool) × IsDenseUnderWay joined vertices.old.items search }
    ensures { OnOk result ((joined : ℕ → ℕ → Bool) → IsDenseUnderWay joined vertices.old.items search
        → IsLeastDegreeOrder joined search.order vertices.new.items) }
{
    let order = search.order as usize;
    for gone in vertices.len()..order {
        let bound = search.bounds.least();
        if bound >= (order - gone - 1) as u64 {
            finish(search.order, &search.alive, vertices)?;
            return Ok(());
        }
        let v = choose(alloc, &mut search);
        eliminate(&mut search, v)?;
        vertices.push(v)?;
    }
    Ok(())
}
