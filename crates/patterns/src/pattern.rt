//! Patterns of symmetric matrices.

ghost use Rattle.std.specs.Prelude.{◌≡◌, ◌≤◌, ◌+◌, ℕ, List, All, length, drop, IfOk};
ghost use Rattle.limits.specs.Limits.{most_order, most_entries};
ghost use Rattle.patterns.specs.Pattern.{IsPattern, IsPatternOf, IsPairWithin, neighbours_of};

use crate::NoMemory;
use crate::groups::grouped;
use crate::pairs::{partner_counts, partner_rows};
use row_table::RowTable;
use std::alloc::Global;
use std::marker::Model;

/// The pattern of a symmetric matrix without its diagonal: 1 to 10^6 vertices, numbered from 1, and the neighbours of each in rising
/// order.
#[derive(Drop)]
pub struct Pattern {
    // a row for each number up to the order; that of 0 is not read
    table: RowTable,
}

impl Model for Pattern {
    ghost Value = { List (List ℕ) };

    ghost view = { λ p. drop 1 p.table };

    ghost invariant = { λ p. IsPattern (drop 1 p.table) };
}

impl Pattern {
    /// What every value of this type keeps; a proof that needs it calls it. It does nothing.
    pub fn keeps(&self)
        ensures { IsPattern self.now }
    {
        let _ = &self.table;
    }

    /// How many vertices there are, 1 to 10^6.
    pub fn rows(&self) -> u32
        ensures value { result ≡ length self.now }
        ensures pattern { IsPattern self.now }
    {
        (self.table.len() - 1) as u32
    }

    /// The neighbours of a vertex, in rising order.
    pub fn neighbours(&self, v: u32) -> &[u32]
        requires { (1 ≤ v) × (v ≤ length self.now) }
        ensures { result.now ≡ neighbours_of self.now v }
    {
        self.table.row(v)
    }

    /// The pattern of so many vertices that joins these pairs. Repeated pairs count once, and a pair of a vertex with itself joins
    /// nothing. The pairs are taken by blocks of vertices where they come scattered, and counted into rows; a row that does not rise by
    /// then is sorted.
    pub fn from_pairs(
        alloc: Global,
        order: u32,
        pairs: Vec<(u32, u32)>,
    ) -> Result<Pattern, NoMemory>
        requires order { (1 ≤ order) × (order ≤ most_order) }
        requires few { length pairs.items ≤ most_entries }
        requires within { All (IsPairWithin order) pairs.items }
        ensures { IfOk result (λ pattern. IsPatternOf order pairs.items pattern) }
    {
        let groups = grouped(alloc, pairs)?;
        let counts = partner_counts(alloc, order as usize + 1, &groups)?;
        let mut builder = partner_rows(alloc, &counts, groups)?;
        builder.sort_rows();
        Ok(Pattern {
            table: builder.into_table(),
        })
    }
}
