ghost use Rattle.std.specs.Prelude.{◌≡◌, ℕ, ◌+◌, ◌<◌, ◌≤◌, ◌^◌, false, length, replicate, slice_set};
ghost use Rattle.std.specs.Prelude.{IfOk, IfSome, IfNone};
ghost use Rattle.bit_rows.specs.Bits.{bit_in, IsFirstIn};

use crate::NoMemory;
use bit_rows::BitRow;
use std::alloc::Global;
use std::marker::Model;

/// A set of ranks below a number that is fixed, with its first rank at hand: a tree of bits, 64 children to a node. `words` has which
/// words of `ranks` have any, and `groups` which words of `words` have any; its own words are four for a million ranks.
#[derive(Drop)]
pub struct RankSet {
    ranks: BitRow,
    words: BitRow,
    groups: BitRow,
}

impl Model for RankSet {
    ghost use Rattle.std.specs.Prelude.{List, Bool};
    ghost use Rattle.activation.specs.Bits.{AreRankBits};

    ghost Value = { List Bool };

    ghost view = { λ s. s.ranks };

    ghost invariant = { λ s. AreRankBits s.ranks s.words s.groups };
}

impl RankSet {
    /// No rank; there is room for the ranks below `count`, at most 2^32.
    pub fn new(alloc: Global, count: usize) -> Result<RankSet, NoMemory>
        requires { count ≤ 2 ^ 32 }
        ensures { IfOk result (λ ranks. ranks ≡ replicate count false) }
    {
        let ranks = BitRow::new(alloc, count)?;
        let words = BitRow::new(alloc, count / 64 + 1)?;
        let groups = BitRow::new(alloc, count / 64 / 64 + 1)?;
        Ok(RankSet {
            ranks,
            words,
            groups,
        })
    }

    /// Puts a rank in, or takes it out.
    pub fn put(&mut self, rank: usize, is_in: bool)
        requires { rank < length self.old }
        ensures { self.new ≡ slice_set self.old rank is_in }
    {
        let word = rank / 64;
        self.ranks.put(rank, is_in);
        self.words.put(word, self.ranks.is_in_word(word));
        self.groups.put(word / 64, self.words.is_in_word(word / 64));
    }

    /// Whether a rank is in.
    pub fn has(&self, rank: usize) -> bool
        requires { rank < length self.now }
        ensures { result ≡ bit_in self.now rank }
    {
        self.ranks.has(rank)
    }

    /// The first rank.
    pub fn first(&self) -> Option<usize>
        ensures some { IfSome result (IsFirstIn self.now) }
        ensures none { IfNone result ((r : ℕ) → bit_in self.now r ≡ false) }
    {
        let group = self.groups.first()?;
        let word = self.words.first_in_word(group);
        Some(self.ranks.first_in_word(word))
    }
}
