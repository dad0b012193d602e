ghost use Rattle.std.specs.Prelude.{◌≡◌, ◌≢◌, ◌↔◌, ℕ, ◌+◌, ◌/◌, ◌<◌, ◌≤◌, ◌^◌, ◌&&◌, ◌||◌, true, false, [], IsTrue, length, replicate, slice_set};
ghost use Rattle.std.specs.Prelude.{IfOk, IfSome, IfNone};
ghost use Rattle.std.specs.List.{count_by, range_with_len};
ghost use Rattle.bit_rows.specs.Bits.{bit_in, word_bit, IsFirstIn, IsNoneInWord, IsSomeInWord, IsFirstInWord};

use crate::NoMemory;
use crate::words::{
    clear_bit, count_common_bits, first_word, has_bit, is_some_word, lowest_bit, set_bit,
    unite_words,
};
use std::alloc::Global;
use std::marker::Model;

/// A set of numbers below a number that is fixed, at most 2^32: contracts see for each number whether it is in.
#[derive(Drop)]
pub struct BitRow {
    len: usize,
    words: Vec<u64>,
}

impl Model for BitRow {
    ghost use Rattle.std.specs.Prelude.{List, Bool};
    ghost use Rattle.bit_rows.specs.Rows.{bits_of, IsBitRow};

    ghost Value = { List Bool };

    ghost view = { λ r. bits_of r.len r.words.items };

    ghost invariant = { λ r. IsBitRow r.len r.words.items };
}

impl BitRow {
    /// A row of no number. It takes no memory.
    pub fn empty(alloc: Global) -> BitRow
        ensures { result ≡ [] }
    {
        BitRow {
            len: 0,
            words: Vec::new(alloc),
        }
    }

    /// A row of so many numbers, of which none is in.
    pub fn new(alloc: Global, len: usize) -> Result<BitRow, NoMemory>
        requires { len ≤ 2 ^ 32 }
        ensures { IfOk result (λ row. row ≡ replicate len false) }
    {
        let words = vec![in alloc; 0; (len + 63) / 64]?;
        Ok(BitRow { len, words })
    }

    /// The same row once more.
    pub fn copy(&self) -> Result<BitRow, NoMemory>
        ensures { IfOk result (λ row. row ≡ self.now) }
    {
        Ok(BitRow {
            len: self.len,
            words: self.words.clone()?,
        })
    }

    /// How many numbers it is a row of.
    #[inline]
    pub fn len(&self) -> usize
        ensures { result ≡ length self.now }
    {
        self.len
    }

    /// Whether a number is in.
    #[inline]
    pub fn has(&self, x: usize) -> bool
        requires { x < length self.now }
        ensures { result ≡ bit_in self.now x }
    {
        has_bit(&self.words, x)
    }

    /// Puts a number in.
    #[inline]
    pub fn insert(&mut self, x: usize)
        requires { x < length self.old }
        ensures { self.new ≡ slice_set self.old x true }
    {
        set_bit(&mut self.words, x);
    }

    /// Takes a number out.
    #[inline]
    pub fn remove(&mut self, x: usize)
        requires { x < length self.old }
        ensures { self.new ≡ slice_set self.old x false }
    {
        clear_bit(&mut self.words, x);
    }

    /// Puts a number in, or takes it out.
    #[inline]
    pub fn put(&mut self, x: usize, is_in: bool)
        requires { x < length self.old }
        ensures { self.new ≡ slice_set self.old x is_in }
    {
        if is_in {
            self.insert(x);
        } else {
            self.remove(x);
        }
    }

    /// Puts in the numbers of another row.
    pub fn unite(&mut self, other: &BitRow)
        requires { length other.now ≡ length self.old }
        ensures len { length self.new ≡ length self.old }
        ensures bits { (x : ℕ) → bit_in self.new x ≡ (bit_in self.old x || bit_in other.now x) }
    {
        unite_words(&mut self.words, &other.words);
    }

    /// How many numbers two rows have in common.
    pub fn count_common(&self, other: &BitRow) -> usize
        requires { length other.now ≡ length self.now }
        ensures { result ≡ count_by (λ x. bit_in self.now x && bit_in other.now x) (range_with_len 0 (length self.now)) }
    {
        count_common_bits(&self.words, &other.words)
    }

    /// The first number that is in.
    pub fn first(&self) -> Option<usize>
        ensures some { IfSome result (IsFirstIn self.now) }
        ensures none { IfNone result ((x : ℕ) → bit_in self.now x ≡ false) }
    {
        let word = first_word(&self.words)?;
        Some(lowest_bit(&self.words, word))
    }

    /// Whether any of the 64 numbers of a word is in.
    #[inline]
    pub fn is_in_word(&self, word: usize) -> bool
        requires { (x : ℕ) × (x < length self.now) × (x / 64 ≡ word) }
        ensures some { IsTrue result → IsSomeInWord self.now word }
        ensures none { result ≡ false → IsNoneInWord self.now word }
    {
        is_some_word(&self.words, word)
    }

    /// The first number of a word that is in.
    #[inline]
    pub fn first_in_word(&self, word: usize) -> usize
        requires { IsSomeInWord self.now word }
        ensures { IsFirstInWord self.now word result }
    {
        lowest_bit(&self.words, word)
    }

    /// The row in words: the number x is the bit x % 64 of the word x / 64.
    #[inline]
    pub fn words(&self) -> &[u64]
        ensures len { length result.now ≡ (length self.now + 63) / 64 }
        ensures bits { (x : ℕ) → word_bit result.now x ≡ bit_in self.now x }
    {
        &self.words
    }
}
