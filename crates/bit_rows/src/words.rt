//! Bits in words, 64 to a word.

ghost use Rattle.std.specs.Prelude.{◌≡◌, ◌≢◌, ◌==◌, ℕ, ◌+◌, ◌*◌, ◌/◌, ◌<◌, ◌≤◌, ◌^◌, ◌&&◌, ◌||◌, not, true, false, IsTrue, length, position, slice_index};
ghost use Rattle.std.specs.List.{count_by, range_with_len};
ghost use Rattle.bit_rows.specs.Bits.{word_bit};
ghost use Rattle.bit_rows.specs.Rows.{IsLowestIn};

/// Whether words have the bit of x.
#[inline]
pub fn has_bit(words: &[u64], x: usize) -> bool
    requires { x / 64 < length words.now }
    ensures { result ≡ word_bit words.now x }
{
    words[x / 64] >> (x % 64) & 1 == 1
}

/// Sets the bit of x.
#[inline]
pub fn set_bit(words: &mut [u64], x: usize)
    requires { x / 64 < length words.old }
    ensures set { word_bit words.new x ≡ true }
    ensures others { (y : ℕ) → y ≢ x → word_bit words.new y ≡ word_bit words.old y }
{
    words[x / 64] |= 1 << (x % 64);
}

/// Clears the bit of x.
#[inline]
pub fn clear_bit(words: &mut [u64], x: usize)
    requires { x / 64 < length words.old }
    ensures cleared { word_bit words.new x ≡ false }
    ensures others { (y : ℕ) → y ≢ x → word_bit words.new y ≡ word_bit words.old y }
{
    words[x / 64] &= !(1 << (x % 64));
}

/// Adds the bits of other words.
pub fn unite_words(words: &mut [u64], other: &[u64])
    requires { length other.now ≡ length words.old }
    ensures { (x : ℕ) → word_bit words.new x ≡ (word_bit words.old x || word_bit other.now x) }
{
    for k in 0..words.len() {
        words[k] |= other[k];
    }
}

/// How many bits below a number both have, where the first have none from there on.
pub fn count_common_bits(words: &[u64], other: &[u64]) -> usize
    requires same { length other.now ≡ length words.now }
    requires few { length words.now ≤ 2 ^ 32 }
    ensures { (n : ℕ) → ((x : ℕ) → n ≤ x → word_bit words.now x ≡ false) →
        result ≡ count_by (λ x. word_bit words.now x && word_bit other.now x) (range_with_len 0 n) }
{
    let mut count = 0;
    for k in 0..words.len() {
        count += (words[k] & other[k]).count_ones() as usize;
    }
    count
}

/// The first word that isn't 0.
pub fn first_word(words: &[u64]) -> Option<usize>
    ensures { result ≡ position (λ word. not (word == 0)) words.now }
{
    words.iter().position(|word| *word != 0)
}

/// Whether a word isn't 0.
#[inline]
pub fn is_some_word(words: &[u64], k: usize) -> bool
    requires { k < length words.now }
    ensures some { IsTrue result → (x : ℕ) × IsLowestIn words.now k x }
    ensures none { result ≡ false → slice_index words.now k ≡ 0 }
{
    words[k] != 0
}

/// The lowest bit of a word that isn't 0.
#[inline]
pub fn lowest_bit(words: &[u64], k: usize) -> usize
    requires few { length words.now ≤ 2 ^ 32 }
    requires within { k < length words.now }
    requires some { slice_index words.now k ≢ 0 }
    ensures { IsLowestIn words.now k result }
{
    64 * k + words[k].trailing_zeros() as usize
}
