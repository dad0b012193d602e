//! A line's tokens as a cursor: the numbers that they spell, and lines of so many tokens.

ghost use Rattle.std.specs.Prelude.{◌≡◌, ◌≢◌, ◌==◌, [], ◌∷◌, false, length, drop, slice_index_or, MatchOption, IfSome, IfNone};
ghost use Rattle.mp_text.specs.Text.{number_of, numbers_of};

use crate::numbers::number;
use crate::token_scan::Tokens;

impl<'a> Tokens<'a> {
    /// Takes the next token, and gives the number that it spells: none where it spells none, or no token is left. Each byte of a number of
    /// few digits is looked at once.
    #[inline]
    pub fn next_number(&mut self) -> Option<u64>
        ensures number { result ≡ number_of (slice_index_or self.old 0 []) }
        ensures rest { self.new ≡ drop 1 self.old }
    {
        if let Some(value) = self.short_number() {
            return Some(value);
        }
        let token = self.next()?;
        number(token)
    }

    /// The numbers that the tokens spell, where they are `N` and each spells one.
    pub fn numbers<const N: usize>(mut self) -> Option<[u64; N]>
        ensures some { IfSome result (λ ns. (numbers_of self.entry ≡ Some ns) × (length ns ≡ N)) }
        ensures none { IfNone result (IfSome (numbers_of self.entry) (λ ns. length ns ≢ N)) }
    {
        let mut values = [0; N];
        for i in 0..N {
            values[i] = self.next_number()?;
        }
        match self.next() {
            Some(_) => None,
            None => Some(values),
        }
    }

    /// The token, where it is the only one.
    pub fn one(mut self) -> Option<&'a [u8]>
        ensures { MatchOption result ((length self.entry == 1) ≡ false) (λ t. self.entry ≡ t.now ∷ []) }
    {
        let only = self.next()?;
        match self.next() {
            Some(_) => None,
            None => Some(only),
        }
    }
}
