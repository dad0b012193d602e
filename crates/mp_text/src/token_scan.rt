ghost use Rattle.std.specs.Prelude.{◌≡◌, ◌==◌, ◌≤◌, ℕ, length, [], ◌∷◌, drop, slice_index_or, Some, MatchOption, IfSome, IfNone};
ghost use Rattle.std.specs.Iterator.{YieldsFirstRef, item_count};
ghost use Rattle.std.specs.List.{prefix_len, position_or_len};
ghost use Rattle.mp_text.specs.Text.{is_blank, tokens_of, number_of};

use crate::numbers::leading_number;
use std::marker::Model;

fn is_blank(byte: u8) -> bool
    ensures { result ≡ is_blank byte }
{
    byte == b' ' || byte == b'\t' || byte == b'\r'
}

// How many blanks the line begins with.
fn blank_len(line: &[u8]) -> usize
    ensures within { result ≤ length line.now }
    ensures value { result ≡ prefix_len is_blank line.now }
{
    line.iter().take_while(|b| is_blank(**b)).count()
}

/// What follows the blanks that a line begins with.
#[inline]
pub(crate) fn after_blanks(line: &[u8]) -> &[u8]
    ensures { result.now ≡ drop (prefix_len is_blank line.now) line.now }
{
    &line[blank_len(line)..]
}

// How many bytes stand before the first blank.
fn token_len(line: &[u8]) -> usize
    ensures within { result ≤ length line.now }
    ensures value { result ≡ position_or_len is_blank line.now }
{
    line.iter().take_while(|b| !is_blank(**b)).count()
}

// Whether no token goes on here.
fn ends_token(text: &[u8]) -> bool
    ensures { result ≡ (position_or_len is_blank text.now == 0) }
{
    match text {
        [] => true,
        [byte, ..] => is_blank(*byte),
    }
}

// The first token and what follows it.
fn first_token(line: &[u8]) -> Option<(&[u8], &[u8])>
    ensures { MatchOption result (tokens_of line.now ≡ []) (λ p. tokens_of line.now ≡ p.0.now ∷ tokens_of p.1.now) }
{
    let text = after_blanks(line);
    if text.is_empty() {
        return None;
    }
    Some(text.split_at(token_len(text)))
}

/// The tokens of a line that are left, as an iterator.
#[derive(Drop)]
pub struct Tokens<'a> {
    pub(crate) rest: &'a [u8],
}

impl<'a> Model for Tokens<'a> {
    ghost use Rattle.std.specs.Prelude.{ℕ, List};
    ghost use Rattle.mp_text.specs.Text.{tokens_of};

    ghost Value = { List (List ℕ) };

    ghost view = { λ s. tokens_of s.rest.now };
}

impl<'a> Tokens<'a> {
    // Takes the next token where it is digits and not too many, and gives the number that they spell. Else it takes nothing.
    #[inline]
    pub(crate) fn short_number(&mut self) -> Option<u64>
        ensures some { IfSome result (λ n. (Some n ≡ number_of (slice_index_or self.old 0 [])) × (self.new ≡ drop 1 self.old)) }
        ensures none { IfNone result (self.new ≡ self.old) }
    {
        let text = after_blanks(self.rest);
        let (value, len) = leading_number(text);
        let after = &text[len..];
        if len == 0 || !ends_token(after) {
            return None;
        }
        self.rest = after;
        Some(value)
    }
}

impl<'a> Iterator for Tokens<'a> {
    type Item = &'a [u8];

    ghost next_gives = { YieldsFirstRef (λ s. s) };

    ghost remaining = { item_count (λ s. s) };

    fn next(&mut self) -> Option<&'a [u8]> {
        let (token, rest) = first_token(self.rest)?;
        self.rest = rest;
        Some(token)
    }
}
