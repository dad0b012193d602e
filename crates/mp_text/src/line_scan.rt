ghost use Rattle.std.specs.Prelude.{◌≡◌, ◌≤◌, ◌+◌, ℕ, length, ◌<◌, [], ◌∷◌, MatchOption, IfNone, IfSome, OnSome, IsTrue};
ghost use Rattle.std.specs.List.{position_or_len};
ghost use Rattle.mp_text.specs.Text.{is_feed, says_nothing, is_passed, are_passed, lines_of, tokens_of};
ghost use Rattle.mp_text.specs.Ahead.{Ahead, IsNextLine, rows_of, past_of, row};

use crate::layout::Layout;
use crate::token_scan::after_blanks;
use memchr::memchr;
use std::marker::Model;

/// A line of a text, with its number.
#[derive(Clone, Copy, Debug)]
pub struct Line<'a> {
    /// From 1.
    pub number: u64,
    /// The bytes of the line, without the line feed that ends it.
    pub text: &'a [u8],
}

/// The lines of a text that are left. A line ends at a line feed; a last line with none counts where it is not empty.
#[derive(Drop)]
pub struct Lines<'a> {
    rest: &'a [u8],
    number: u64,
    layout: Layout,
}

impl<'a> Model for Lines<'a> {
    ghost use Rattle.std.specs.Prelude.{◌≤◌, ◌+◌, ◌^◌, length};
    ghost use Rattle.mp_text.specs.Text.{lines_of};
    ghost use Rattle.mp_text.specs.Ahead.{Ahead};

    ghost Value = { Ahead };

    ghost view = { λ s. record { number = s.number; lines = lines_of s.rest.now; layout = s.layout } };

    ghost invariant = { λ s. s.number + length s.rest.now ≤ 2 ^ 63 };
}

// Whether a line has no token, or begins a comment: the first byte of its first token says it.
fn says_nothing(layout: Layout, line: &[u8]) -> bool
    ensures { result ≡ says_nothing layout (tokens_of line.now) }
{
    match after_blanks(line) {
        [] => true,
        [b'%', ..] => true,
        [b'#', ..] => layout == Layout::Commented,
        _ => false,
    }
}

// Whether a line with this number is passed over.
fn is_passed(layout: Layout, line: Line<'_>) -> bool
    ensures { result ≡ is_passed layout line.entry.number (tokens_of line.entry.text.now) }
{
    match layout {
        Layout::Commented => says_nothing(layout, line.text),
        Layout::Banner => line.number != 1 && says_nothing(layout, line.text),
    }
}

// How many bytes stand before the first line feed.
fn line_len(bytes: &[u8]) -> usize
    ensures within { result ≤ length bytes.now }
    ensures value { result ≡ position_or_len is_feed bytes.now }
{
    memchr(b'\n', bytes).unwrap_or(bytes.len())
}

// The first line, and what follows its line feed.
fn first_line(bytes: &[u8]) -> (&[u8], &[u8])
    requires { 0 < length bytes.now }
    ensures value { lines_of bytes.now ≡ result.0.now ∷ lines_of result.1.now }
    ensures shorter { length result.1.now < length bytes.now }
{
    let (line, after) = bytes.split_at(line_len(bytes));
    match after {
        [] => (line, after),
        [_, rest @ ..] => (line, rest),
    }
}

impl<'a> Lines<'a> {
    /// The lines of a text, from the first on.
    pub fn new(bytes: &'a [u8], layout: Layout) -> Lines<'a>
        ensures { result ≡ record { number = 1; lines = lines_of bytes.now; layout = layout } }
    {
        Lines {
            rest: bytes,
            number: 1,
            layout,
        }
    }

    /// The next line, of whatever kind, if one is left.
    pub fn raw(&mut self) -> Option<Line<'a>>
        ensures none { IfNone result ((self.old.lines ≡ []) × (self.new ≡ self.old)) }
        ensures line { IfSome result (λ line. (line.number ≡ self.old.number) × (self.old.lines ≡ line.text.now ∷ self.new.lines)) }
        ensures next { OnSome result ((self.new.number ≡ self.old.number + 1) × (self.new.layout ≡ self.old.layout)) }
    {
        if self.rest.is_empty() {
            return None;
        }
        let number = self.number;
        let (text, rest) = first_line(self.rest);
        self.rest = rest;
        self.number = number + 1;
        Some(Line { number, text })
    }

    /// The next line that counts, if one is left: one that is neither blank nor a comment, or the banner.
    pub fn next_line(&mut self) -> Option<Line<'a>>
        // the lines before it are passed over
        ensures line { IfSome result (λ line. IsNextLine self.old line.number line.text.now self.new) }
        // all lines are passed over
        ensures end { IfNone result ((self.new.lines ≡ []) × IsTrue (are_passed self.old.layout self.old.number self.old.lines)) }
        ensures rows { MatchOption result
            (rows_of self.old ≡ [])
            (λ line. rows_of self.old ≡ row line.number line.text.now ∷ rows_of self.new) }
        ensures none { IfNone result (rows_of self.new ≡ []) }
        ensures past { past_of self.new ≡ past_of self.old }
        ensures layout { self.new.layout ≡ self.old.layout }
    {
        let layout = self.layout;
        while let Some(line) = self.raw() {
            if !is_passed(layout, line) {
                return Some(line);
            }
        }
        None
    }

    /// The number of lines plus 1. It takes time in what is left of the text, so none at the end.
    pub fn past(&self) -> u64
        ensures { result ≡ past_of self.now }
    {
        let mut number = self.number;
        let mut rest = self.rest;
        while !rest.is_empty() {
            let (_, after) = first_line(rest);
            rest = after;
            number += 1;
        }
        number
    }
}
