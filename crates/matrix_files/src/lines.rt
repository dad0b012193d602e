//! One function for each line of a matrix file: its tests in the order of the format's table.

ghost use Rattle.std.specs.Prelude.{◌≡◌, ◌==◌, ◌≤◌, ◌<◌, ◌&&◌, ℕ, List, [], ◌∷◌, length, nat_le, false, MatchOption, IfOk, Some};
ghost use Rattle.std.specs.Prelude.{None};
ghost use Rattle.limits.specs.Limits.{most_order};
ghost use Rattle.mp_text.specs.Text.{tokens_of};
ghost use Rattle.mp_text.specs.Ahead.{row};
ghost use Rattle.mp_text.specs.Reading.{Gives, tested};
ghost use Rattle.patterns.specs.Pattern.{IsPairWithin};
ghost use Rattle.matrix_files.specs.MatrixFile.{is_word, values_of_field, is_symmetry, banner_tests, values_stated, size_stated, size_of};
ghost use Rattle.matrix_files.specs.MatrixFile.{size_tests, entry_stated, pair_of, entry_tests};

use crate::kind::MatrixKind;
use limits::{LimitName, MOST_ENTRIES, MOST_ORDER};
use mp_text::{Line, Refusal, Tokens, fault, tokens};

// Whether a token is this word, without regard to case.
#[tactic(auto, unfolding(crate::specs::MatrixFile::is_word))]
fn is_word(token: &[u8], word: &[u8]) -> bool
    ensures { result ≡ is_word word.now token.now }
{
    token.eq_ignore_ascii_case(word)
}

// How many values an entry of this field has.
fn values_of_field(field: &[u8]) -> Option<usize>
    ensures { result ≡ values_of_field field.now }
{
    if is_word(field, b"pattern") {
        return Some(0);
    }
    if is_word(field, b"real")
        || is_word(field, b"double")
        || is_word(field, b"integer")
        || is_word(field, b"unsigned-integer")
    {
        return Some(1);
    }
    if is_word(field, b"complex") {
        return Some(2);
    }
    None
}

fn is_symmetry(word: &[u8]) -> bool
    ensures { result ≡ is_symmetry word.now }
{
    is_word(word, b"general")
        || is_word(word, b"symmetric")
        || is_word(word, b"hermitian")
        || is_word(word, b"skew-symmetric")
}

// The first five words of line 1.
#[derive(Clone, Copy)]
struct Banner<'a> {
    mark: &'a [u8],
    object: &'a [u8],
    format: &'a [u8],
    field: &'a [u8],
    symmetry: &'a [u8],
}

fn five_words(text: &[u8]) -> Option<Banner<'_>>
    ensures { MatchOption result
        (nat_le 5 (length (tokens_of text.now)) ≡ false)
        (λ b. (rest : List (List ℕ))
        × (tokens_of text.now ≡ b.mark.now ∷ b.object.now ∷ b.format.now ∷ b.field.now ∷ b.symmetry.now ∷ rest)) }
{
    let mut words = tokens(text);
    let mark = words.next()?;
    let object = words.next()?;
    let format = words.next()?;
    let field = words.next()?;
    let symmetry = words.next()?;
    Some(Banner {
        mark,
        object,
        format,
        field,
        symmetry,
    })
}

/// Line 1: how many values an entry has.
pub fn banner_on(line: Line<'_>) -> Result<usize, Refusal<MatrixKind>>
    ensures { let r = row line.entry.number line.entry.text.now in Gives (tested (banner_tests r) (values_stated r)) result }
{
    let banner = five_words(line.text).ok_or(fault(line.number, MatrixKind::Banner))?;
    if !is_word(banner.mark, b"%%MatrixMarket") {
        return Err(fault(line.number, MatrixKind::Banner));
    }
    if !is_word(banner.object, b"matrix") {
        return Err(fault(line.number, MatrixKind::NotMatrix));
    }
    if is_word(banner.format, b"array") {
        return Err(fault(line.number, MatrixKind::ArrayFormat));
    }
    if !is_word(banner.format, b"coordinate") {
        return Err(fault(line.number, MatrixKind::Banner));
    }
    let values = values_of_field(banner.field).ok_or(fault(line.number, MatrixKind::Field))?;
    if !is_symmetry(banner.symmetry) {
        return Err(fault(line.number, MatrixKind::Symmetry));
    }
    Ok(values)
}

// Whether just so many tokens are left.
fn are_left(mut words: Tokens<'_>, count: usize) -> bool
    ensures { result ≡ (length words.entry == count) }
{
    for _taken in 0..count {
        if words.next().is_none() {
            return false;
        }
    }
    words.next().is_none()
}

#[tactic(auto, unfolding(crate::specs::MatrixFile::size_stated))]
fn size_fields(text: &[u8]) -> Option<[u64; 3]>
    ensures { MatchOption result (size_stated (tokens_of text.now) ≡ None)
        (λ ns. (rows columns entries : ℕ) × (ns ≡ rows ∷ columns ∷ entries ∷ [])
        × (size_stated (tokens_of text.now) ≡ Some (record { rows = rows; columns = columns; entries = entries }))) }
{
    tokens(text).numbers()
}

/// The order and the number of entries that a matrix file states.
#[derive(Clone, Copy, Debug)]
pub struct Size {
    pub order: u64,
    pub entries: u64,
}

/// The size line.
pub fn size_on(line: Line<'_>) -> Result<Size, Refusal<MatrixKind>>
    ensures judged { let r = row line.entry.number line.entry.text.now in
        Gives (tested (size_tests r) (record { order = (size_of r).rows; entries = (size_of r).entries })) result }
    ensures within { IfOk result (λ s. s.order ≤ most_order) }
{
    let stated = size_fields(line.text).ok_or(fault(line.number, MatrixKind::SizeLine))?;
    let [rows, columns, entries] = stated;
    if rows == 0 || columns == 0 {
        return Err(fault(line.number, MatrixKind::SizeLine));
    }
    if rows != columns {
        return Err(fault(line.number, MatrixKind::NotSquare));
    }
    if rows > MOST_ORDER {
        return Err(Refusal::Limit(LimitName::Order));
    }
    if entries > MOST_ENTRIES {
        return Err(Refusal::Limit(LimitName::Entries));
    }
    Ok(Size {
        order: rows,
        entries,
    })
}

#[tactic(auto, unfolding(crate::specs::MatrixFile::entry_stated))]
fn entry_indices(values: usize, text: &[u8]) -> Option<(u64, u64)>
    ensures { result ≡ entry_stated values (tokens_of text.now) }
{
    let mut words = tokens(text);
    let i = words.next_number()?;
    let j = words.next_number()?;
    if are_left(words, values) {
        Some((i, j))
    } else {
        None
    }
}

fn is_index(order: u64, i: u64) -> bool
    ensures { result ≡ (nat_le 1 i && nat_le i order) }
{
    1 <= i && i <= order
}

/// An entry line, after so many others.
pub fn entry_on(
    values: usize,
    size: Size,
    taken: u64,
    line: Line<'_>,
) -> Result<(u32, u32), Refusal<MatrixKind>>
    requires { size.order ≤ most_order }
    ensures judged { let r = row line.entry.number line.entry.text.now in
        Gives (tested (entry_tests values size.order size.entries taken r) (pair_of values r)) result }
    ensures within { IfOk result (IsPairWithin size.order) }
{
    if taken >= size.entries {
        return Err(fault(line.number, MatrixKind::TooMany));
    }
    let (i, j) = entry_indices(values, line.text).ok_or(fault(line.number, MatrixKind::Entry))?;
    if !is_index(size.order, i) || !is_index(size.order, j) {
        return Err(fault(line.number, MatrixKind::Index));
    }
    Ok((i as u32, j as u32))
}
