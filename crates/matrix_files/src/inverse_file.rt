ghost use Rattle.std.specs.Prelude.{◌≡◌, ◌≤◌, ◌+◌, ◌^◌, ◌||◌, if◌then◌else◌, true, [], ◌∷◌, length, slice_index_or, unwrap_or};
ghost use Rattle.std.specs.Prelude.{MatchResult, IfOk};
ghost use Rattle.std.specs.List.{list_any};
ghost use Rattle.std.specs.Option.{option_map};
ghost use Rattle.mp_text.specs.Text.{tokens_of};
ghost use Rattle.mp_text.specs.declared.layout.Layout.TheVariants.{Commented};
ghost use Rattle.mp_text.specs.Ahead.{rows_of_bytes};
ghost use Rattle.matrix_files.specs.OrderFile.{tokens_of_rows};
ghost use Rattle.matrix_files.specs.PermFile.{numbering_format};
ghost use Rattle.matrix_files.specs.OrderReader.{ReadsNumbering, IsFormatRefusal};
ghost use Rattle.matrix_files.specs.ListingFile.{states, base_listed, listing_format};
ghost use Rattle.matrix_files.specs.ListingReader.{IsCountOf, ReadsListing, ReadsPlaces};
ghost use Rattle.matrix_files.specs.InverseFile.{inverse_of, is_listing, ReadsInverse, IsInverseRefusal};

use crate::NoMemory;
use crate::listing_file::read_listing;
use crate::perm_file::{PermKind, read_numbering};
use mp_text::{Layout, Lines, Refusal, number, tokens};
use permutations::Perm;
use std::alloc::Global;

// How many tokens were seen, which stays at the greatest number, and whether one of them states 0.
#[derive(Clone, Copy)]
struct Seen {
    tokens: u64,
    zero: bool,
}

// With one token more.
fn with_token(seen: Seen, token: &[u8]) -> Seen
    ensures tokens { IsCountOf result.tokens (seen.tokens + 1) }
    ensures zero { result.zero ≡ (seen.zero || states 0 token.now) }
{
    Seen {
        tokens: seen.tokens.saturating_add(1),
        zero: seen.zero || number(token) == Some(0),
    }
}

// With the tokens of one line more.
fn with_line(before: Seen, line: &[u8]) -> Seen
    ensures tokens { IsCountOf result.tokens (before.tokens + length (tokens_of line.now)) }
    ensures zero { result.zero ≡ (before.zero || list_any (states 0) (tokens_of line.now)) }
{
    let mut seen = before;
    for token in tokens(line) {
        seen = with_token(seen, token);
    }
    seen
}

// The tokens of a file.
fn seen_in(bytes: &[u8]) -> Seen
    ensures tokens { IsCountOf result.tokens (length (tokens_of_rows (rows_of_bytes Commented bytes.now))) }
    ensures zero { result.zero ≡ list_any (λ row. list_any (states 0) row.tokens) (rows_of_bytes Commented bytes.now) }
{
    let mut seen = Seen {
        tokens: 0,
        zero: false,
    };
    let mut lines = Lines::new(bytes, Layout::Commented);
    while let Some(line) = lines.next_line() {
        seen = with_line(seen, line.text);
    }
    seen
}

// The second token of a file.
fn second_token(bytes: &[u8]) -> Option<&[u8]>
    ensures { unwrap_or (option_map (λ t. t.now) result) [] ≡ slice_index_or (tokens_of_rows (rows_of_bytes Commented bytes.now)) 1 [] }
{
    let mut lines = Lines::new(bytes, Layout::Commented);
    let first = lines.next_line()?;
    let mut words = tokens(first.text);
    words.next()?;
    match words.next() {
        Some(second) => Some(second),
        None => tokens(lines.next_line()?.text).next(),
    }
}

// Whether the second token of a file states 0.
fn is_second_zero(bytes: &[u8]) -> bool
    ensures { result ≡ states 0 (slice_index_or (tokens_of_rows (rows_of_bytes Commented bytes.now)) 1 []) }
{
    match second_token(bytes) {
        Some(token) => number(token) == Some(0),
        None => false,
    }
}

// The places of a listing, counted from 1.
fn read_listed(alloc: Global, bytes: &[u8], n: u32) -> Result<Perm, Refusal<PermKind>>
    requires { is_listing n (rows_of_bytes Commented bytes.now) ≡ true }
    ensures { let base = base_listed (tokens_of_rows (rows_of_bytes Commented bytes.now)) in
        MatchResult result (λ places. ReadsListing base n bytes.now places) (IsFormatRefusal (listing_format base n) bytes.now) }
{
    if is_second_zero(bytes) {
        read_listing::<0>(alloc, bytes, n)
    } else {
        read_listing::<1>(alloc, bytes, n)
    }
}

// Places alone, which count from 0 or from 1, counted from 1.
fn read_alone(alloc: Global, bytes: &[u8], n: u32, zero: bool) -> Result<Perm, Refusal<PermKind>>
    ensures { let base = if zero then 0 else 1 in
        MatchResult result (λ places. ReadsNumbering base n bytes.now places) (IsFormatRefusal (numbering_format base n) bytes.now) }
{
    if zero {
        read_numbering::<0>(alloc, bytes, n)
    } else {
        read_numbering::<1>(alloc, bytes, n)
    }
}

// The places that a file holds, counted from 1.
fn read_places(alloc: Global, bytes: &[u8], n: u32) -> Result<Perm, Refusal<PermKind>>
    ensures { MatchResult result (λ places. ReadsPlaces n bytes.now places) (IsInverseRefusal n bytes.now) }
{
    let seen = seen_in(bytes);
    if seen.tokens == 2 * u64::from(n) + 1 {
        read_listed(alloc, bytes, n)
    } else {
        read_alone(alloc, bytes, n, seen.zero)
    }
}

// The place of each vertex in an order, with 0 at 0.
fn places_in(alloc: Global, order: &Perm) -> Result<Vec<u32>, NoMemory>
    ensures places { IfOk result (λ places. places.items ≡ 0 ∷ inverse_of order.now) }
    ensures small { IfOk result (λ places. length places.items ≤ 2 ^ 32) }
{
    let mut places = Vec::with_capacity(alloc, order.len() as usize + 1)?;
    places.push(0)?;
    for v in 0..order.len() {
        places.push(order.place(v + 1))?;
    }
    Ok(places)
}

// The vertices of an order, by place, with 0 at 0.
fn vertices_in(alloc: Global, order: &Perm) -> Result<Vec<u32>, NoMemory>
    ensures { IfOk result (λ vertices. vertices.items ≡ 0 ∷ order.now) }
{
    let mut vertices = Vec::with_capacity(alloc, order.len() as usize + 1)?;
    vertices.push(0)?;
    for k in 0..order.len() {
        vertices.push(order.at(k + 1))?;
    }
    Ok(vertices)
}

// The order whose inverse is this one.
fn inverse(alloc: Global, places: &Perm) -> Result<Perm, NoMemory>
    ensures { IfOk result (λ order. order ≡ inverse_of places.now) }
{
    let vertices = places_in(alloc, places)?;
    let table = vertices_in(alloc, places)?;
    places.keeps();
    Ok(Perm::from_tables(vertices, table))
}

/// The order of elimination of `n` vertices whose inverse a file holds. METIS's `ndmetis` writes places alone: the v-th number is the
/// place of vertex v, counted from 0 where a 0 stands in the file, else from 1. A file of `2n + 1` tokens is a listing, as Scotch's `gord`
/// writes it: `n`, then each vertex, by rising number, and its place, counted from 0 where the first vertex is 0, else from 1. Or why it is
/// refused: a token that is no number, one number too many or too few, one that is no place or not the next vertex, or a place that stands
/// there twice. Linear in the file and in `n`. It answers no limit.
pub fn read_inverse(alloc: Global, bytes: &[u8], n: u32) -> Result<Perm, Refusal<PermKind>>
    ensures { MatchResult result (λ order. ReadsInverse n bytes.now order) (IsInverseRefusal n bytes.now) }
{
    let places = read_places(alloc, bytes, n)?;
    Ok(inverse(alloc, &places)?)
}
