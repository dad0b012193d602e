//! Lines that begin with a word.

ghost use Rattle.std.specs.Prelude.{◌≡◌, ◌==◌, [], ◌∷◌, false, length, MatchOption};
ghost use Rattle.std.specs.Cmp.Lexicographic.{pointwise};
ghost use Rattle.std.specs.Option.{option_map};
ghost use Rattle.std.specs.Str.{bytes_eq};
ghost use Rattle.mp_text.specs.Text.{tokens_of};
ghost use Rattle.file_frame.specs.Words.{after_word};

use mp_text::tokens;

/// Whether a line has this word alone.
pub fn is_word(text: &[u8], word: &[u8]) -> bool
    ensures { result ≡ pointwise bytes_eq (tokens_of text.now) (word.now ∷ []) }
{
    match tokens(text).one() {
        Some(only) => only == word,
        None => false,
    }
}

// The tokens of a line, where they are two.
fn two_words(text: &[u8]) -> Option<(&[u8], &[u8])>
    ensures { MatchOption result ((length (tokens_of text.now) == 2) ≡ false) (λ p. tokens_of text.now ≡ p.0.now ∷ p.1.now ∷ []) }
{
    let mut words = tokens(text);
    let first = words.next()?;
    let second = words.next()?;
    match words.next() {
        Some(_) => None,
        None => Some((first, second)),
    }
}

/// The second token of a line of two tokens whose first is this word.
pub fn after_word<'a>(text: &'a [u8], word: &[u8]) -> Option<&'a [u8]>
    ensures { option_map (λ t. t.now) result ≡ after_word word.now (tokens_of text.now) }
{
    let (first, second) = two_words(text)?;
    if first == word { Some(second) } else { None }
}
