ghost use Rattle.std.specs.Prelude.{◌≡◌, ◌≤◌, ℕ, List, ◌∷◌, ◌++◌, length, take, None, MatchOption};
ghost use Rattle.mp_text.specs.Text.{number_of, number_from, positive_of, negative_of, signed_of};

// The number with one byte more, where that is a digit and it fits.
fn with_digit(value: u64, byte: u8) -> Option<u64>
    ensures { MatchOption result
        ((bs : List ℕ) → number_from value (byte ∷ bs) ≡ None)
        (λ m. (bs : List ℕ) → number_from value (byte ∷ bs) ≡ number_from m bs) }
{
    if byte.is_ascii_digit() {
        let digit = u64::from(byte - b'0');
        value.checked_mul(10)?.checked_add(digit)
    } else {
        None
    }
}

// The greatest number that fits whatever digit follows it.
const MOST_BEFORE_DIGIT: u64 = (u64::MAX - 9) / 10;

/// The number that the digits at the head of a text spell, and how many digits these are. It ends before a digit that may be too many,
/// so that none of them is tested for overflow.
#[inline]
pub(crate) fn leading_number(text: &[u8]) -> (u64, usize)
    ensures within { result.1 ≤ length text.now }
    ensures spells { (rest : List ℕ) → number_from 0 (take result.1 text.now ++ rest) ≡ number_from result.0 rest }
{
    let mut value: u64 = 0;
    let mut len = 0;
    while len < text.len() && text[len].is_ascii_digit() && value <= MOST_BEFORE_DIGIT {
        value = 10 * value + u64::from(text[len] - b'0');
        len += 1;
    }
    (value, len)
}

/// The number that a token spells: one or more digits with a value of at most 2^64 - 1. Leading zeros are accepted.
pub fn number(token: &[u8]) -> Option<u64>
    ensures { result ≡ number_of token.now }
{
    if token.is_empty() {
        return None;
    }
    let (leading, len) = leading_number(token);
    let mut value = leading;
    for byte in &token[len..] {
        value = with_digit(value, *byte)?;
    }
    Some(value)
}

fn positive(value: u64) -> Option<i64>
    ensures { result ≡ positive_of value }
{
    i64::try_from(value).ok()
}

fn negative(value: u64) -> Option<i64>
    ensures { result ≡ negative_of value }
{
    0i64.checked_sub_unsigned(value)
}

/// The signed number that a token spells: a number, or a minus followed by one, where it is from -2^63 to 2^63 - 1.
pub fn signed(token: &[u8]) -> Option<i64>
    ensures { result ≡ signed_of token.now }
{
    match token.strip_prefix(b"-") {
        Some(digits) => number(digits).and_then(negative),
        None => number(token).and_then(positive),
    }
}
