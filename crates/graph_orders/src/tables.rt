//! Lists that may be read and written at any place: past the end there is 0, and a write there does nothing.

ghost use Rattle.std.specs.Prelude.{◌≡◌, length};

/// The number at a place.
#[inline]
pub fn number_at(list: &[u32], place: u32) -> u32 {
    list.get(place as usize).copied().unwrap_or(0)
}

/// Writes the number at a place.
#[inline]
pub fn put_number(list: &mut [u32], place: u32, number: u32)
    ensures { length list.new ≡ length list.old }
{
    if (place as usize) < list.len() {
        list[place as usize] = number;
    }
}

/// The amount at a place.
#[inline]
pub fn amount_at(list: &[i64], place: u32) -> i64 {
    list.get(place as usize).copied().unwrap_or(0)
}

/// Writes the amount at a place.
#[inline]
pub fn put_amount(list: &mut [i64], place: u32, amount: i64)
    ensures { length list.new ≡ length list.old }
{
    if (place as usize) < list.len() {
        list[place as usize] = amount;
    }
}

/// Adds to the amount at a place.
#[inline]
pub fn add_amount(list: &mut [i64], place: u32, more: i64)
    ensures { length list.new ≡ length list.old }
{
    let amount = amount_at(list, place);
    put_amount(list, place, amount.saturating_add(more));
}

/// Whether a place is marked.
#[inline]
pub fn is_marked(marks: &[bool], place: u32) -> bool {
    marks.get(place as usize).copied().unwrap_or(false)
}

/// Marks a place.
#[inline]
pub fn mark(marks: &mut [bool], place: u32)
    ensures { length marks.new ≡ length marks.old }
{
    if (place as usize) < marks.len() {
        marks[place as usize] = true;
    }
}

/// A count as a number of 32 bits; the greatest one where it is more.
#[inline]
pub fn count_of(count: usize) -> u32 {
    u32::try_from(count).unwrap_or(u32::MAX)
}

/// A size as a signed number.
#[inline]
pub fn signed(size: u64) -> i64 {
    i64::try_from(size).unwrap_or(0)
}
