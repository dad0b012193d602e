//! Laws of the definitions: each function's contract is the law.

ghost use Rattle.std.specs.Prelude.{◌≡◌, ◌<◌, ◌≤◌, ◌-◌, ◌^◌, ◌↔◌, ◌⊎◌, length};
ghost use Rattle.mp_outside.specs.Outside.{Loads, Rose};

/// A count of faults rose exactly where it is greater than before, or stands at its last value.
pub fn rose(before: u64, now: u64)
    ensures { Rose before now ↔ ((before < now) ⊎ (now ≡ 2 ^ 64 - 1)) }
{}

/// A load into a buffer that is not empty gives nothing exactly at or past the end of the contents.
pub fn end_of_contents(text: &[u8], place: u64, count: u64, buf: &[u8])
    requires { Loads text.now place count buf.now }
    ensures { 0 < length buf.now → ((count ≡ 0) ↔ (length text.now ≤ place)) }
{}
