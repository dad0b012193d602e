ghost use Rattle.std.specs.Prelude.{◌≡◌};
ghost use Rattle.mp_text.specs.Grammar.{fault_at};

use crate::refusals::{Fault, Refusal};

/// The refusal of a file for a line.
pub fn fault<K>(line: u64, kind: K) -> Refusal<K>
    ensures { result ≡ fault_at line kind }
{
    Refusal::Format(Fault { line, kind })
}
