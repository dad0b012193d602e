//! Why a file is refused.

ghost use Rattle.std.specs.Prelude.{◌≡◌, ℕ, List, IsTrue};
ghost use Rattle.mp_text.specs.Report.{is_token};
ghost use Rattle.mp_text.specs.declared.refusals.Refusal.TheVariants.{NoMemory};

use limits::LimitName;
use std::alloc::{AllocError, AllocFailed};
use std::fmt::{self, Display, Formatter, Write};

/// What can be wrong with a file of one format.
pub trait Kind: Copy {
    ghost word_of: { Self → List ℕ };

    /// The word for it in reports, which is one token.
    fn word(self) -> &'static str
        ensures word { result.now ≡ word_of self }
        ensures token { IsTrue (is_token result.now) };
}

/// What is wrong with a file, and where.
#[derive(Clone, Copy, Debug, PartialEq, Eq)]
pub struct Fault<K> {
    /// The number of the line, from 1; the number of lines plus 1 where the file ends too early.
    pub line: u64,
    /// Which test of the format failed.
    pub kind: K,
}

/// Why a file was refused, or that memory ran out.
#[derive(Clone, Copy, Debug, PartialEq, Eq)]
pub enum Refusal<K> {
    /// A test of the format failed.
    Format(Fault<K>),
    /// A limit was passed.
    Limit(LimitName),
    /// Memory ran out, which says nothing of the file.
    NoMemory,
}

impl<K> From<AllocError> for Refusal<K> {
    ghost from_gives = { λ _ e. e ≡ NoMemory };

    fn from(_e: AllocError) -> Refusal<K> {
        Refusal::NoMemory
    }
}

impl<K, T: Drop> From<AllocFailed<T>> for Refusal<K> {
    ghost from_gives = { λ _ e. e ≡ NoMemory };

    fn from(_e: AllocFailed<T>) -> Refusal<K> {
        Refusal::NoMemory
    }
}

impl<K: Display> Display for Fault<K> {
    fn fmt<W: Write>(&self, f: &mut Formatter<W>) -> fmt::Result {
        write!(f, "{} at line {}", self.kind, self.line)
    }
}

impl<K: Display> Display for Refusal<K> {
    fn fmt<W: Write>(&self, f: &mut Formatter<W>) -> fmt::Result {
        match self {
            Refusal::Format(fault) => fault.fmt(f),
            Refusal::Limit(limit) => write!(f, "limit {limit}"),
            Refusal::NoMemory => f.write_str("no memory"),
        }
    }
}
