use crate::page::Page;
use std::alloc::AllocError;

/// Why a request comes to no report.
#[derive(Drop)]
pub enum Stop {
    /// A file is refused; the page says which and why.
    Refused(Page),
    /// The count of a file rose.
    ReadFault,
    NoMemory,
}

impl From<AllocError> for Stop {
    ghost use Rattle.std.specs.Prelude.{◌≡◌};
    ghost use Rattle.judging.specs.declared.stop.Stop.TheVariants.{NoMemory};

    ghost from_gives = { λ _ e. e ≡ NoMemory };

    fn from(_e: AllocError) -> Stop {
        Stop::NoMemory
    }
}
