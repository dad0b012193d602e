ghost use Rattle.std.specs.Prelude.{◌≡◌};
ghost use Rattle.sp_reduce.specs.declared.reduced.ReduceRefusal.TheVariants.{NoMemory};

use sp_terms::TermList;
use std::alloc::AllocError;

/// The term of a graph.
#[derive(Drop)]
pub struct Reduced {
    /// The term.
    pub terms: TermList,
    /// For each task of the term, in their order, the number of the graph's task that it is.
    pub names: Vec<u32>,
}

/// Why a graph has no term, or that memory ran out.
#[derive(Drop)]
pub enum ReduceRefusal {
    /// No term has the system of the completed graph. The arcs of an irreducible rest, each by its ends, in rising order; 0 stands for
    /// none.
    Rest(Vec<(u32, u32)>),
    /// Memory ran out, which says nothing of the graph.
    NoMemory,
}

impl From<AllocError> for ReduceRefusal {
    ghost from_gives = { λ _ e. e ≡ NoMemory };

    fn from(_e: AllocError) -> ReduceRefusal {
        ReduceRefusal::NoMemory
    }
}
