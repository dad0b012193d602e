ghost use Rattle.std.specs.Prelude.{◌≡◌, List};
ghost use Rattle.plans.specs.declared.claim.Claim.{Claim};

use peak_bounds::Evidence;
use plans::Claim;
use std::marker::Model;

/// Claims on the parts of a term, as a plan has them.
#[derive(Drop)]
pub struct ClaimList {
    claims: Vec<Claim>,
}

impl Model for ClaimList {
    ghost Value = { List Claim };

    ghost view = { λ c. c.claims.items };
}

impl ClaimList {
    /// A list of these claims. It takes no memory.
    pub fn new(claims: Vec<Claim>) -> ClaimList
        ensures { result ≡ claims.items }
    {
        ClaimList { claims }
    }

    /// The claims.
    pub fn claims(&self) -> &[Claim]
        ensures { result.now ≡ self.now }
    {
        &self.claims
    }
}

/// Evidence that no order of the tasks has a peak below a bound.
#[derive(Drop)]
pub enum BoundEvidence {
    /// What one task needs, or that one of some tasks starts first, or last: of a system whatever its graph.
    Sums(Evidence),
    /// Claims on the parts of a term: of a system that is one.
    Claims(ClaimList),
    /// No more states than so many are looked at from the end, and none of them is the start: of a small system.
    States(u32),
}
