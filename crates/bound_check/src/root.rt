ghost use Rattle.std.specs.Prelude.{◌≡◌, pos, ◌≤ℤ◌, ◌+ℤ◌, IsTrue, ◌↔◌, List, length, option_map};
ghost use Rattle.sp_terms.specs.declared.position.Position.{Position};
ghost use Rattle.plans.specs.Plan.{claim_of, claim_at};
ghost use Rattle.bound_check.specs.Shown.{HasRootFor};

use plans::Claim;

// The claim at a position, if one stands there.
fn claim_on(claims: &[Claim], position: u32) -> Option<Claim>
    ensures { option_map claim_of result ≡ claim_at claims.now position }
{
    for claim in claims {
        if claim.position == position {
            return Some(*claim);
        }
    }
    None
}

// Whether the bound of a claim is at least another less 1.
fn reaches(claim: &Claim, bound: u64) -> bool
    ensures { IsTrue result ↔ pos bound ≤ℤ (claim.now.bound +ℤ pos 1) }
{
    i128::from(bound) <= i128::from(claim.bound) + 1
}

/// Whether the last position has a claim with a bound of at least this one less 1.
pub fn has_root(claims: &[Claim], last: u32, bound: u64) -> bool
    ensures { (ps : List Position) → length ps ≡ last → IsTrue result ↔ HasRootFor ps claims.now bound }
{
    match claim_on(claims, last) {
        Some(claim) => reaches(&claim, bound),
        None => false,
    }
}
